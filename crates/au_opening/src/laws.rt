//! What is so of what a new store keeps.
ghost use Rattle.std.specs.Prelude.{ℕ, IsTrue, List};
ghost use Rattle.au_base.specs.BuiltIn.{sys};
ghost use Rattle.au_entries.specs.Replaying.{has_user};
ghost use Rattle.au_image.specs.Image.{image_of};
ghost use Rattle.au_kept.specs.Sound.{IsKept};
ghost use Rattle.au_opening.specs.Opening.{opening};
ghost use Rattle.au_replay.specs.Reading.{conditions};
ghost use Rattle.rec_codec.specs.Frames.{IsSpellable};

/// What is kept in a new store is lawful, is whole and has a spelling, SYS is a user there, and its
/// image is a frame. It does nothing, and states the law for its callers.
pub fn opening_is_kept()
    ensures kept { (password : List ℕ) → IsKept conditions (opening password) }
    ensures sys { (password : List ℕ) → IsTrue (has_user (opening password) sys) }
    ensures spellable { (password : List ℕ) → IsSpellable (image_of (opening password)) }
{
    au_kept::images_lead_back();
}
