//! Laws of frames, and of the image of what is kept.
ghost use Rattle.std.specs.Prelude.{◌≡◌, ◌≤◌, ◌<◌, ◌+◌, ◌*◌, ◌^◌, IsTrue, List, length};
ghost use Rattle.std.specs.List.{AllByRecursion};
ghost use Rattle.au_base.specs.BuiltIn.{sys};
ghost use Rattle.au_base.specs.Limits.{CATALOG_OBJECTS, GRANTS};
ghost use Rattle.au_entries.specs.declared.change.Change.{Change};
ghost use Rattle.au_entries.specs.declared.kept.Kept.{Kept};
ghost use Rattle.au_entries.specs.Imaging.{image_changes, nothing};
ghost use Rattle.au_entries.specs.Replaying.{Conditions, has_user};
ghost use Rattle.au_image.specs.Image.{image_of};
ghost use Rattle.au_kept.specs.Frames.{IsReplayable, Replays, after_frame};
ghost use Rattle.au_kept.specs.Sound.{IsKept};
ghost use Rattle.au_replay.specs.Reading.{HasShortText};
ghost use Rattle.rec_codec.specs.Changes.{IsChangeSpellable};
ghost use Rattle.rec_codec.specs.declared.frame.Frame.{Frame};
ghost use Rattle.rec_codec.specs.Frames.{IsSpellable};

/// What is lawful, is whole and has a spelling stays so after each frame that has a spelling and goes
/// on, and SYS is a user then. So it is of all that the frames of a journal leave, beginning with
/// nothing; and they leave one thing. It does nothing, and states the law for its callers.
pub fn frames_hold()
    ensures nothing { (conditions : Conditions) → IsKept conditions nothing }
    ensures one_frame { (conditions : Conditions) (kept : Kept) (frame : Frame) → IsKept conditions kept → IsSpellable frame → IsReplayable conditions kept frame → IsKept conditions (after_frame conditions.tree kept frame) }
    ensures sys { (conditions : Conditions) (kept : Kept) (frame : Frame) → IsReplayable conditions kept frame → IsTrue (has_user (after_frame conditions.tree kept frame) sys) }
    ensures replayed { (conditions : Conditions) (frames : List Frame) (kept : Kept) → AllByRecursion IsSpellable frames → Replays conditions frames kept → IsKept conditions kept × IsTrue (has_user kept sys) }
    ensures one_replay { (conditions : Conditions) (frames : List Frame) (a b : Kept) → Replays conditions frames a → Replays conditions frames b → a ≡ b }
{
    au_entries::frames_keep_laws();
}

/// The image of what is lawful, is whole and has a spelling is a frame, where it has no more changes
/// and records than four bytes can count; beside those of the rows it has as many changes at most as
/// the catalogue has room for, and two.
/// It makes of nothing exactly what was kept, and goes on from nothing where SYS is a user. It does
/// nothing, and states the law for its callers.
pub fn images_lead_back()
    ensures spellable { (conditions : Conditions) (kept : Kept) → IsKept conditions kept → length (image_changes kept) < 2 ^ 32 → length kept.trail < 2 ^ 32 → IsSpellable (image_of kept) }
    ensures few { (conditions : Conditions) (kept : Kept) → IsKept conditions kept → length (image_changes kept) ≤ length kept.rows + (6 * CATALOG_OBJECTS + GRANTS + 2) }
    ensures back { (conditions : Conditions) (kept : Kept) → IsKept conditions kept → after_frame conditions.tree nothing (image_of kept) ≡ kept }
    ensures goes { (conditions : Conditions) (kept : Kept) → IsKept conditions kept → IsTrue (has_user kept sys) → IsReplayable conditions nothing (image_of kept) }
{
    au_entries::images_come_back();
}

/// The text of a condition that has a spelling is short enough to be read. It does nothing, and
/// states the law for its callers.
pub fn spellings_are_short()
    ensures { (change : Change) → IsChangeSpellable change → HasShortText change }
{}
