//! Laws of what is kept and of its frames.
ghost use Rattle.std.specs.Prelude.{ℕ, ◌<◌, List, Option};
ghost use Rattle.au_base.specs.Limits.{INSTANCES};
ghost use Rattle.au_entries.specs.declared.kept.Kept.{Kept};
ghost use Rattle.au_entries.specs.Imaging.{nothing};
ghost use Rattle.au_image.specs.Image.{image_of};
ghost use Rattle.au_opening.specs.Opening.{opening};
ghost use Rattle.rec_codec.specs.declared.frame.Frame.{Frame};
ghost use Rattle.rec_codec.specs.Frames.{IsSpellable};
ghost use Rattle.au_step.specs.Lawful.{IsLawful};
ghost use Rattle.au_step.specs.Replaying.{EndsWell, IsReplayable, after_frame};
ghost use Rattle.au_step.specs.Returning.{LeadsTo, start_frame};
ghost use Rattle.au_step.specs.State.{start};

/// What is kept is lawful after each frame that has a spelling and goes on, where it was lawful
/// before, and SYS is a user then. It does nothing, and states the law for its callers.
pub fn frames_stay_lawful()
    ensures lawful { (kept : Kept) (frame : Frame) → IsLawful kept → IsSpellable frame → IsReplayable kept frame → IsLawful (after_frame kept frame) }
    ensures ends { (kept : Kept) (frame : Frame) → IsReplayable kept frame → EndsWell (after_frame kept frame) }
{
    au_kept::frames_hold();
}

/// The image of what is kept goes on from nothing and gives it back, where it is lawful and SYS is a
/// user; so does that of what a new store keeps. It does nothing, and states the law for its callers.
pub fn images_come_back()
    ensures kept { (kept : Kept) → IsLawful kept → EndsWell kept → LeadsTo nothing (Option.Some (image_of kept)) kept }
    ensures opening { (password : List ℕ) → LeadsTo nothing (Option.Some (image_of (opening password))) (opening password) }
{
    au_kept::images_lead_back();
    au_opening::opening_is_kept();
}

/// The event with which an instance begins goes on from what is kept, and gives what is kept then. It
/// does nothing, and states the law for its callers.
pub fn starts_lead_on()
    ensures { (kept : Kept) (reading : ℕ) → IsLawful kept → kept.instance < INSTANCES → EndsWell kept → LeadsTo kept (Option.Some (start_frame kept reading)) (start kept reading).kept }
{}

/// That event has a body. It does nothing, and states the law for its callers.
pub fn starts_can_be_written()
    ensures { (kept : Kept) (reading : ℕ) → IsLawful kept → kept.instance < INSTANCES → IsSpellable (start_frame kept reading) }
{}
