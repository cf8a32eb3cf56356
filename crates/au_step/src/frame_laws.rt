//! Laws of frames.
ghost use Rattle.std.specs.Prelude.{◌≢◌, ℕ, Option};
ghost use Rattle.au_base.specs.declared.ask.Ask.{Ask};
ghost use Rattle.au_base.specs.declared.numbers.ClientNo.{ClientNo};
ghost use Rattle.rec_codec.specs.declared.frame.Frame.{Frame};
ghost use Rattle.au_step.specs.Framing.{IsFrameOf, IsText, IsWritable};
ghost use Rattle.au_step.specs.Lawful.{IsLawfulState};
ghost use Rattle.au_step.specs.Replaying.{EndsWell};
ghost use Rattle.au_step.specs.Returning.{LeadsTo};
ghost use Rattle.au_step.specs.State.{IsStampOf, State};

use crate::step_laws::each_step_is_sound;

/// The frame that a step writes goes on from what is kept before it, and gives what is kept after
/// it; a step that writes none leaves what is kept. That SYS is a user stays so, and the frame has a
/// body. It does nothing, and states the law for its callers.
pub fn frames_lead_on()
    ensures leads { (m n : State) (client : ClientNo) (ask : Ask) (stamp : ℕ) (frame : Option Frame) → IsFrameOf m client ask stamp n frame → IsText ask → IsLawfulState m → IsStampOf m stamp → EndsWell m.kept → client.0 ≢ 0 → LeadsTo m.kept frame n.kept }
    ensures ends { (m n : State) (client : ClientNo) (ask : Ask) (stamp : ℕ) (frame : Option Frame) → IsFrameOf m client ask stamp n frame → IsText ask → IsLawfulState m → IsStampOf m stamp → EndsWell m.kept → client.0 ≢ 0 → EndsWell n.kept }
    ensures writable { (m n : State) (client : ClientNo) (ask : Ask) (stamp : ℕ) (frame : Option Frame) → IsFrameOf m client ask stamp n frame → IsText ask → IsLawfulState m → IsStampOf m stamp → EndsWell m.kept → client.0 ≢ 0 → IsWritable frame }
{
    each_step_is_sound();
}
