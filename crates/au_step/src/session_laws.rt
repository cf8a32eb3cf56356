//! Laws of sessions.
ghost use Rattle.std.specs.Prelude.{ℕ};
ghost use Rattle.au_base.specs.declared.ask.Ask.{Ask};
ghost use Rattle.au_base.specs.declared.numbers.ClientNo.{ClientNo};
ghost use Rattle.au_base.specs.declared.reply.Reply.{Reply};
ghost use Rattle.au_step.specs.Abandoning.{abandoned};
ghost use Rattle.au_step.specs.Lawful.{IsLawfulState};
ghost use Rattle.au_step.specs.Sessions.{HaveOneEach, IsOff};
ghost use Rattle.au_step.specs.State.{State};
ghost use Rattle.au_step.specs.Step.{Logged, LoggedStep};

use au_kept::transactions_hold;

/// No client comes to have two sessions by a step (`one`), and a client has none after a logoff
/// (`off`), however that is answered. It does nothing, and states the laws for its callers.
pub fn clients_have_one_session()
    ensures one { (m n : State) (client : ClientNo) (ask : Ask) (stamp : ℕ) (reply : Reply) (logged : Logged) → HaveOneEach m.sessions → LoggedStep m client ask stamp reply logged n → HaveOneEach n.sessions }
    ensures off { (m n : State) (client : ClientNo) (stamp : ℕ) (reply : Reply) (logged : Logged) → LoggedStep m client Ask.Logoff stamp reply logged n → IsOff n.sessions client }
{}

/// A state stays lawful when the session of a client ends that wasn't asked to, and its transaction
/// with it (`lawful`); the client has none then (`off`), and no client has two where none had
/// (`one`). It does nothing, and states the laws for its callers.
pub fn ends_stay_lawful()
    ensures lawful { (m : State) (client : ClientNo) → IsLawfulState m → IsLawfulState (abandoned client m) }
    ensures off { (m : State) (client : ClientNo) → IsOff (abandoned client m).sessions client }
    ensures one { (m : State) (client : ClientNo) → HaveOneEach m.sessions → HaveOneEach (abandoned client m).sessions }
{
    transactions_hold();
}
