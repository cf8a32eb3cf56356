//! Laws of what steps and runs come to.
ghost use Rattle.std.specs.Prelude.{◌≡◌, ℕ, List};
ghost use Rattle.au_base.specs.declared.ask.Ask.{Ask};
ghost use Rattle.au_base.specs.declared.numbers.ClientNo.{ClientNo};
ghost use Rattle.au_base.specs.declared.reply.Reply.{Reply};
ghost use Rattle.au_step.specs.Runs.{Happening, Run};
ghost use Rattle.au_step.specs.State.{State};
ghost use Rattle.au_step.specs.Step.{Logged, LoggedStep, StepAt};

use au_logon::admissions_hold;
use au_ruling::rulings_are_one;
use au_txn::finals_settle;
use sql_parse_admin::one_reading;

/// A step has one reply, leaves one list of changes and records to be kept, and has one next state.
/// So a run over what happens has one list of replies and one end. It does nothing, and states the law for
/// its callers.
pub fn one_result()
    ensures logged { (m n k : State) (client : ClientNo) (ask : Ask) (stamp : ℕ) (a b : Reply) (l o : Logged) → LoggedStep m client ask stamp a l n → LoggedStep m client ask stamp b o k → (a ≡ b) × (l ≡ o) × (n ≡ k) }
    ensures step { (m n k : State) (client : ClientNo) (ask : Ask) (stamp : ℕ) (a b : Reply) → StepAt m client ask stamp a n → StepAt m client ask stamp b k → (a ≡ b) × (n ≡ k) }
    ensures run { (m n k : State) (happenings : List Happening) (replies others : List Reply) → Run m happenings replies n → Run m happenings others k → (replies ≡ others) × (n ≡ k) }
{
    one_reading();
    rulings_are_one();
    admissions_hold();
    finals_settle();
}
