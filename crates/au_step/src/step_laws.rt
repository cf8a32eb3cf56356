//! Laws of what steps leave to be kept, and of the states that they lead to.
ghost use Rattle.std.specs.Prelude.{◌≡◌, ◌≤◌, ◌<◌, ◌^◌, false, length};
ghost use Rattle.std.specs.List.{AllByRecursion};
ghost use Rattle.au_base.specs.Limits.{LAST_MOMENT};
ghost use Rattle.au_entries.specs.Changing.{changed_all};
ghost use Rattle.au_entries.specs.Frames.{after_parts};
ghost use Rattle.au_entries.specs.Lawful.{IsWhole};
ghost use Rattle.au_entries.specs.Replaying.{AllGoOn};
ghost use Rattle.au_kept.specs.Staging.{CanSettle, IsLogged, IsOfRow};
ghost use Rattle.au_replay.specs.Reading.{conditions};
ghost use Rattle.rec_codec.specs.Changes.{IsChangeSpellable};
ghost use Rattle.rec_codec.specs.Records.{trail_record};
ghost use Rattle.au_step.specs.Lawful.{IsLawfulState};
ghost use Rattle.au_step.specs.Replaying.{EndsWell};
ghost use Rattle.au_step.specs.Sound.{HoldsOfKeepings, HoldsOfSteps};
ghost use Rattle.au_step.specs.Step.{all_changes};
ghost use Rattle.au_step.specs.descent.SoundSteps.{IsSoundStep};

use au_audit::recorded_texts_fit;
use au_kept::{commits_can_settle, transactions_hold};
use au_logon::admissions_hold;
use au_recording::{records_can_be_written, results_stay_in_order};
use au_ruling::{rulings_can_be_written, rulings_change_rows, rulings_go_on};

/// Of each step from a lawful state in which SYS is a user, at the stamp of an event, of an ask that
/// is text, of a client that isn't 0: its changes, behind those of rows that it commits, go on from
/// what is kept (`goes`), leave it whole (`whole`) and have spellings (`written`); its own are of no
/// row (`rowless`); its records have spellings (`told`); there are few of both (`few`). SYS is a user
/// then (`ends`), the last stamp is a moment (`moment`), and the next state is lawful (`lawful`).
/// What it leaves is the commit of its client, where it commits, and its own changes (`is_logged`);
/// that can be settled over what is kept (`settles`), and becomes of it (`leaves`). It does nothing,
/// and states the laws for its callers.
pub fn steps_hold()
    ensures goes { HoldsOfSteps (λ m stamp logged n. AllGoOn conditions false m.kept (all_changes logged)) }
    ensures whole { HoldsOfSteps (λ m stamp logged n. IsWhole (changed_all conditions.tree (all_changes logged) m.kept)) }
    ensures ends { HoldsOfSteps (λ m stamp logged n. EndsWell n.kept) }
    ensures written { HoldsOfSteps (λ m stamp logged n. AllByRecursion IsChangeSpellable (all_changes logged)) }
    ensures told { HoldsOfSteps (λ m stamp logged n. AllByRecursion trail_record.IsSpellable logged.records) }
    ensures rowless { HoldsOfSteps (λ m stamp logged n. AllByRecursion (λ change. ¬ IsOfRow change) logged.changes) }
    ensures few { HoldsOfSteps (λ m stamp logged n. (length (all_changes logged) < 2 ^ 32) × (length logged.records < 2 ^ 32)) }
    ensures moment { HoldsOfSteps (λ m stamp logged n. n.kept.last.0 ≤ LAST_MOMENT) }
    ensures lawful { HoldsOfSteps (λ m stamp logged n. IsLawfulState n) }
    ensures settles { HoldsOfSteps (λ m stamp logged n. HoldsOfKeepings m (λ contents. CanSettle contents logged.commits logged.changes logged.records n.kept.last)) }
    ensures is_logged { HoldsOfSteps (λ m stamp logged n. HoldsOfKeepings m (λ contents. IsLogged logged.commits contents logged.changes (all_changes logged))) }
    ensures leaves { HoldsOfSteps (λ m stamp logged n. n.kept ≡ after_parts conditions.tree n.kept.last logged.purge (all_changes logged) logged.records m.kept) }
{
    each_step_is_sound();
}

/// The same, as one fact of each step. It does nothing, and states the law for its callers.
pub(crate) fn each_step_is_sound()
    ensures { HoldsOfSteps IsSoundStep }
{
    rulings_go_on();
    rulings_can_be_written();
    rulings_change_rows();
    admissions_hold();
    records_can_be_written();
    results_stay_in_order();
    recorded_texts_fit();
    commits_can_settle();
    transactions_hold();
}
