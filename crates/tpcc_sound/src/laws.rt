// What holds of the requests. Each law is the contract of a function that does nothing: a caller has it after the call.
ghost use Rattle.std.specs.Prelude.{◌≡◌, ℕ, List};
ghost use Rattle.aria_base.specs.Orders.{Database};
ghost use Rattle.batch_core.specs.declared.answers.Answer.{Answer};
ghost use Rattle.range_rules.specs.declared.routines.NumberedWork.{NumberedWork};
ghost use Rattle.range_rules.specs.declared.routines.Work.{Work};
ghost use Rattle.tpcc_load.specs.declared.settings.Tpcc.{Tpcc};
ghost use Rattle.tpcc_routines.specs.Sound.{soundness, IsSound};
ghost use Rattle.tpcc_routines.specs.declared.findings.Soundness.TheVariants.{Sound};
ghost use Rattle.tpcc_sound.specs.Laws.{HeadIsSound, KeepsSound, StaysSound};

use range_suits::taken_behave;
use tpcc_routines::laws::more_suits;

/// New orders, payments, Order-Status, Delivery and Stock-Level leave sound rows where they are run on sound rows.
pub fn works_keep_sound()
    ensures { (q : ℕ) (work : Work) (db : Database) → KeepsSound q work db }
{}

/// No failure is found exactly where the rows are sound.
pub fn failures_are_all()
    ensures { (rows : Database) → (soundness rows ≡ Sound → IsSound rows) × (IsSound rows → soundness rows ≡ Sound) }
{}

/// Each database that `tpcc_load::head` gives for settings within their ranges has sound rows.
pub fn heads_are_sound()
    ensures { (settings : Tpcc) → HeadIsSound settings }
{}

/// A batch of the five requests leaves sound rows where it begins with sound rows.
pub fn batches_stay_sound()
    ensures { (start : Database) (list : List NumberedWork) (answer : Answer) (rows : Database) (carried : List NumberedWork)
        → StaysSound start list answer rows carried }
{
    taken_behave();
    more_suits();
}
