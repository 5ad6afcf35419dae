//! Works that suit a catalogue: which routines may run beside its procedures, and what holds of every run of them.
//!
//! A routine is code, and no check types it as it types a procedure. So whoever runs one promises that it suits the catalogue: its keys and
//! rows fit the tables, and each prefix that it scans has fewer parts than the keys of its table. Then its runs leave consistent rows as
//! the procedures' runs do. And a key that a run touched has all parts of its table's keys while a prefix has not, so that one is never
//! taken for the other.
//!
//! ```text
//!     Suits     routines that suit a schema, works that are taken, and runs whose keys and prefixes fit
//!     Laws      what is proved of the run of a work that is taken
//! ```
//!
//! The definitions stand in specs/. There is no code: the law is the contract of a function that does nothing, and a
//! caller has it after the call.
#![tactic(auto)]

ghost use Rattle.std.specs.Prelude.{ℕ, List, Bool};
ghost use Rattle.aria_base.specs.Orders.{Database};
ghost use Rattle.proc_lang.specs.Catalogs.{Plan};
ghost use Rattle.range_rules.specs.declared.routines.Action.{Action};
ghost use Rattle.range_rules.specs.declared.routines.NumberedWork.{NumberedWork};
ghost use Rattle.range_rules.specs.declared.routines.RoutineCall.{RoutineCall};
ghost use Rattle.range_rules.specs.declared.routines.Seen.{Seen};
ghost use Rattle.range_suits.specs.Laws.{Behaves};

use proc_sound::touches_few;

/// The run of a work that is taken, by the catalogue or by routines that suit it, touches keys and prefixes that fit the catalogue, and few
/// of them; and on consistent rows it leaves consistent ones.
pub fn taken_behave()
    ensures { (plan : Plan) (taken : RoutineCall → Bool) (act : ℕ → RoutineCall → List Seen → Action) (w : NumberedWork) (db : Database)
        → Behaves plan taken act w db }
{
    touches_few();
}
