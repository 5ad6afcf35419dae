// The laws of scans. Each is the contract of a function that does nothing: a caller has the law after the call.
ghost use Rattle.std.specs.Prelude.{◌<◌, ℕ, List, length};
ghost use Rattle.aria_base.specs.Orders.{Cells, Database};
ghost use Rattle.aria_base.specs.declared.calls.Request.{Request};
ghost use Rattle.aria_base.specs.declared.keys.Key.{Key};
ghost use Rattle.aria_base.specs.declared.schemas.Table.{Table};
ghost use Rattle.batch_core.specs.Serial.{RiseWithin};
ghost use Rattle.batch_rules.specs.declared.verdicts.Rule.{Rule};
ghost use Rattle.batch_rules.specs.Trees.{Tree};
ghost use Rattle.proc_lang.specs.declared.ends.End.{End};
ghost use Rattle.range_rules.specs.declared.routines.Action.{Action};
ghost use Rattle.range_rules.specs.declared.routines.NumberedWork.{NumberedWork};
ghost use Rattle.range_rules.specs.declared.routines.RoutineCall.{RoutineCall};
ghost use Rattle.range_rules.specs.declared.routines.Seen.{Seen};
ghost use Rattle.range_rules.specs.Laws.{IsSerialBatch, MakesProgress, StaysConsistent};

/// A batch of works whose numbers rise is serialised by its order: one after the other from the batch's start, the works that it names
/// end as their lines say, and leave the batch's rows; and all others are carried over.
pub fn serial_batch()
    ensures { (tree : Request → Tree Key Cells End) (act : ℕ → RoutineCall → List Seen → Action) (rule : Rule) (start : Database)
        (list : List NumberedWork) (number high : ℕ) → RiseWithin (λ w. w.q) 0 list high → IsSerialBatch tree act rule start list number }
{}

/// The first work of a list finishes; fewer are carried over than there were, and each of them stands at a smaller place of the next list.
pub fn progress()
    ensures { (tree : Request → Tree Key Cells End) (act : ℕ → RoutineCall → List Seen → Action) (rule : Rule) (start : Database)
        (list : List NumberedWork) (number : ℕ) → 0 < length list → MakesProgress tree act rule start list number }
{}

/// Where the run of each work of the list leaves consistent rows, on whatever consistent rows it is made, the batch does.
pub fn stays_consistent()
    ensures { (schema : List Table) (tree : Request → Tree Key Cells End) (act : ℕ → RoutineCall → List Seen → Action) (rule : Rule)
        (start : Database) (list : List NumberedWork) → StaysConsistent schema tree act rule start list }
{}
