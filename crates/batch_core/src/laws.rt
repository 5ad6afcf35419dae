// The laws of batches one after the other, whatever the requests do: `tree` may be any function. Each is the
// contract of a function that does nothing: a caller has the law after the call.
ghost use Rattle.std.specs.Prelude.{◌≡◌, ◌<◌, ◌≤◌, List, [], length};
ghost use Rattle.std.specs.List.{All};
ghost use Rattle.aria_base.specs.Orders.{Cells, Database};
ghost use Rattle.aria_base.specs.declared.calls.Request.{Request};
ghost use Rattle.aria_base.specs.declared.keys.Key.{Key};
ghost use Rattle.aria_base.specs.declared.schemas.Table.{Table};
ghost use Rattle.batch_rules.specs.Batches.{Carrier};
ghost use Rattle.batch_rules.specs.Trees.{Tree};
ghost use Rattle.batch_rules.specs.Laws.{Agreement};
ghost use Rattle.batch_core.specs.Carriers.{StepsBy};
ghost use Rattle.batch_core.specs.Consistency.{StaysConsistent};
ghost use Rattle.batch_core.specs.Progress.{MakesProgress, FinishesWithin};
ghost use Rattle.batch_core.specs.Serial.{IsNumbered, IsSerial, AllSerial};
ghost use Rattle.batch_core.specs.Steps.{State, Handed, list_of, step, run};
ghost use Rattle.proc_lang.specs.declared.ends.End.{End};
ghost use Rattle.proc_lang.specs.Meaning.{is_done};

/// Where two databases agree on the read set of a request's run on the first, its run on the second makes the same accesses, comes to
/// the same end and has the same writes.
pub fn agreement()
    ensures { (tree : Request → Tree Key Cells End) (request : Request) (first second : Database) → Agreement is_done (tree request) first second }
{}

/// A batch by whatever carries its requests with what their runs on the start came to leaves the state after the batch, and has its
/// answer: the one definition of what is installed, settled, ordered and carried serves requests and outcomes alike.
pub fn steps_by<O>()
    ensures { (tree : Request → Tree Key Cells End) (request_of : O → Request) (by : Carrier Key Cells End O) (of : Request → O) (state : State) (handed : Handed) → StepsBy tree request_of by of state handed }
{}

/// Where each run leaves consistent rows, on whatever consistent rows it is made, a batch does.
pub fn stays_consistent()
    ensures { (schema : List Table) (tree : Request → Tree Key Cells End) (state : State) (handed : Handed) → StaysConsistent schema tree state handed }
{}

/// Where nothing waits, the numbers are in order.
pub fn nothing_waits()
    ensures { (state : State) → state.waiting ≡ [] → IsNumbered state }
{}

/// They stay in order, whatever calls a batch is handed.
pub fn keeps_numbers()
    ensures { (tree : Request → Tree Key Cells End) (state : State) (handed : Handed) → IsNumbered state → IsNumbered (step tree state handed) }
{}

/// Every answer is serialised by the order that it prints, by either rule and with or without the late fold: one after the other from
/// the batch's start, the requests that it names end as printed and leave the next state's rows; and all other requests wait.
pub fn serial_answer()
    ensures { (tree : Request → Tree Key Cells End) (state : State) (handed : Handed) → IsNumbered state → IsSerial tree state handed }
{}

/// So is every answer of a run of batches.
pub fn serial_run()
    ensures { (tree : Request → Tree Key Cells End) (state : State) (batches : List Handed) → IsNumbered state → AllSerial tree state batches }
{}

/// The first request of a list finishes; fewer wait than there were, and each of them stands at a smaller place of the next list.
pub fn progress()
    ensures { (tree : Request → Tree Key Cells End) (state : State) (handed : Handed) → 0 < length (list_of state handed) → MakesProgress tree state handed }
{}

/// No request waits longer than its place: the first of a batch's list ends in that batch, the second in the next one at the latest,
/// and so on.
pub fn finishes_within()
    ensures { (tree : Request → Tree Key Cells End) (state : State) (handed : Handed) (rest : List Handed) → IsNumbered state → FinishesWithin tree state handed rest }
{}

/// Without new calls nothing waits after as many batches as requests waited.
pub fn drains()
    ensures { (tree : Request → Tree Key Cells End) (state : State) (batches : List Handed) → All (λ handed. handed.calls ≡ []) batches → length state.waiting ≤ length batches → (run tree state batches).waiting ≡ [] }
{}
