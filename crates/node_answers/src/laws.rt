// The law that ties nodes to a run of batches.
ghost use Rattle.std.specs.Prelude.{◌≤◌, ℕ, List, length};
ghost use Rattle.aria_base.specs.Orders.{Database};
ghost use Rattle.aria_base.specs.declared.calls.Call.{Call};
ghost use Rattle.batch_rules.specs.declared.verdicts.Rule.{Rule};
ghost use Rattle.proc_lang.specs.Catalogs.{Plan};
ghost use Rattle.node_batch.specs.Letters.{Same};
ghost use Rattle.node_answers.specs.Runs.{IsRun};

/// What nodes have between two batches, and what becomes of a batch's requests, are the states and the answers of a run of batches whose
/// late fold never runs.
pub fn nodes_run()
    ensures { (plan : Plan) (rule : Rule) (nodes : ℕ) (same : Same) (start : Database) (batches : List (List Call)) (done : ℕ) → done ≤ length batches → IsRun plan rule nodes same start batches done }
{}
