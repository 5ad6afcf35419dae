// What a report that holds tells. The law is the contract of a function that does nothing: a caller has it
// after the call.
ghost use Rattle.std.specs.Prelude.{◌≡◌, ℕ, List, false};
ghost use Rattle.aria_base.specs.Orders.{Database};
ghost use Rattle.aria_base.specs.declared.calls.Call.{Call};
ghost use Rattle.proc_lang.specs.Catalogs.{Plan};
ghost use Rattle.serial_check.specs.Crowds.{IsOneOf, run_behind};
ghost use Rattle.serial_check.specs.Reports.{begun, finding};
ghost use Rattle.serial_check.specs.Serial.{IsReport};
ghost use Rattle.serial_check.specs.declared.findings.Finding.TheVariants.{Holds};

/// Where a report holds, its lines are those of the script's batches one after the other, each an answer or that it was run before,
/// then answers to what is carried, and a listing behind all or behind any answer. Each answer is a serial run of its order from the
/// batch's start, with the printed replies, and a listing is the rows that it leaves.
pub fn held()
    ensures { (plan : Plan) (report : List (List ℕ)) (rows : Database) (script : List (ℕ × List Call)) → finding plan report rows script ≡ Holds → IsReport plan false (begun rows).standing script report }
{}

/// A batch that is found too large is one of those that are run, by the rule that one was run before where its number is none above
/// theirs.
pub fn crowded_is_run()
    ensures { (plan : Plan) (report : List (List ℕ)) (rows : Database) (script : List (ℕ × List Call)) → IsOneOf (run_behind 0 script) (finding plan report rows script) }
{}
