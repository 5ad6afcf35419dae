// The laws. Each is the contract of a function that does nothing: a caller has it after the call.
ghost use Rattle.std.specs.Prelude.{ℕ, ◌+◌, ◌<◌, ◌^◌, length};
ghost use Rattle.aria_base.specs.Orders.{Database};
ghost use Rattle.batch_core.specs.Serial.{IsNumbered};
ghost use Rattle.batch_core.specs.Steps.{State, Handed};
ghost use Rattle.batch_rules.specs.declared.verdicts.Rule.{Rule};
ghost use Rattle.proc_lang.specs.Catalogs.{Plan};
ghost use Rattle.report_laws.specs.Laws.{AnswerStands, OpenReport, OwnReport, PrintedLines};

/// The answer of a batch, by whichever rule and with or without the late fold, stands where a report has it:
/// its order names requests of the list, these end one after the other as printed, all others wait, and what
/// the check goes on from is the state that the batch leaves.
pub fn answer_stands()
    ensures { (plan : Plan) (state : State) (handed : Handed) → IsNumbered state → state.requests + length handed.calls < 2 ^ 64 → AnswerStands plan state handed }
{}

/// What the batches of a script print, one after the other, then batches without new calls as long as something
/// waits, and the listings, holds as a report of the script: by whichever rules and with or without the late fold.
/// A listing follows each answer or everything. Where it follows each answer an answer has to be printed last,
/// since nothing follows all then, and a report has to end with a listing. Each batch that is to be run has room
/// for its requests beside those that wait, as the check asks it, and request numbers are of 64 bits.
pub fn own_report()
    ensures { (plan : Plan) (rule : Rule) (percent : ℕ) (rows : Database) → OwnReport plan rule percent rows }
{}

/// Where it follows each answer and no answer is printed last, the report does not hold: the script has no batch,
/// or its last one was run before and nothing drains what waits.
pub fn open_report()
    ensures { (plan : Plan) (rule : Rule) (percent : ℕ) (rows : Database) → OpenReport plan rule percent rows }
{}

/// The printed text of an answer, of a listing, of a batch that was run before and of a batch with its listing is
/// the lines that these laws speak of, each with a line feed behind it; and lines of printed bytes are again the
/// lines of the text that they make up.
pub fn printed_lines()
    ensures { PrintedLines }
{}
