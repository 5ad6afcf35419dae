// The laws. Each is the contract of a function that only calls laws: a caller has it after the call.
ghost use Rattle.std.specs.Prelude.{ℕ, List};
ghost use Rattle.command_words.specs.declared.settings.Once.{Once};
ghost use Rattle.output_laws.specs.Outputs.{FailsCheck, PassesCheck};

use report_laws::{open_report, own_report, printed_lines};

/// Whatever the settings and the script, where `once` ends with status 0, what it printed passes `check`: behind
/// the script and the line `report` it is an input to which `check` prints that it holds, with status 0. A script
/// whose last line has no line feed gets one first, since the line `report` would stand behind it otherwise.
///
/// Two things are asked. That input has to stay within the bounds of one, in all its bytes and in each line: a
/// listing may have more, and `check` refuses what is past a bound. And where each answer has a listing, the last
/// line printed has to be one of a listing, `end state`, as `fails_check` says.
///
/// Settings that change, batches that were run before, catalogues in pieces, and batches that drain what waits are
/// all in it. That no printed line has a byte which would end it, or which `check` would leave out, is proved.
pub fn passes_check()
    ensures { (settings : Once) (text : List ℕ) → PassesCheck settings text }
{
    own_report();
    open_report();
    printed_lines();
}

/// Where each answer has a listing and the last line printed is none of a listing, what was printed does not pass:
/// a report ends with a listing. So it is where the last batch was run before and nothing was drained behind it,
/// and where nothing was printed.
pub fn fails_check()
    ensures { (settings : Once) (text : List ℕ) → FailsCheck settings text }
{
    own_report();
    open_report();
    printed_lines();
}
