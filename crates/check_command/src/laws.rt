// What holds of every input. A caller has the law by the call, which does nothing.
ghost use Rattle.std.specs.Prelude.{ℕ, List};
ghost use Rattle.check_command.specs.Laws.{EachIsEnded};

use serial_check::crowded_is_run;

/// A batch that is found too large is one of those that are run, so that its refusal names the line that ends it.
pub fn crowded_is_ended()
    ensures { (text : List ℕ) → EachIsEnded text }
{
    crowded_is_run();
}
