// What the arguments of a command line ask for.
ghost use Rattle.std.specs.Prelude.{◌≡◌, map, string_bytes, IfOk, IfSome};
ghost use Rattle.aria_top.specs.Tasks.{task_in, IsInRange};
ghost use Rattle.workloads.specs.Laws.{WordsAreWithin};

use aria_base::Memory;
use command_words::{Command, commands, read_settings};
use std::alloc::Global;
use workloads::words_are_within;

/// The command that the arguments are, where they are the line of one. Its settings are within their ranges.
pub fn read_task(alloc: Global, words: &[String]) -> Result<Option<Command>, Memory>
    ensures asked { IfOk result (λ found. found ≡ task_in (map string_bytes words.now)) }
    ensures range { IfOk result (λ found. IfSome found IsInRange) }
{
    words_are_within();
    read_settings(alloc, &commands(), words)
}
