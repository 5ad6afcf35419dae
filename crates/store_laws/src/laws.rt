// The laws. Each is the contract of a function that does nothing, or only calls a law: a caller has it after the call.
ghost use Rattle.store_laws.specs.Replies.{ReplayAnswers, ReplayPrintsRun, RunIsReplayed, RunWouldPrint, StopIsReplayed};
ghost use Rattle.store_laws.specs.OneRuns.{FilesAreOneRun, LeftRunsOn, RunIsRight, ScriptIsOneRun, StoppedRunsAreOneRun};

use resume_laws::every_stop_resumes;

/// Let `init` make a store of a head, and let `once` with the same rule and fallback read that head and a
/// script behind it to their end, as one text. Then `run` of the script over the new store comes to its end
/// as well. It ends in the state in which `once` ends, with the same rows, the same requests that wait and
/// the same counts, and where nothing is drained the store then holds these. It prints that it begins behind
/// batch 0, and then what `once` prints, byte by byte, so that each batch has the same answer.
///
/// The head's last line is complete, so that the script begins with a line of its own. The script has no
/// line of a head before its first call, end or settings: a row there is one row more for `once`, and out
/// of place for `run`. Listings are asked for alike, and what waits is drained in both or in neither. The
/// bounds on a text's bytes are those of `once`, for which head and script are one text. Workers, replicas
/// and checkpoints have no say.
pub fn script_is_one_run()
    ensures { ScriptIsOneRun }
{}

/// A script that `run` reads to its end over the new store is one that `once` reads to its end behind the head,
/// so that the laws here speak of it: where the head's last line is complete, its catalogue has a table or a
/// procedure, and head and script together have no more bytes than a text may have. Over a store without a
/// table and a procedure `run` takes a batch without calls, and `once` refuses it where the head has no line.
pub fn run_is_right()
    ensures { RunIsRight }
{}

/// So it is by the files. Whatever images of its disk a stop behind that `init` leaves, they read as the new
/// store and as nothing else, and `run` over them prints that.
pub fn files_are_one_run()
    ensures { FilesAreOneRun }
{}

/// Where the runs of the script are stopped anywhere and begun again, the last one to its end, that one ends
/// in the state in which `once` ends, and its store then holds it. It prints the answers of just the batches
/// that its store lacks, each as `once` prints it.
///
/// No batch is drained between the runs: a drained batch has a number that a script's own batch has in
/// another run.
pub fn stopped_runs_are_one_run()
    ensures { StoppedRunsAreOneRun }
{
    every_stop_resumes();
}

/// What a stop leaves is run on. Four files that reopen to a state, as a stop of `run` leaves them, are opened
/// by the next `run`, which prints what its script comes to over that state. So the states of the law above are
/// those of files, in whatever images.
pub fn left_runs_on()
    ensures { LeftRunsOn }
{}

/// What `replay` prints of a store whose batches all have room is the answer of each batch behind the
/// checkpoint, one after the other, and then the listing, where not each answer had one.
pub fn replay_answers()
    ensures { ReplayAnswers }
{}

/// Such an answer is, byte for byte, what `run` prints where that batch ends in its script, over the store as it
/// was before that batch. Settings that no batch followed have no say.
pub fn run_would_print()
    ensures { RunWouldPrint }
{}

/// What `run` printed is what `replay` prints. Behind any first turns of a run, all of them or fewer, the batches
/// behind the checkpoint that then stands have the answers that they had before the run, and those that these turns
/// printed, each under its number and byte for byte; drained batches too. So an answer that `replay` does not print
/// any more is of a batch that is in the checkpoint. The batch that is at work then has the answer of
/// [`run_would_print`] as soon as it is in the log.
pub fn run_is_replayed()
    ensures { RunIsReplayed }
{}

/// So it is by the files. Where a script was read to its end or to a refused line, `replay` prints of whatever a
/// stop then leaves just those answers, one after the other, and then the listing of what the run left.
pub fn replay_prints_run()
    ensures { ReplayPrintsRun }
{}

/// A run may be stopped at any moment, and every answer can still be had. Whatever of its store `run` says that a
/// stop leaves, once it was opened, `replay` prints of it the answers from before and those that the run had printed
/// to the end, as far as they are behind the checkpoint that stands; and where a batch is in the log that was not
/// answered, or not to the end, the answer that the run was about to print.
pub fn stop_is_replayed()
    ensures { StopIsReplayed }
{}
