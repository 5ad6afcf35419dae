// The law. It is the contract of a function that does nothing: a caller has it after the call.
ghost use Rattle.resume_laws.specs.Resumptions.{EveryStopResumes};

/// A script that is right to its end is run over a store any number of times, each run over what the one
/// before left, and each but the last one stopped at any moment, in any image of its disk. Then the last
/// run ends in the state in which one whole run over the first store ends. It prints the answers of just
/// the batches that its store lacks, each as the whole run prints it, so that no two runs print different
/// answers for one batch. What the store has already is answered as kept.
///
/// No batch is drained between: a drained batch has a number that a script's own batch has in another run.
pub fn every_stop_resumes()
    ensures { EveryStopResumes }
{}
