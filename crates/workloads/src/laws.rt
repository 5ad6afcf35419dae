// What holds of the settings that arguments ask for. A caller gets the fact by the call, which does nothing.
ghost use Rattle.workloads.specs.Laws.{WordsAreWithin};

/// The settings of a line that asks for a workload are within their ranges.
pub fn words_are_within()
    ensures { WordsAreWithin }
{}
