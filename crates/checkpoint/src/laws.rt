// The laws of slots.
ghost use Rattle.checkpoint.specs.Laws.{ShowsWhatIsLaid};

/// What is laid behind a gate is what the opened slot shows.
pub fn shows_what_is_laid()
    ensures { ShowsWhatIsLaid }
{}
