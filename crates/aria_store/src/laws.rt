// The laws of what a store's files read as. Each is the contract of a function that does nothing: a caller has it after the call.
ghost use Rattle.aria_store.specs.Laws.{ReopensOnce, ReopensSome, StandingIsFound, FoundAgain, NeverDamaged};

/// Four files read as one thing alone.
pub fn reopens_once()
    ensures { ReopensOnce }
{}

/// And as something: that there is nothing which they read as cannot be.
pub fn reopens_some()
    ensures { ReopensSome }
{}

/// What an open store's disk holds is what every image of its files reads as.
pub fn standing_is_found()
    ensures { StandingIsFound }
{}

/// What a disk holds is what is found when it is attached.
pub fn found_again()
    ensures { FoundAgain }
{}

/// After a creation that answered Ok and any list of calls, each stopped anywhere, no image is damaged
/// or without a store.
pub fn never_damaged()
    ensures { NeverDamaged }
{}
