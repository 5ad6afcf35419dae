// What holds where nothing is refused. A caller has a law by the call, which does nothing.
ghost use Rattle.std.specs.Prelude.{◌≡◌, ℕ, List, Ok};
ghost use Rattle.script_places.specs.Follows.{Follows, HeadStays};
ghost use Rattle.script_places.specs.Places.{asked, closing};
ghost use Rattle.script_places.specs.declared.deeds.Deed.{Deed};
ghost use Rattle.script_places.specs.declared.places.Counts.{Counts};
ghost use Rattle.script_places.specs.declared.places.ScriptPlace.{ScriptPlace};

/// What a line asks for at a place is allowed there: a row and a call are of the catalogue, which is there
/// and stays; a batch that is run has room, and so have its numbers.
pub fn follows()
    ensures { (p : ScriptPlace) (counts : Counts) (line : List ℕ) (after : ScriptPlace) (asks : Deed) → asked p counts line ≡ Ok (after, asks) → Follows p counts after asks }
{}

/// A catalogue that is there at the end of the input stays.
pub fn closes()
    ensures { (before after : ScriptPlace) → closing before ≡ Ok after → HeadStays before.head after.head }
{}
