// What the TIDs of an order name. Each law is the contract of a function that does nothing: a caller has the
// law after the call.
ghost use Rattle.std.specs.Prelude.{List};
ghost use Rattle.batch_rules.specs.declared.verdicts.Verdict.{Verdict};
ghost use Rattle.batch_rules.specs.Batches.{Entry};
ghost use Rattle.reorder.specs.Laws.{PlacedNames, OrderedNames};

/// Of any list whose items tell a verdict, [`place`](crate::place) names the items that finish in the commit phase, as they are placed.
pub fn placed_names<X>()
    ensures { (verdict_of : X → Verdict) (list : List X) → PlacedNames verdict_of list }
{}

/// Of the entries of a batch, [`order`](crate::order) names the printed order: the one that is serial.
pub fn ordered_names<K, Q, A>()
    ensures { (entries : List (Entry K Q A)) → OrderedNames entries }
{}
