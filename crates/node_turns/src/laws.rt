// The laws of a node's turn, for all types of requests, ends, rows and keys. Each is the contract of a function that does nothing: a
// caller has the law after the call.
ghost use Rattle.std.specs.Prelude.{ℕ, List};
ghost use Rattle.std.specs.FinMap.{FinMap};
ghost use Rattle.std.specs.declared.cmp.Ordering.{Ordering};
ghost use Rattle.node_rules.specs.Messages.{Message};
ghost use Rattle.node_rules.specs.Nets.{Net, IsNet};
ghost use Rattle.node_rules.specs.Worlds.{World};
ghost use Rattle.node_turns.specs.Goings.{IsGoing, IsStarting};
ghost use Rattle.node_turns.specs.Laws.{IsGivenFirst, GoesOn, StartsWith, StartsOn};

/// A message that is new to its node: behind its news the node's turn leads to what the delivery makes.
pub fn gives<K, V, Q, A>()
    ensures { (R : K → K → Ordering) (net : Net R V Q A) → IsNet net → (start : FinMap R V) (w : World R V Q A) (m : Message K V) → IsGivenFirst net start w m }
{}

/// A node goes on from batch to batch, each with what is due at its beginning, to the end of its turn.
pub fn goes_on<K, V, Q, A>()
    ensures { (R : K → K → Ordering) (net : Net R V Q A) → IsNet net → (start : FinMap R V) (end w : World R V Q A) (n : ℕ) → IsGoing net start end w n
        → GoesOn net start end w n }
{}

/// Where a batch starts, no node had its turn.
pub fn starts_with<K, V, Q, A>()
    ensures { (R : K → K → Ordering) (net : Net R V Q A) → IsNet net → (start : FinMap R V) (w : World R V Q A) (new : List Q) → StartsWith net start w new }
{}

/// One node after the other has its turn, until all had.
pub fn starts_on<K, V, Q, A>()
    ensures { (R : K → K → Ordering) (net : Net R V Q A) → IsNet net → (start : FinMap R V) (end w : World R V Q A) (n old : ℕ)
        → IsStarting net start end w n old → StartsOn net start end w n old }
{}
