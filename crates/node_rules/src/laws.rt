// The laws of nodes, for all types of requests, ends, rows and keys, in an order that ties only equal ones. Each is the contract of a
// function that does nothing: a caller has the law after the call.
ghost use Rattle.std.specs.Prelude.{◌≡◌, Contains, ℕ, ◌<◌, ◌+◌, ◌*◌, length, List, true, false};
ghost use Rattle.std.specs.FinMap.{FinMap};
ghost use Rattle.std.specs.declared.cmp.Ordering.{Ordering};
ghost use Rattle.batch_rules.specs.Trees.{trace_of};
ghost use Rattle.node_rules.specs.Messages.{Message};
ghost use Rattle.node_rules.specs.Nets.{Net, IsNet};
ghost use Rattle.node_rules.specs.Worlds.{World, NetEvent, at_first, is_current, is_in, step, steps};
ghost use Rattle.node_rules.specs.Truths.{Between, Course};
ghost use Rattle.node_rules.specs.Counts.{caused};
ghost use Rattle.node_rules.specs.Laws.{IsReached, PassMoves, IsBounded, IsBatch, IsDelivered, IsFirst, IsBegun, Completes};

/// Whatever starts, and whatever is delivered, lost, repeated or comes in whatever order: at each node there is what one database has
/// after the batches that the node completed, and each message that was ever sent says what that database says of its batch.
pub fn always<K, V, Q, A>()
    ensures { (R : K → K → Ordering) (net : Net R V Q A) → IsNet net → (start : FinMap R V) (es : List (NetEvent Q))
        → IsReached net start (steps net (at_first net start) es) }
{}

/// One event keeps that.
pub fn each_event<K, V, Q, A>()
    ensures { (R : K → K → Ordering) (net : Net R V Q A) → IsNet net → (start : FinMap R V) (w : World R V Q A) (e : NetEvent Q) → IsReached net start w
        → IsReached net start (step net w e) }
{}

/// Where all that was sent is delivered while a node is behind, a message is sent that was not sent before, or a node completes a
/// batch: there is less left to do.
pub fn pass_moves<K, V, Q, A>()
    ensures { (R : K → K → Ordering) (net : Net R V Q A) → IsNet net → (start : FinMap R V) (w : World R V Q A) → PassMoves net start w }
{}

/// No more messages are sent than the batches may cause.
pub fn is_bounded<K, V, Q, A>()
    ensures { (R : K → K → Ordering) (net : Net R V Q A) → IsNet net → (start : FinMap R V) (w : World R V Q A) → IsBounded net start w }
{}

/// A request causes two messages for each access, and three for each node.
pub fn few_messages<K, V, Q, A>()
    ensures { (R : K → K → Ordering) (net : Net R V Q A) (c : Course R V Q) (batch : ℕ) (e : ℕ × Q)
        → length (caused net c batch e) ≡ 2 * length (trace_of (net.tree e.1) c.rows) + 3 * net.nodes }
{}

/// A batch of nodes is the batch of one database, where the late fold would run only if more than all requests waited.
pub fn nodes_batch<K, V, Q, A>()
    ensures { (R : K → K → Ordering) (net : Net R V Q A) (percent : ℕ) → 100 < percent → (new : List Q) (b : Between R V Q) → IsBatch net percent new b }
{}

/// Code need look at nothing that was sent before: a message that is given for the first time has its node send its news, and each
/// other one changes nothing.
pub fn delivers<K, V, Q, A>()
    ensures { (R : K → K → Ordering) (net : Net R V Q A) → IsNet net → (start : FinMap R V) (w : World R V Q A) → IsReached net start w → (m : Message K V)
        → Contains w.sent m → IsDelivered net start w m }
{}

/// Where a message of its addressee's batch was not given before, nothing that it tells was told before, and it is of a request of the
/// list.
pub fn tells_first<K, V, Q, A>()
    ensures { (R : K → K → Ordering) (net : Net R V Q A) → IsNet net → (start : FinMap R V) (w : World R V Q A) → IsReached net start w → (m : Message K V)
        → Contains w.sent m → is_current net w m ≡ true → is_in net (w.node m.addressee).given m ≡ false → IsFirst net start w m }
{}

/// A batch that begins at a node has it send the first runs of its requests.
pub fn begins<K, V, Q, A>()
    ensures { (R : K → K → Ordering) (net : Net R V Q A) → IsNet net → (start : FinMap R V) (w : World R V Q A) (n : ℕ) → IsBegun net start w n }
{}

/// A node completes its batch in exactly the event that gives it the last fate.
pub fn completes<K, V, Q, A>()
    ensures { (R : K → K → Ordering) (net : Net R V Q A) (w : World R V Q A) (m : Message K V) → Completes net w m }
{}
