// The laws of a batch, for all types of requests, ends, rows and keys, in an order that ties only equal
// ones. Each is the contract of a function that does nothing: a caller has the law after the call.
ghost use Rattle.std.specs.Prelude.{ℕ, List, [], ◌∷◌, Bool};
ghost use Rattle.std.specs.Cmp.{IsTotalOrder};
ghost use Rattle.std.specs.FinMap.{FinMap, IsAntisymmetric};
ghost use Rattle.std.specs.declared.cmp.Ordering.{Ordering};
ghost use Rattle.batch_rules.specs.Trees.{Tree};
ghost use Rattle.batch_rules.specs.Touches.{Declared};
ghost use Rattle.batch_rules.specs.Verdicts.{Dependencies, least};
ghost use Rattle.batch_rules.specs.Batches.{Carrier, Fate, judged, touching, settled, batch};
ghost use Rattle.batch_rules.specs.Laws.{Agreement, Frame, Outside, SameStray, Confined, OneWriter, AfterCommit, SerialLaw, EachOnce, Progress, Meeting, IsLeast, VerdictLaw, SameVerdict, WaitsForEarlier, SameBatch, DecidedEach};
ghost use Rattle.batch_rules.specs.Runs.{Runs, RunsInTurn};
ghost use Rattle.batch_rules.specs.Numberings.{IsOneToOneOn, place_in, NumbersDecide};
ghost use Rattle.batch_rules.specs.Waves.{ConflictsBothWays, IsInWaves};
ghost use Rattle.batch_rules.specs.declared.verdicts.Rule.{Rule};

/// Where two databases agree on the read set of a run on the first, the run on the second has the same accesses, the same end and
/// the same write set.
pub fn agreement<K, V, A>()
    ensures { (R : K → K → Ordering) → IsTotalOrder R → IsAntisymmetric R → (is_done : A → Bool) (t : Tree K V A) (m n : FinMap R V) → Agreement is_done t m n }
{}

/// The database after a run is the one before it with the run's write set over it.
pub fn frame<K, V, A>()
    ensures { (R : K → K → Ordering) → IsTotalOrder R → IsAntisymmetric R → (is_done : A → Bool) (t : Tree K V A) (db : FinMap R V) → Frame is_done t db }
{}

/// Where no access of a run lies outside declared keys, what stands at all other keys cannot matter to it.
pub fn outside<K, V, A>()
    ensures { (R : K → K → Ordering) → IsTotalOrder R → IsAntisymmetric R → (is_done : A → Bool) (t : Tree K V A) (declared : Declared K) (m n : FinMap R V) → Outside is_done t declared m n }
{}

/// Where two databases agree within declared keys, a run's first access outside them is the same on both.
pub fn same_stray<K, V, A>()
    ensures { (R : K → K → Ordering) → IsTotalOrder R → (t : Tree K V A) (declared : Declared K) (m n : FinMap R V) → SameStray t declared m n }
{}

/// A run with no access outside declared keys changes declared writes alone.
pub fn confined<K, V, A>()
    ensures { (R : K → K → Ordering) → IsTotalOrder R → IsAntisymmetric R → (is_done : A → Bool) (t : Tree K V A) (declared : Declared K) (db : FinMap R V) → Confined is_done t declared db }
{}

/// No two requests that finish in the commit phase write a common key.
pub fn one_writer<K, V, A, O>()
    ensures { (R : K → K → Ordering) → IsTotalOrder R → IsAntisymmetric R → (by : Carrier K V A O) (rule : Rule) (list : List O) → OneWriter R by (judged (touching by R) rule [] list) }
{}

/// After the commit phase each key has what the one request that finishes there and writes it writes, and otherwise what it had.
pub fn after_commit<K, V, A, O>()
    ensures { (R : K → K → Ordering) → IsTotalOrder R → IsAntisymmetric R → (by : Carrier K V A O) (rule : Rule) (start : FinMap R V) (list : List O) (k : K) → AfterCommit by start (judged (touching by R) rule [] list) k }
{}

/// Every batch, by either rule and with or without the late fold, is serialised by its printed order: run one after the other from
/// the batch's start, the requests of the order end as printed and leave the batch's database.
pub fn serial_law<K, V, Q, A>()
    ensures { (R : K → K → Ordering) → IsTotalOrder R → IsAntisymmetric R → (is_done : A → Bool) (tree : Q → Tree K V A) (rule : Rule) (percent : ℕ) (start : FinMap R V) (list : List Q) → SerialLaw is_done tree start (batch is_done tree rule percent start list) }
{}

/// So is the commit phase of requests of any kind, by any dependencies that tell what each looked at and writes: `serial_law` is this
/// law for trees and common keys, with the late fold behind it.
pub fn runs_in_turn<K, V, Q, A>()
    ensures { (R : K → K → Ordering) → IsTotalOrder R → IsAntisymmetric R → (runs : Runs R V A Q) (on : Dependencies Q) (rule : Rule) (start : FinMap R V) (list : List Q) → RunsInTurn runs on rule start list }
{}

/// The printed order and the requests that wait are together the batch's list, each once, whatever the late fold gave.
pub fn each_once<K, V, A, O>()
    ensures { (by : Carrier K V A O) (on : Dependencies O) (rule : Rule) (list : List O) (lates : List (Fate K A)) → EachOnce list (settled by (judged on rule [] list) lates) }
{}

/// The first request of a list finishes; fewer requests are carried than there were, and each stands at a smaller place than before.
pub fn progress<K, V, A, O>()
    ensures { (by : Carrier K V A O) (on : Dependencies O) (rule : Rule) (first : O) (rest : List O) (lates : List (Fate K A)) → Progress (first ∷ rest) (by.end first) (settled by (judged on rule [] (first ∷ rest)) lates) }
{}

/// A batch of requests is the batch of whatever carries them with what their runs on the start came to.
pub fn same_batch<K, V, A, O, P>()
    ensures { (R : K → K → Ordering) (of : O → P) (by : Carrier K V A P) (is_done : A → Bool) (tree : P → Tree K V A) (rule : Rule) (percent : ℕ) (start : FinMap R V) (list : List O) → SameBatch of by is_done tree rule percent start list }
{}

/// A list with the verdicts that were decided of it one by one is the judged list.
pub fn decided_each<O>()
    ensures { (on : Dependencies O) (rule : Rule) (list : List O) → DecidedEach on rule list }
{}

/// Two lists of keys meet exactly where some key is among both.
pub fn meeting<K>()
    ensures { (R : K → K → Ordering) → IsTotalOrder R → IsAntisymmetric R → (xs ys : List K) → Meeting R xs ys }
{}

/// The least holder is the first request of which the dependency holds.
pub fn least_holder<S>()
    ensures { (holds : S → Bool) (requests : List S) → IsLeast holds requests (least holds requests) }
{}

/// The verdict says of the earlier requests what each rule is made of.
pub fn verdict_law<S>()
    ensures { (on : Dependencies S) (earlier : List S) (me : S) (rule : Rule) → VerdictLaw on earlier me rule }
{}

/// Requests with equal dependencies have equal verdicts, whatever the dependencies are told by.
pub fn same_verdict<S, Z>()
    ensures { (on : Dependencies S) (earlier : List S) (me : S) (also : Dependencies Z) (others : List Z) (you : Z) (rule : Rule) → SameVerdict on earlier me also others you rule }
{}

/// Numbers that are equal exactly where the touched keys are give the verdict by the keys.
pub fn numbers_decide<K, S>()
    ensures { (R : K → K → Ordering) (keys : List K) (number : K → ℕ) (reads writes : S → List K) (earlier : List S) (me : S) (rule : Rule) → NumbersDecide R keys number reads writes earlier me rule }
{}

/// Places in a list of keys are such numbers, also where a key stands there twice.
pub fn places_one_to_one<K>()
    ensures { (R : K → K → Ordering) → IsTotalOrder R → (keys : List K) → IsOneToOneOn R keys (place_in R keys) }
{}

/// A request waits for earlier ones alone.
pub fn waits_for_earlier<O>()
    ensures { (on : Dependencies O) (rule : Rule) (list : List O) → WaitsForEarlier (judged on rule [] list) }
{}

/// A request conflicts with those that conflict with it.
pub fn conflicts_both_ways<K>()
    ensures { (R : K → K → Ordering) → IsTotalOrder R → IsAntisymmetric R → (a b : Declared K) → ConflictsBothWays R a b }
{}

/// The late fold may run in waves: requests that do not conflict all run on one database, and then their rows are installed.
pub fn late_waves<K, V, W, A>()
    ensures { (R : K → K → Ordering) → IsTotalOrder R → IsAntisymmetric R → (is_done : A → Bool) (declared_of : W → Declared K) (tree : W → Tree K V A) (db : FinMap R V) (list : List W) → IsInWaves is_done declared_of tree db list }
{}
