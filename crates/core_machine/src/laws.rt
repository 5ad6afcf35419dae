// The laws of the machine, for all types of requests, ends, rows and keys, in an order that ties only
// equals. Each is the contract of a function that does nothing: a caller has the law after the call.
ghost use Rattle.std.specs.Prelude.{ℕ, List, Bool};
ghost use Rattle.std.specs.Cmp.{IsTotalOrder};
ghost use Rattle.std.specs.FinMap.{FinMap, IsAntisymmetric};
ghost use Rattle.std.specs.declared.cmp.Ordering.{Ordering};
ghost use Rattle.aria_base.specs.declared.marks.Mark.{Mark};
ghost use Rattle.batch_rules.specs.Trees.{Tree};
ghost use Rattle.batch_rules.specs.declared.verdicts.Rule.{Rule};
ghost use Rattle.dep_rules.specs.Sheets.{Sheet};
ghost use Rattle.core_machine.specs.declared.events.Event.{Event as E};
ghost use Rattle.core_machine.specs.Machines.{Commits, CanSettle};
ghost use Rattle.core_machine.specs.Marks.{MarksTell};

/// Every legal list of events that settles gives the verdicts and the database of the batch's commit phase, so that all give the
/// same.
pub fn core_law<K, V, Q, A>()
    ensures { (R : K → K → Ordering) → IsTotalOrder R → IsAntisymmetric R → (is_done : A → Bool) (tree : Q → Tree K V A) (rule : Rule) (start : FinMap R V) (list : List Q) (tag : ℕ) (first : Bool → K → ℕ) (es : List E) → Commits is_done tree rule start list tag first es }
{}

/// Every batch has a legal list of events that settles.
pub fn settles_law<K, V, Q, A>()
    ensures { (R : K → K → Ordering) (is_done : A → Bool) (tree : Q → Tree K V A) (rule : Rule) (start : FinMap R V) (list : List Q) → CanSettle is_done tree rule start list }
{}

/// Behind the marks, whatever their order was, the machine holds the reservation words of exactly the batch's marks, by the numbers of
/// its keys.
pub fn marks_law<K, V, Q, A>()
    ensures { (R : K → K → Ordering) → IsTotalOrder R → IsAntisymmetric R → (is_done : A → Bool) (tree : Q → Tree K V A) (rule : Rule) (start : FinMap R V) (list : List Q) (number : K → ℕ) (keys : List K) (sheet : Sheet) (old : List ℕ) (tag : ℕ) (marks : List Mark) (words : List ℕ) (es : List E) → MarksTell is_done tree rule start list number keys sheet old tag marks words es }
{}
