// What the verdicts over numbered lists and their words have to do with those over keys. Each law is the
// contract of a function that does nothing: a caller has the law after the call.
ghost use Rattle.std.specs.Prelude.{ℕ, List};
ghost use Rattle.std.specs.declared.cmp.Ordering.{Ordering};
ghost use Rattle.aria_base.specs.Reserved.{StandFor};
ghost use Rattle.aria_base.specs.declared.marks.Mark.{Mark};
ghost use Rattle.batch_rules.specs.declared.verdicts.Rule.{Rule};
ghost use Rattle.dep_rules.specs.Numberings.{SheetDecides};
ghost use Rattle.dep_rules.specs.Sheets.{Sheet, IsSheet, AreMarksOf};
ghost use Rattle.dep_rules.specs.Words.{Tell};

/// Numbers that are equal exactly where touched keys are give the verdict over the keys: so [`decide`](crate::decide) answers what
/// [`decide_listed`](crate::decide_listed) answers.
pub fn sheet_decides<K, S>()
    ensures { (R : K → K → Ordering) (reads writes : S → List K) (keys : List K) (number : K → ℕ) (sets : List S) (sheet : Sheet) (rule : Rule) (tid : ℕ) (me : S) → SheetDecides R reads writes keys number sets sheet rule tid me }
{}

/// Words that stand for the least TIDs of exactly the batch's marks tell what [`decide`](crate::decide) asks for.
pub fn marks_tell()
    ensures { (sheet : Sheet) (tag : ℕ) (words : List ℕ) (marks : List Mark) → IsSheet sheet → AreMarksOf sheet marks → StandFor tag sheet.keys marks words → Tell sheet tag words }
{}
