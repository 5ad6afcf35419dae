// What a command does with each line of its input.
ghost use Rattle.std.specs.Prelude.{◌≤◌, ℕ, List, IfOk, IfErr};
ghost use Rattle.aria_base.specs.Faults.{Rose};
ghost use Rattle.script_course.specs.Courses.{Course};
ghost use Rattle.script_course.specs.Served.{Serves};
ghost use Rattle.script_course.specs.Causes.{IsCause};

use crate::stops::Stop;
use aria_base::Sink;
use std::alloc::Global;

/// A command that reads, with what it does with each line of its input.
pub trait Reads: Drop {
    /// What a line prints, and the state to go on from.
    ghost on_line: { Self → List ℕ → Course Self };

    /// What holds of the state between two lines.
    ghost held: { Self → Type 0 };

    /// Takes the next line, without its line feed, and prints what it asks for: all of it, or where it stops
    /// for another cause than a refusal a prefix of it. Only the sink is at fault, and only where its count
    /// of faults rose.
    fn line<K: Sink>(self, alloc: Global, line: &[u8], out: &mut K) -> Result<Self, Stop>
        requires { held self }
        ensures serves { Serves (on_line self line.now) (K.given out.old) (K.given out.new) result }
        ensures held { IfOk result held }
        ensures sink { K.faults out.old ≤ K.faults out.new }
        ensures cause { IfErr result (λ stop. IsCause stop (Rose (K.faults out.old) (K.faults out.new)) ⊥) };
}
