// A body says one thing. The law is the contract of a function that does nothing: a caller has it after the
// call.
ghost use Rattle.std.specs.Prelude.{◌≡◌, ℕ, List};
ghost use Rattle.image_text.specs.Bodies.{Values, IsBody};

/// No two sets of values have one text: so what [`body_of`](crate::body_of) writes reads as what was written.
pub fn one_body()
    ensures { (bytes : List ℕ) (v w : Values) → IsBody bytes v → IsBody bytes w → v ≡ w }
{}
