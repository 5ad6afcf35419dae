// What holds of a command that reads and then ends. A caller gets these facts by the call, which does
// nothing.
ghost use Rattle.script_course.specs.Laws.{EndsOf};

/// What a command with these states comes to, by what its reading came to and what its end prints.
pub fn ends_of<C>()
    ensures { EndsOf C }
{}
