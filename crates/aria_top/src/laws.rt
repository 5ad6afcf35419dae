// What holds of all command lines. A caller has the law by the call, which does nothing.
ghost use Rattle.aria_top.specs.Out.{LinesAreOne};

/// Command lines that ask for the same but for workers, replicas, nodes and batons print the same.
pub(crate) fn lines_are_one()
    ensures { LinesAreOne }
{}
