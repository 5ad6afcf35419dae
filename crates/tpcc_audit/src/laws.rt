// What holds of every head.
ghost use Rattle.tpcc_audit.specs.Laws.{HeadsHold};

/// Of each database that `tpcc_load::head` gives for settings within their ranges the audit holds.
pub fn heads_hold()
    ensures { HeadsHold }
{}
