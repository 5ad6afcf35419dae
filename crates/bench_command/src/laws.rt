// What holds of every workload that is run. A caller has a law by the call, which does nothing.
ghost use Rattle.command_words.specs.declared.settings.Bench.{Bench};
ghost use Rattle.bench_command.specs.Laws.{EachOnce};

/// Each numbered request has ended in one of three ways, and was counted there once, or it is left in the
/// end; however often it was carried.
pub fn each_request_once()
    ensures { (settings : Bench) → EachOnce settings }
{}
