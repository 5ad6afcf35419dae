// What holds of every script. A caller has a law by the call, which does nothing.
ghost use Rattle.std.specs.Prelude.{ℕ, List};
ghost use Rattle.command_words.specs.declared.settings.Once.{Once};
ghost use Rattle.run_commands.specs.Outs.{AreOne, IsAlike};
ghost use Rattle.run_commands.specs.Serial.{EachIsSerial, EachReplayIsSerial, EachRunIsSerial};

/// Each batch of a script is serialised by the order that its answer prints, whatever came before it.
pub fn each_is_serial()
    ensures { (settings : Once) (text : List ℕ) → EachIsSerial settings text }
{}

/// So is each batch of a script over a store, whatever the store had before.
pub fn each_run_is_serial()
    ensures { EachRunIsSerial }
{}

/// So is each batch of a store's log, which is answered again.
pub fn each_replay_is_serial()
    ensures { EachReplayIsSerial }
{}

/// Settings that differ in workers, replicas and batons alone tell the same and print the same.
pub fn one_output()
    ensures { (first second : Once) (text : List ℕ) → IsAlike first second → AreOne first second text }
{}
