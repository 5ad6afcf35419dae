// What holds of every script. A caller has a law by the call, which does nothing.
ghost use Rattle.std.specs.Prelude.{ℕ, List};
ghost use Rattle.command_words.specs.declared.settings.Nodes.{Nodes};
ghost use Rattle.nodes_command.specs.Laws.{AreOne, IsAlike, PrintsAsOne};

/// Settings that differ in the number of nodes alone tell the same and print the same.
pub fn any_number()
    ensures { (first second : Nodes) (text : List ℕ) → IsAlike first second → AreOne first second text }
{}

/// Where each line of a text is asked as one database is asked, nodes print what one database prints, whose late fold never runs.
pub fn prints_as_one()
    ensures { (settings : Nodes) (text : List ℕ) → PrintsAsOne settings text }
{}
