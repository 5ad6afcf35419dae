// The law that what is fixed for nodes in code is what the definitions ask for.
ghost use Rattle.std.specs.Prelude.{ℕ, ◌<◌};
ghost use Rattle.batch_rules.specs.declared.verdicts.Rule.{Rule};
ghost use Rattle.proc_lang.specs.Catalogs.{Plan};
ghost use Rattle.node_rules.specs.Nets.{IsNet};
ghost use Rattle.node_batch.specs.Letters.{net_of};
ghost use Rattle.node_batch.specs.Sames.{same_message};

/// A catalogue, a rule and at least one node make a net: keys are in a total order that ties only equal ones, each key is at a node, and
/// equal messages are told from others.
pub fn is_net()
    ensures { (plan : Plan) (rule : Rule) (nodes : ℕ) → 0 < nodes → IsNet (net_of plan rule nodes same_message) }
{}
