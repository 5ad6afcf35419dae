// What may happen to nodes, and why it is refused.
ghost use Rattle.std.specs.Prelude.{◌≡◌};
ghost use Rattle.part_nodes.specs.declared.events.NodesRefused.TheVariants as refused;

use aria_base::{Call, Memory};
use thiserror::Error;

/// What may happen to nodes.
#[derive(Debug, Drop)]
pub enum NetEvent {
    /// A batch starts with these calls.
    Start(Vec<Call>),
    /// The message with this number, from 0 in the order of sending, is given to its node.
    Deliver(u64),
}

/// Why an event is refused. The nodes are gone then.
#[derive(Clone, Copy, Debug, PartialEq, Eq, Error)]
pub enum NodesRefused {
    #[error("no memory")]
    Memory,
    /// No message has that number: so many were sent.
    #[error("of {sent} messages none has that number")]
    NotSent { sent: u64 },
}

impl From<Memory> for NodesRefused {
    ghost from_gives = { λ _ e. e ≡ refused.Memory };

    fn from(_: Memory) -> NodesRefused {
        NodesRefused::Memory
    }
}
