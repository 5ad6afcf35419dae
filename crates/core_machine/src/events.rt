// What may come to the machine.
ghost use Rattle.std.specs.Prelude.{◌≡◌};
ghost use Rattle.core_machine.specs.Events.{phase_of};

/// One atomic step of a commit phase. The first number is a request's TID, its place in the batch's
/// list from 1; the second is a place in what that request reads or writes, from 0.
#[derive(Clone, Copy, Debug, PartialEq, Eq, PartialOrd, Ord)]
pub enum Event {
    /// The request runs on the rows that the batch begins with.
    Execute(u32),
    /// The request is marked in the word of those that read this key of its read set.
    MarkRead(u32, u32),
    /// The request is marked in the word of those that write this key of its write set.
    MarkWrite(u32, u32),
    /// It is decided whether the request finishes.
    Decide(u32),
    /// One row of a request that finishes is put or deleted.
    Install(u32, u32),
    /// A phase ends, and the next one begins.
    Turn,
}

impl Event {
    /// The phase that it belongs to, by how many end before it. A turn belongs to none.
    pub(crate) fn phase(self) -> u8
        ensures { result ≡ phase_of self }
    {
        match self {
            Event::Execute(_) => 0,
            Event::MarkRead(_, _) | Event::MarkWrite(_, _) => 1,
            Event::Decide(_) => 2,
            Event::Install(_, _) => 3,
            Event::Turn => 4,
        }
    }
}
