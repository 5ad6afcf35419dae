// What is counted of answers.
ghost use Rattle.std.specs.Prelude.{◌≡◌, length};
ghost use Rattle.bench_command.specs.Tallies.{HasRoom, noted, with_lines};

use batch_core::{Line, Reply};
use proc_lang::End;

/// How many reply lines there are of each kind.
#[derive(Clone, Copy, Debug, PartialEq, Eq)]
pub struct Tally {
    /// Requests that ended well.
    pub ok: u64,
    /// Requests that ended by their own failure.
    pub back: u64,
    /// Requests that ended by a trap.
    pub trap: u64,
    /// Lines of requests that wait.
    pub waits: u64,
}

/// Before the first line.
pub const BLANK: Tally = Tally {
    ok: 0,
    back: 0,
    trap: 0,
    waits: 0,
};

impl Tally {
    /// With these lines. No memory.
    pub fn with(self, lines: &[Line]) -> Tally
        requires { HasRoom self (length lines.now) }
        ensures { result ≡ with_lines self lines.now }
    {
        let mut tally = self;
        for line in lines {
            tally = tally.noted(&line.reply);
        }
        tally
    }

    /// With one reply more.
    fn noted(self, reply: &Reply) -> Tally
        requires { HasRoom self 1 }
        ensures { result ≡ noted self reply.now }
    {
        match reply {
            Reply::Ended(End::Done(_)) => Tally {
                ok: self.ok + 1,
                ..self
            },
            Reply::Ended(End::Back(_)) => Tally {
                back: self.back + 1,
                ..self
            },
            Reply::Ended(End::Trap(_)) => Tally {
                trap: self.trap + 1,
                ..self
            },
            Reply::Waits(_) => Tally {
                waits: self.waits + 1,
                ..self
            },
        }
    }
}
