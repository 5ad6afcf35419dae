// The numbers that workloads are drawn from.
ghost use Rattle.std.specs.Prelude.{◌≡◌};
ghost use Rattle.aria_base.specs.Draws.{standing, next_word, past_word, TakesWord};

use rand_core::utils::NextWord;
use rand_pcg::Lcg64Xsh32;
use std::marker::Model;

/// An endless list of words and the place of the next one in it. A number and a stream choose the list,
/// which is that of the generator PCG32. A contract sees the generator as it stands before that word.
#[derive(Debug, Drop)]
pub struct Draws {
    generator: Lcg64Xsh32,
}

impl Model for Draws {
    ghost use Rattle.rand_pcg.specs.Lcg.{Lcg};

    ghost Value = { Lcg };

    ghost view = { λ a. a.generator };
}

impl Draws {
    /// The list of this number and this stream, at its first word.
    pub fn of(number: u32, stream: u64) -> Draws
        ensures { result ≡ standing number stream 0 }
    {
        Draws {
            generator: Lcg64Xsh32::new(u64::from(number), stream),
        }
    }

    /// The next word; the one behind it is then the next.
    pub fn word(&mut self) -> u32
        ensures word { result ≡ next_word self.old }
        ensures past { self.new ≡ past_word self.old }
        ensures placed { TakesWord self.old result self.new }
    {
        self.generator.next_word()
    }
}
