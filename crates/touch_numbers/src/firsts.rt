// Numbers without gaps in the place of touches that stand for keys.
ghost use Rattle.std.specs.Prelude.{◌≡◌, ◌≤◌, ◌<◌, ◌+◌, length, All, IfOk, replicate};
ghost use Rattle.key_numbering.specs.declared.kept.TheConstants.{MOST_TOUCHED};
ghost use Rattle.touch_numbers.specs.Firsts.{free_in, NumbersOne, NumbersAll};

use aria_base::Memory;
use std::alloc::Global;

/// The numbers that were given so far, in order of first touch: at the place of each touch that stands for
/// a key the key's number, from 1, and 0 while it has none.
#[derive(Drop)]
pub(crate) struct Firsts {
    pub(crate) given: Vec<u32>,
    pub(crate) count: u32,
    ghost few: { length given.items ≤ MOST_TOUCHED },
    ghost free: { count + free_in given.items ≡ length given.items },
}

impl Firsts {
    /// No numbers, for so many touches. An error: there was no memory.
    pub(crate) fn none(alloc: Global, touches: usize) -> Result<Firsts, Memory>
        requires { touches ≤ MOST_TOUCHED }
        ensures given { IfOk result (λ firsts. firsts.given.items ≡ replicate touches 0) }
        ensures count { IfOk result (λ firsts. firsts.count ≡ 0) }
        ensures long { IfOk result (λ firsts. length firsts.given.items ≡ touches) }
    {
        let given = Vec::from_elem(alloc, 0_u32, touches)?;
        Ok(Firsts { given, count: 0 })
    }

    /// Puts the keys' numbers in the place of these touches, one after the other.
    pub(crate) fn number_all(&mut self, touches: &mut Vec<u32>)
        requires { All (λ n. n < length self.old.given.items) touches.old.items }
        ensures { NumbersAll self.old.given.items self.old.count self.new.given.items self.new.count touches.old.items touches.new.items }
    {
        for place in 0..touches.len() {
            let touch = touches[place];
            touches[place] = self.number_of(touch);
        }
    }

    /// The number of the key for which this touch stands: the next one if it has none.
    fn number_of(&mut self, touch: u32) -> u32
        requires { touch < length self.old.given.items }
        ensures long { length self.new.given.items ≡ length self.old.given.items }
        ensures number { NumbersOne self.old.given.items self.old.count self.new.given.items self.new.count touch result }
    {
        let number = self.given[touch as usize];
        if number != 0 {
            return number - 1;
        }
        let next = self.count;
        self.count = next + 1;
        self.given[touch as usize] = next + 1;
        next
    }
}
