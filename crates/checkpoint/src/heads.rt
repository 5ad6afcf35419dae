// The head of a slot: its fields as bytes, and what may be wrong with them.
ghost use Rattle.std.specs.Prelude.{◌≡◌, ◌≤◌};
ghost use Rattle.aria_base.specs.declared.limits.TheConstants.{MOST_PERCENT};
ghost use Rattle.checkpoint.specs.Heads.{fields_of, head_in, head_bytes};
ghost use Rattle.checkpoint.specs.Damage.{faults, first_fault, wrong_generation};

use aria_base::{GREATEST_NUMBER, MOST_PERCENT};
use batch_rules::verdicts::Rule;
use byteorder::{ByteOrder, LittleEndian};

/// How many bytes stand before the body, the gate among them.
pub const FRONT: usize = 40;

/// The first format. A log's payload is the lines of its calls alone, and no batch is added to it.
pub const FIRST_FORMAT: u8 = 1;

/// 'ARIA' as a number, the first byte the lowest.
const MAGIC: u32 = 0x4149_5241;

/// What stands at the beginning of a checkpoint.
#[derive(Clone, Copy, Debug, PartialEq, Eq)]
pub struct Head {
    /// The format of the store: 1 or 2.
    pub format: u8,
    /// By which rule the last batch before it was run; where none was, the rule that the store was made with.
    pub rule: Rule,
    /// The fallback that goes with the rule, in percent, from 0 to 101.
    pub fallback: u32,
    /// The checkpoint's number, from 1. Its parity is that of the slot.
    pub generation: u64,
    /// How many batches were run before it, at most 2^62.
    pub batches: u64,
    /// How many requests were numbered before it, at most 2^62.
    pub requests: u64,
}

/// What the bytes at the beginning say, whether it can be or not. The ranges are those of what can be.
#[derive(Clone, Copy)]
pub struct Fields {
    /// 'ARIA' as a number, the first byte the lowest, where a checkpoint stands there.
    pub magic: u32,
    /// The format of the store: 1 or 2.
    pub format: u8,
    /// The rule: 0 is `plain`, 1 is `reorder`.
    pub rule: u8,
    /// The fallback in percent, from 0 to 101.
    pub fallback: u8,
    /// The checkpoint's number, from 1. Its parity is that of the slot.
    pub generation: u64,
    /// How many batches were run before it, at most 2^62.
    pub batches: u64,
    /// How many requests were numbered before it, at most 2^62.
    pub requests: u64,
    /// How many bytes the body has.
    pub body: u64,
}

impl Head {
    /// The bytes between the gate and a body of so many bytes.
    pub fn bytes(&self, body: u64) -> [u8; 39]
        requires { self.now.fallback ≤ MOST_PERCENT }
        ensures { result ≡ head_bytes self.now body }
    {
        let mut front = [0; FRONT - 1];
        front[..4].copy_from_slice(b"ARIA");
        front[4] = self.format;
        front[5] = match self.rule {
            Rule::Plain => 0,
            Rule::Reorder => 1,
        };
        front[6] = self.fallback as u8;
        LittleEndian::write_u64(&mut front[7..], self.generation);
        LittleEndian::write_u64(&mut front[15..], self.batches);
        LittleEndian::write_u64(&mut front[23..], self.requests);
        LittleEndian::write_u64(&mut front[31..], body);
        front
    }
}

impl Fields {
    /// What the first 40 bytes of a slot say. The first of them, the gate, is not looked at.
    pub fn of(front: &[u8; 40]) -> Fields
        ensures { result ≡ fields_of front.now }
    {
        Fields {
            magic: LittleEndian::read_u32(&front[1..]),
            format: front[5],
            rule: front[6],
            fallback: front[7],
            generation: LittleEndian::read_u64(&front[8..]),
            batches: LittleEndian::read_u64(&front[16..]),
            requests: LittleEndian::read_u64(&front[24..]),
            body: LittleEndian::read_u64(&front[32..]),
        }
    }

    /// The offset of the first thing that is wrong with them in this slot.
    pub fn first_fault(&self, slot: u8) -> Option<u64>
        ensures { result ≡ first_fault (faults slot self.now) }
    {
        if self.magic != MAGIC {
            return Some(1);
        }
        if self.format != FIRST_FORMAT && self.format != 2 {
            return Some(5);
        }
        if self.rule > 1 {
            return Some(6);
        }
        if u32::from(self.fallback) > MOST_PERCENT {
            return Some(7);
        }
        if self.wrong_generation(slot) {
            return Some(8);
        }
        if self.batches > GREATEST_NUMBER {
            return Some(16);
        }
        if self.requests > GREATEST_NUMBER {
            return Some(24);
        }
        None
    }

    fn wrong_generation(&self, slot: u8) -> bool
        ensures { result ≡ wrong_generation slot self.now }
    {
        if self.generation == 0 || self.generation % 2 != u64::from(slot) {
            return true;
        }
        self.generation.saturating_sub(self.batches) > u64::from(self.format)
    }

    /// The head that the fields stand for, where nothing is wrong with them.
    pub fn head(&self) -> Head
        ensures { result ≡ head_in self.now }
    {
        Head {
            format: self.format,
            rule: if self.rule == 0 {
                Rule::Plain
            } else {
                Rule::Reorder
            },
            fallback: u32::from(self.fallback),
            generation: self.generation,
            batches: self.batches,
            requests: self.requests,
        }
    }
}
