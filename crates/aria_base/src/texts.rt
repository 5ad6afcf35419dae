// Texts of at most 500 bytes, and which bytes are the name of a table or a procedure.
ghost use Rattle.std.specs.Prelude.{◌≡◌, ℕ, List, IfOk, IfErr, position, not, true, IsNone, All, Some, nat_eq};
ghost use Rattle.std.specs.Option.{option_copied};
ghost use Rattle.std.proofs.Common.{rules, refl};
ghost use Rattle.std.specs.Cmp.{partial_equiv_from_equiv};
ghost use Rattle.std.specs.Cmp.Rules.{hashing};
ghost use Rattle.std.specs.Cmp.Lexicographic.{pointwise, slice_cmp, nat_list_eq_equiv, nat_list_cmp_total, texts_po, texts_ties};
ghost use Rattle.std.specs.Ordering.{nat_cmp};
ghost use Rattle.std.specs.Hash as fed;
ghost use Rattle.aria_base.specs.Texts.{may_hold, IsText, begins_word, is_in_word, is_word};
ghost use Rattle.aria_base.specs.Refusals.{IsNoText, refusal_text};
ghost use Rattle.aria_base.specs.declared.texts.TxtRefused.TheVariants.{Memory};

use crate::copies::Duplicate;
use crate::limits::{LONGEST_TEXT, LONGEST_WORD};
use crate::lists::Bytes;
use crate::memory::Memory;
use std::alloc::{AllocError, AllocFailed, Global};
use std::cmp::Ordering;
use std::error::Error;
use std::fmt;
use std::hash::{Hash, Hasher};
use std::marker::Model;

/// Why bytes are no text.
#[derive(Clone, Copy, Debug, PartialEq, Eq)]
pub enum TxtRefused {
    /// There was no memory for the copy.
    Memory,
    /// There are more than 500 bytes: this many.
    TooLong { len: usize },
    /// The first byte that no text holds stands at this place, from 0.
    BadByte { at: usize },
}

impl fmt::Display for TxtRefused {
    ghost output = { λ refused. Some (refusal_text refused) };

    fn fmt<W: fmt::Write>(&self, f: &mut fmt::Formatter<W>) -> fmt::Result {
        match self {
            TxtRefused::Memory => f.write_str("no memory"),
            TxtRefused::TooLong { len } => write!(f, "{len} bytes are too long for a text"),
            TxtRefused::BadByte { at } => write!(f, "no text holds the byte at {at}"),
        }
    }
}

impl Error for TxtRefused {}

/// A short text: at most 500 bytes of printable ASCII, from 32 to 126, without `"` and `\`. A
/// contract sees the list of its bytes.
#[derive(Debug, Drop)]
pub struct Txt {
    bytes: Box<Bytes>,
}

impl Model for Txt {
    ghost Value = { List ℕ };

    ghost view = { λ a. a.bytes.value };

    ghost invariant = { λ a. IsText a.bytes.value };
}

impl Txt {
    /// The text of these bytes. The length is looked at first: past 500 bytes the answer is
    /// `TooLong`. Then `BadByte` tells where the first byte stands that a text may not hold.
    pub fn of(alloc: Global, bytes: &[u8]) -> Result<Txt, TxtRefused>
        ensures text { IfOk result (λ text. (text ≡ bytes.now) × IsText bytes.now) }
        ensures refused { IfErr result (IsNoText bytes.now) }
    {
        if bytes.len() > LONGEST_TEXT {
            return Err(TxtRefused::TooLong { len: bytes.len() });
        }
        if let Some(at) = first_bad(bytes) {
            return Err(TxtRefused::BadByte { at });
        }
        let mut copy = Vec::with_capacity(alloc, bytes.len())?;
        copy.extend_from_slice(bytes)?;
        Ok(Txt {
            bytes: Box::new(alloc, Bytes::from_vec(copy))?,
        })
    }

    /// The bytes of the text.
    pub fn as_slice(&self) -> &[u8]
        ensures bytes { result.now ≡ self.now }
        ensures text { IsText self.now }
    {
        self.bytes.as_slice()
    }
}

impl PartialEq for Txt {
    ghost eq = { pointwise nat_eq };

    ghost laws = { partial_equiv_from_equiv nat_list_eq_equiv };

    fn eq(&self, other: &Txt) -> bool {
        self.as_slice() == other.as_slice()
    }
}

impl Eq for Txt {
    ghost laws = { nat_list_eq_equiv };
}

impl PartialOrd for Txt {
    ghost partial_cmp = { λ x y. Some (slice_cmp nat_cmp x y) };

    ghost laws = { texts_po };

    fn partial_cmp(&self, other: &Txt) -> Option<Ordering> {
        Some(self.cmp(other))
    }
}

impl Ord for Txt {
    ghost cmp = { slice_cmp nat_cmp };

    ghost total = { nat_list_cmp_total };

    ghost matches_partial_cmp = { λ x y. refl };

    ghost matches_eq = { texts_ties };

    fn cmp(&self, other: &Txt) -> Ordering {
        self.as_slice().cmp(other.as_slice())
    }
}

impl Hash for Txt {
    ghost hash_input = { fed.slice fed.u8 };

    ghost respects_eq = { Prim.search (hashing, rules) };

    fn hash<H: Hasher>(&self, state: &mut H) {
        self.as_slice().hash(state);
    }
}

impl Duplicate for Txt {
    fn duplicate(&self, alloc: Global) -> Result<Self, Memory> {
        Ok(Txt {
            bytes: Box::new(alloc, self.bytes.duplicate(alloc)?)?,
        })
    }
}

impl<T: Drop> From<AllocFailed<T>> for TxtRefused {
    ghost from_gives = { λ _ refused. refused ≡ Memory };

    fn from(_: AllocFailed<T>) -> TxtRefused {
        TxtRefused::Memory
    }
}

impl From<AllocError> for TxtRefused {
    ghost from_gives = { λ _ refused. refused ≡ Memory };

    fn from(_: AllocError) -> TxtRefused {
        TxtRefused::Memory
    }
}

/// The place of the first byte that no text holds.
fn first_bad(bytes: &[u8]) -> Option<usize>
    ensures first { result ≡ position (λ b. not (may_hold b)) bytes.now }
    ensures none { IsNone result → All (λ b. may_hold b ≡ true) bytes.now }
{
    bytes
        .iter()
        .position(|&b| b < 32 || 126 < b || b == b'"' || b == b'\\')
}

/// Whether these bytes are a word, as the names of tables and procedures are: a lower-case letter,
/// then lower-case letters, digits and underlines, at most 16 bytes in all.
pub fn is_word(bytes: &[u8]) -> bool
    ensures { result ≡ is_word bytes.now }
{
    if bytes.len() > LONGEST_WORD {
        return false;
    }
    if !begins_word(bytes.first()) {
        return false;
    }
    for byte in bytes {
        if !is_in_word(*byte) {
            return false;
        }
    }
    true
}

/// Whether a word may begin with this byte.
fn begins_word(first: Option<&u8>) -> bool
    ensures { result ≡ begins_word (option_copied first.entry) }
{
    match first {
        Some(byte) => byte.is_ascii_lowercase(),
        None => false,
    }
}

/// Whether a word may go on with this byte.
fn is_in_word(byte: u8) -> bool
    ensures { result ≡ is_in_word byte }
{
    byte.is_ascii_lowercase() || byte.is_ascii_digit() || byte == b'_'
}
