// A key's hash, which says where its row stands.
ghost use Rattle.std.specs.Prelude.{◌≡◌};
ghost use Rattle.std.specs.List.{fold};
ghost use Rattle.tbl_rows.specs.Hashes.{hash_of, folded, with_word, with_part};

use aria_base::{Key, Part};

/// 2^64 over the golden ratio: an odd factor that puts neighbouring words far apart.
const SPREAD: u64 = 0x9E37_79B9_7F4A_7C15;

/// The bits of half a word.
const HALF_BITS: u32 = 32;

/// The hash of a key, which [`Tables::get_at`](crate::Tables::get_at) takes. It is no secret: who chooses keys
/// can choose them with one hash. No memory.
#[tactic(auto, unfolding(crate::specs::Hashes::hash_of))]
pub fn hash_of(key: &Key) -> u64
    ensures { result ≡ hash_of key.now }
{
    let mut hash = u64::from(key.table);
    for part in key.parts.as_slice() {
        hash = with_part(hash, part);
    }
    let hash = folded(with_word(hash, 0));
    with_word(hash, 0)
}

/// A hash with its upper half added to the lower one. One factor alone would keep keys together that
/// lie so far apart that their hashes are close.
fn folded(hash: u64) -> u64
    ensures { result ≡ folded hash }
{
    hash.wrapping_add(hash >> HALF_BITS)
}

/// A hash with one more word.
fn with_word(hash: u64, word: u64) -> u64
    ensures { result ≡ with_word hash word }
{
    hash.wrapping_mul(SPREAD).wrapping_add(word)
}

/// A hash with one more part.
fn with_part(hash: u64, part: &Part) -> u64
    ensures { result ≡ with_part hash part.now }
{
    match part {
        Part::Int(number) => with_word(hash, number.cast_unsigned()),
        Part::Text(text) => with_bytes(hash, text.as_slice()),
    }
}

/// A hash with these bytes.
fn with_bytes(start: u64, bytes: &[u8]) -> u64
    ensures { result ≡ fold with_word start bytes.now }
{
    let mut hash = start;
    for byte in bytes {
        hash = with_word(hash, u64::from(*byte));
    }
    hash
}
