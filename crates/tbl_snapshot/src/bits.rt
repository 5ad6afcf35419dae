// A few bits that tell which hashes were not met yet, so that most searches are spared.
ghost use Rattle.std.specs.Prelude.{◌≡◌};
ghost use Rattle.std.specs.Bool.{MatchBool};
ghost use Rattle.std.specs.Int.{bit_at};
ghost use Rattle.tbl_snapshot.specs.Marks.{bit_of, with_bit};

/// How many of a hash's bits do not say which of 128 bits it has: all but the highest seven.
const REST: u32 = 57;

/// Whether the bits have that of the hash.
pub(crate) fn has_bit(bits: u128, hash: u64) -> bool
    ensures { MatchBool result (bit_at bits (bit_of hash) ≡ 1) (bit_at bits (bit_of hash) ≡ 0) }
{
    bits >> ((hash >> REST) as u32) & 1 == 1
}

/// The bits with that of the hash.
pub(crate) fn with_bit(bits: u128, hash: u64) -> u128
    ensures { result ≡ with_bit bits hash }
{
    bits | (1 << ((hash >> REST) as u32))
}
