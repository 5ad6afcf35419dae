// To which shard a key belongs, and to which bucket of its shard.
ghost use Rattle.std.specs.Prelude.{◌≡◌, ◌%◌, ◌^◌, ◌<◌, ◌≤◌};
ghost use Rattle.tbl_rows.specs.Hashes.{hash_of};
ghost use Rattle.tbl_rows.specs.Shards.{home};
ghost use Rattle.tbl_rows.specs.Pools.{slot_at};
ghost use Rattle.tbl_rows.specs.declared.homes.TheConstants.{SHARDS, LAST_LEVEL};

use crate::hashes::hash_of;
use aria_base::Key;

/// How many shards there are.
pub const SHARDS: u8 = 16;

/// How many of a hash's bits its shard does not show: all but the highest four.
const SHARD_SHIFT: u32 = 60;

/// How many of a hash's bits its bucket does not show: the lowest.
const BUCKET_SHIFT: u32 = 28;

/// The last level of the buckets of a shard, which are then at most 2^32.
pub(crate) const LAST_LEVEL: u32 = 31;

/// The number of the shard that a key belongs to. In the tests, of 100,000 keys of one table no shard
/// has over a tenth more than its share: of neighbouring numbers, of numbers 1,024 apart and 832,040
/// apart, of pairs and of texts. Of other keys nothing is claimed.
pub fn shard_of(key: &Key) -> u8
    ensures home { result ≡ home key.now }
    ensures below { result < SHARDS }
{
    shard_at(hash_of(key), key)
}

/// The number of the shard that a key with this hash belongs to.
#[tactic(auto, unfolding(crate::specs::Shards::home))]
pub(crate) fn shard_at(hash: u64, key: &Key) -> u8
    requires { hash ≡ hash_of key.now }
    ensures home { result ≡ home key.now }
    ensures below { result < SHARDS }
{
    (hash >> SHARD_SHIFT) as u8
}

/// The place of this hash's bucket, where a shard has so many of that level.
pub(crate) fn bucket_at(level: u32, count: usize, hash: u64) -> usize
    requires level { level ≤ LAST_LEVEL }
    requires least { 2 ^ level ≤ count }
    ensures slot { result ≡ slot_at level count hash }
    ensures below { result < count }
{
    let bits = hash >> BUCKET_SHIFT;
    let wide = lowest(bits, level + 1) as usize;
    if wide < count {
        wide
    } else {
        lowest(bits, level) as usize
    }
}

/// So many bits of a word, the lowest.
fn lowest(word: u64, bits: u32) -> u64
    requires { bits < 64 }
    ensures { result ≡ word % 2 ^ bits }
{
    word & ((1 << bits) - 1)
}
