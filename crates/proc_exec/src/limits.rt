// What a run may touch.
ghost use Rattle.std.specs.Prelude.{◌≡◌, ◌<◌, Option, Some, None, IfSome, length, position};
ghost use Rattle.std.specs.List.{list_any};
ghost use Rattle.std.specs.Ordering.{eq_by_cmp};
ghost use Rattle.aria_base.specs.Orders.{key_cmp};
ghost use Rattle.aria_base.specs.declared.keys.Key.{Key};
ghost use Rattle.batch_rules.specs.Touches.{Declared as Touchable};
ghost use Rattle.batch_rules.specs.Plays.{allows_read, allows_write};
ghost use Rattle.proc_exec.specs.Limits.{touchable};

use crate::outcomes::Declared;
use aria_base::{Key, contains_key, same_key};

/// Where in the lists of declared keys the next access is likely to stand: behind the last one that was found.
/// It changes no answer. A run within the keys of an earlier run mostly makes the same accesses in the same order.
#[derive(Clone, Copy, Debug)]
pub struct Likely {
    reads: usize,
    writes: usize,
}

impl Likely {
    /// At the beginning of both lists.
    pub fn first() -> Likely {
        Likely {
            reads: 0,
            writes: 0,
        }
    }
}

/// What a run may touch: everything, or declared keys.
pub trait Limits {
    /// The declared keys, where there are any.
    ghost declared: { Self → Option (Touchable Key) };

    /// Whether a read of the key is allowed.
    fn allows_read(&self, key: &Key, likely: &mut Likely) -> bool
        ensures { result ≡ allows_read key_cmp (declared self.now) key.now };

    /// Whether a write of the key is allowed.
    fn allows_write(&self, key: &Key, likely: &mut Likely) -> bool
        ensures { result ≡ allows_write key_cmp (declared self.now) key.now };
}

/// A run without limits.
#[derive(Clone, Copy, Debug)]
pub struct Unlimited;

impl Limits for Unlimited {
    ghost declared = { λ _. None };

    fn allows_read(&self, _key: &Key, _likely: &mut Likely) -> bool {
        true
    }

    fn allows_write(&self, _key: &Key, _likely: &mut Likely) -> bool {
        true
    }
}

impl Limits for Declared {
    ghost declared = { λ d. Some (touchable d) };

    fn allows_read(&self, key: &Key, likely: &mut Likely) -> bool {
        stands_among(self.reads.as_slice(), &mut likely.reads, key)
            || contains_key(self.writes.as_slice(), key)
    }

    fn allows_write(&self, key: &Key, likely: &mut Likely) -> bool {
        stands_among(self.writes.as_slice(), &mut likely.writes, key)
    }
}

/// Whether the key stands among these. It is looked for at the likely place first, and the place behind it is
/// the next likely one.
fn stands_among(keys: &[Key], likely: &mut usize, key: &Key) -> bool
    ensures { result ≡ list_any (eq_by_cmp key_cmp key.now) keys.now }
{
    let at = *likely;
    if at < keys.len() && same_key(key, &keys[at]) {
        *likely = at + 1;
        return true;
    }
    match place_of(keys, key) {
        Some(at) => {
            *likely = at + 1;
            true
        }
        None => false,
    }
}

/// The key's place among these, if it is there.
fn place_of(keys: &[Key], key: &Key) -> Option<usize>
    ensures place { result ≡ position (eq_by_cmp key_cmp key.now) keys.now }
    ensures bound { IfSome result (λ at. at < length keys.now) }
{
    keys.iter().position(|other| same_key(key, other))
}
