// What a source and a sink are: where input comes from, and where output goes.
ghost use Rattle.std.specs.Prelude.{◌≡◌, ◌<◌, ◌≤◌, ℕ, List, Option, OnErr, length};
ghost use Rattle.aria_base.specs.Faults.{Rose};
ghost use Rattle.aria_base.specs.Streams.{Takes, Gives};

/// A call on a source, a sink or a disk that did not succeed. Only the object's count of faults
/// tells more.
#[derive(Clone, Copy, Debug, PartialEq, Eq)]
pub struct Failed;

/// Where input comes from. Its count of faults never falls, and stays at 2^64 - 1 once it is there.
pub trait Source {
    /// The bytes that it has left, where it tells them.
    ghost left: { Self → Option (List ℕ) };

    /// Its count of faults.
    ghost faults: { Self → ℕ };

    /// Moves bytes that are left to the front of the buffer and answers how many it moved, which is
    /// none only where the input ends. After `Failed` none was moved; it comes where the count of faults
    /// rose or stands at its last value.
    fn take(&mut self, buf: &mut [u8]) -> Result<usize, Failed>
        requires { 0 < length buf.old }
        ensures bytes { Takes (left self.old) (left self.new) result buf.new }
        ensures kept { faults self.old ≤ faults self.new }
        ensures failed { OnErr result (Rose (faults self.old) (faults self.new)) };
}

/// Where output goes. Its count of faults never falls, and stays at 2^64 - 1 once it is there.
pub trait Sink {
    /// The bytes that it was given, where it tells them.
    ghost given: { Self → Option (List ℕ) };

    /// Its count of faults.
    ghost faults: { Self → ℕ };

    /// Puts the bytes behind those that it was given. On `Failed` it may have taken a prefix of them, and
    /// the count of faults rose or stands at its last value.
    fn give(&mut self, bytes: &[u8]) -> Result<(), Failed>
        ensures bytes { Gives (given self.old) (given self.new) result bytes.now }
        ensures kept { faults self.old ≤ faults self.new }
        ensures failed { OnErr result (Rose (faults self.old) (faults self.new)) };
}
