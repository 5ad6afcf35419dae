// The bytes of one file in memory.
ghost use Rattle.std.specs.Prelude.{◌≡◌, ℕ, ◌+◌, ◌-◌, ◌≤◌, length, OnOk, IsOk, vec_len};
ghost use Rattle.std.specs.Vec.{vec_capacity};
ghost use Rattle.disk_model.specs.Files.{put};
ghost use Rattle.disk_model.specs.Steps.{blotted};

use std::alloc::{AllocError, Global};
use std::marker::Model;

/// Writes over the bytes of a file from an offset on, and past its end. Bytes that are to come
/// behind the end are added there.
pub fn put_in(file: &mut Vec<u8>, at: usize, bytes: &[u8]) -> Result<(), AllocError>
    ensures put { OnOk result (file.new.items ≡ put file.old.items at bytes.now) }
    ensures capacity { vec_capacity file.old ≤ vec_capacity file.new }
    ensures succeeds { vec_len file.old + length bytes.now ≤ vec_capacity file.old → IsOk result }
{
    let from = at.min(file.len());
    let over = bytes.len().min(file.len() - from);
    file[from..from + over].copy_from_slice(&bytes[..over]);
    file.extend_from_slice(&bytes[over..])
}

/// Writes one byte over those of a range that the file has.
pub fn blot(file: &mut [u8], at: usize, len: usize, fill: u8)
    ensures { file.new ≡ blotted fill (at, len) file.old }
{
    if at < file.len() {
        let end = at + len.min(file.len() - at);
        file[at..end].fill(fill);
    }
}

/// Bytes with room for some more, which is taken when they are made.
#[derive(Drop)]
pub struct Roomy {
    bytes: Vec<u8>,
}

impl Model for Roomy {
    ghost use Rattle.disk_model.specs.Contents.{RoomyBytes};

    ghost Value = { RoomyBytes };

    ghost use Rattle.std.specs.Prelude.{◌-◌, vec_len};
    ghost use Rattle.std.specs.Vec.{vec_capacity};

    ghost view = { λ a. record { bytes = a.bytes.items; spare = vec_capacity a.bytes - vec_len a.bytes } };
}

impl Roomy {
    ghost use Rattle.std.specs.Prelude.{IfOk};

    /// A copy of these bytes, with room for so many more.
    pub fn copied(alloc: Global, bytes: &[u8], room: usize) -> Result<Roomy, AllocError>
        ensures bytes { IfOk result (λ r. r.bytes ≡ bytes.now) }
        ensures room { IfOk result (λ r. room ≤ r.spare) }
    {
        let mut copy = Vec::with_capacity(alloc, bytes.len())?;
        copy.extend_from_slice(bytes)?;
        copy.reserve(room)?;
        Ok(Roomy { bytes: copy })
    }

    /// The bytes.
    pub fn as_slice(&self) -> &[u8]
        ensures { result.now ≡ self.now.bytes }
    {
        self.bytes.as_slice()
    }

    /// Writes over the bytes from an offset on, and past the end.
    pub fn overwrite(&mut self, at: usize, bytes: &[u8])
        requires { length bytes.now ≤ self.old.spare }
        ensures bytes { self.new.bytes ≡ put self.old.bytes at bytes.now }
        ensures spare { self.old.spare ≤ self.new.spare + length bytes.now }
    {
        put_in(&mut self.bytes, at, bytes).unwrap();
    }
}
