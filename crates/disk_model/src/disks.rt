// A disk of four files as the store sees it.
ghost use Rattle.std.specs.Prelude.{◌≡◌, ℕ, ◌+◌, ◌<◌, ◌≤◌, length, take, drop, IfOk, OnOk, OnErr, IfSome, option_map};
ghost use Rattle.aria_base.specs.Faults.{Rose};
ghost use Rattle.disk_model.specs.Files.{IsImage, wrote, settled, untouched, put, loosened};
ghost use Rattle.disk_model.specs.Histories.{History, current, Acts, Leaves, HasImage, MayLose};

use aria_base::Failed;

/// Four files, numbered 0 to 3, that a stop may tear. Each call answers `Failed` only where the
/// disk's count of faults rose in it.
pub trait Disk {
    /// The files at each moment of the disk's clock, where the disk tells them, and how often a call
    /// has failed.
    ghost history: { Self → History };

    /// The length of a file in bytes.
    fn len(&mut self, file: u8) -> Result<u64, Failed>
        requires { file < 4 }
        ensures length { IfOk result (λ len. IfSome (current (history self.old) file) (λ f. len ≡ length f.seen)) }
        ensures same { current (history self.new) file ≡ current (history self.old) file }
        ensures acts { Acts (history self.old) (history self.new) file }
        ensures cause { OnErr result (Rose (history self.old).faults (history self.new).faults) };

    /// Fills the buffer with the bytes of a file from an offset on.
    fn read_at(&mut self, file: u8, at: u64, buf: &mut [u8]) -> Result<(), Failed>
        requires file { file < 4 }
        requires within { IfSome (current (history self.old) file) (λ f. at + length buf.old ≤ length f.seen) }
        ensures bytes { OnOk result (IfSome (current (history self.old) file) (λ f. buf.new ≡ take (length buf.old) (drop at f.seen))) }
        ensures same { current (history self.new) file ≡ current (history self.old) file }
        ensures acts { Acts (history self.old) (history self.new) file }
        ensures cause { OnErr result (Rose (history self.old).faults (history self.new).faults) };

    /// Writes over the bytes of a file from an offset on, and past its end.
    fn write_at(&mut self, file: u8, at: u64, bytes: &[u8]) -> Result<(), Failed>
        requires file { file < 4 }
        requires within { IfSome (current (history self.old) file) (λ f. at ≤ length f.seen) }
        ensures written { OnOk result (current (history self.new) file ≡ option_map (wrote at bytes.now) (current (history self.old) file)) }
        ensures lost { OnErr result (MayLose at (length bytes.now) (current (history self.old) file) (current (history self.new) file)) }
        ensures acts { Acts (history self.old) (history self.new) file }
        ensures cause { OnErr result (Rose (history self.old).faults (history self.new).faults) };

    /// Makes what a read of a file gives its only image.
    fn sync(&mut self, file: u8) -> Result<(), Failed>
        requires { file < 4 }
        ensures settled { OnOk result (current (history self.new) file ≡ option_map settled (current (history self.old) file)) }
        ensures same { OnErr result (current (history self.new) file ≡ current (history self.old) file) }
        ensures acts { Acts (history self.old) (history self.new) file }
        ensures cause { OnErr result (Rose (history self.old).faults (history self.new).faults) };

    /// How often a call has failed. The count never falls, and stays at 2^64 - 1 once it is there.
    fn faults(&self) -> u64
        ensures { result ≡ (history self.now).faults };

    /// What a read gives is one of the images.
    ghost reads: { (disk : Self) (moment file : ℕ) → IfSome ((history disk).file_at moment file) (λ f. IsImage f f.seen) };
}

/// Writes and then syncs. In every image meanwhile only the written range, and what lies behind the
/// end that the file had at its last sync, may differ from an image at the call.
pub fn write_synced<D: Disk>(disk: &mut D, file: u8, at: u64, bytes: &[u8]) -> Result<(), Failed>
    requires file { file < 4 }
    requires within { IfSome (current (D.history disk.old) file) (λ f. at ≤ length f.seen) }
    ensures written { OnOk result (current (D.history disk.new) file ≡ option_map (λ f. untouched (put f.seen at bytes.now)) (current (D.history disk.old) file)) }
    ensures images { Leaves (D.history disk.old) (D.history disk.new) file (HasImage (option_map (loosened at (length bytes.now)) (current (D.history disk.old) file))) }
    ensures calls { (D.history disk.new).now ≤ (D.history disk.old).now + 2 }
    ensures cause { OnErr result (Rose (D.history disk.old).faults (D.history disk.new).faults) }
{
    disk.write_at(file, at, bytes)?;
    disk.sync(file)
}
