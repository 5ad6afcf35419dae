// The source and the sink over std's readers and writers: the trusted edge of the workspace. They
// tell no content, so that which bytes they pass on is tested and not proved.
ghost use Rattle.std.specs.Prelude.{◌≡◌, None};

use crate::streams::{Failed, Sink, Source};
use std::io::{ErrorKind, Read, Write};

/// A source over a reader, as the standard input. It counts each error of the reader as a fault; a
/// read that was interrupted is made again.
#[derive(Drop)]
pub struct FileSource<R> {
    input: R,
    faults: u64,
}

impl<R: Read> FileSource<R> {
    /// A source that gives what the reader gives. No fault is counted yet.
    pub fn new(input: R) -> Self
        ensures { ⟦<FileSource<R> as Source>⟧.faults result ≡ 0 }
    {
        FileSource { input, faults: 0 }
    }
}

impl<R: Read> Source for FileSource<R> {
    ghost left = { λ _. None };

    ghost faults = { λ s. s.faults };

    fn take(&mut self, buf: &mut [u8]) -> Result<usize, Failed> {
        for _ in 0..u64::MAX {
            match self.input.read(buf) {
                Ok(n) => return Ok(n),
                Err(error) => {
                    if error.kind() != ErrorKind::Interrupted {
                        break;
                    }
                }
            }
        }
        self.faults = self.faults.saturating_add(1);
        Err(Failed)
    }
}

/// A sink over a writer, as the standard output. It counts each error of the writer as a fault.
#[derive(Drop)]
pub struct FileSink<W> {
    output: W,
    faults: u64,
}

impl<W: Write> FileSink<W> {
    /// A sink that hands what it is given to the writer, and flushes it. No fault is counted yet.
    pub fn new(output: W) -> Self
        ensures { ⟦<FileSink<W> as Sink>⟧.faults result ≡ 0 }
    {
        FileSink { output, faults: 0 }
    }
}

impl<W: Write> Sink for FileSink<W> {
    ghost given = { λ _. None };

    ghost faults = { λ s. s.faults };

    fn give(&mut self, bytes: &[u8]) -> Result<(), Failed> {
        if self.output.write_all(bytes).is_ok() && self.output.flush().is_ok() {
            return Ok(());
        }
        self.faults = self.faults.saturating_add(1);
        Err(Failed)
    }
}
