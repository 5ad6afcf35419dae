// The last waves that touched a key, and a table of them.
ghost use Rattle.std.specs.Prelude.{◌≡◌, true, OnOk};
ghost use Rattle.fallback_locks.specs.LastWaves.{with_reader, with_writer, AreSame, HasPlacesOf};

use aria_base::Memory;

/// The last waves that read and that write a key, 0 where there is none.
#[derive(Clone, Copy)]
pub(crate) struct Last {
    pub(crate) reader: u32,
    pub(crate) writer: u32,
}

impl Last {
    /// No wave touches the key.
    pub(crate) fn none() -> Last
        ensures { result ≡ record { reader = 0; writer = 0 } }
    {
        Last {
            reader: 0,
            writer: 0,
        }
    }

    /// The same, where this wave reads the key too.
    pub(crate) fn read_in(self, wave: u32) -> Last
        ensures { result ≡ with_reader wave true self }
    {
        Last {
            reader: self.reader.max(wave),
            writer: self.writer,
        }
    }

    /// The same, where this wave writes the key too.
    pub(crate) fn written_in(self, wave: u32) -> Last
        ensures { result ≡ with_writer wave true self }
    {
        Last {
            reader: self.reader,
            writer: self.writer.max(wave),
        }
    }
}

/// A table of the last waves of each key, or of each key's number.
pub(crate) trait Table {
    ghost use Rattle.std.specs.Ordering.{eq_by_cmp};
    ghost use Rattle.std.specs.declared.cmp.Ordering.{Ordering};
    ghost use Rattle.fallback_locks.specs.declared.lasts.Last.{Last};

    type Key;

    /// How its keys are told apart.
    ghost order: { Self.Key → Self.Key → Ordering };

    /// It has a place for the key.
    ghost holds: { Self → Self.Key → Type 0 };

    /// The last waves of a key.
    ghost last: { Self → Self.Key → Last };

    /// The last waves of the key.
    fn last_of(&self, key: &Self::Key) -> Last
        requires { holds self.now key.now }
        ensures { result ≡ last self.now key.now };

    /// Notes that a wave reads the key.
    fn note_read(&mut self, key: &Self::Key, wave: u32) -> Result<(), Memory>
        requires { holds self.old key.now }
        ensures noted { OnOk result (AreSame (last self.new) (λ q. with_reader wave (eq_by_cmp order q key.now) (last self.old q))) }
        ensures held { OnOk result (HasPlacesOf (holds self.old) (holds self.new)) };

    /// Notes that a wave writes the key.
    fn note_write(&mut self, key: &Self::Key, wave: u32) -> Result<(), Memory>
        requires { holds self.old key.now }
        ensures noted { OnOk result (AreSame (last self.new) (λ q. with_writer wave (eq_by_cmp order q key.now) (last self.old q))) }
        ensures held { OnOk result (HasPlacesOf (holds self.old) (holds self.new)) };
}
