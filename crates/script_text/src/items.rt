// What a line says.
use aria_base::{Args, Bytes, Parts, Row, Txt};

/// What a line of a script says.
#[derive(Debug, Drop, PartialEq, Eq)]
pub enum Item {
    /// Nothing.
    Skip,
    /// The catalogue of this name comes next, or pieces of a catalogue's text where it is `text`.
    Catalog(Txt),
    /// The next piece of the catalogue's text.
    Piece(Bytes),
    /// A row, for the table of this name.
    Row { table: Txt, parts: Parts, row: Row },
    /// A call of the procedure of this name.
    Tx { proc: Txt, args: Args },
    /// The end of the batch with this number.
    End(u64),
    /// All that follows is a report.
    Report,
    /// The rule of this name, and the percentage, hold from the next batch on.
    Settings { name: Txt, percent: i64 },
}
