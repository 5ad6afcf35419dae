// The limit of a catalogue that a script brings.

/// The most bytes of a catalogue's text, all of its pieces together.
pub const MOST_CATALOG: usize = 1_048_576;
