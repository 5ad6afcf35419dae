// The bytes of a gate: one byte of a file, which says whether what stands behind it counts.

/// The byte of an open gate. Every other byte is a closed one.
pub const OPEN: u8 = 1;

/// The byte that is written for a closed gate.
pub const SHUT: u8 = 0;
