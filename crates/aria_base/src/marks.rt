// One mark on a reservation word, as clauses speak of it.

/// One mark on a reservation word: a request of a batch reads or writes a key.
#[derive(Clone, Copy, Debug, PartialEq, Eq)]
pub struct Mark {
    /// The request's place in its batch, from 1.
    pub tid: u32,
    /// The key's number, from 0.
    pub key: u32,
    /// Whether the request writes the key; else it reads it.
    pub writes: bool,
}
