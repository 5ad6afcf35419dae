// What a batch leaves marked.
use dep_rules::Numbered;
use resv_words::Closed;

/// The numbered keys of a batch's requests, and the words by which its verdicts were read off.
#[derive(Drop)]
pub struct Marked {
    /// Of each request the numbers of the keys that it read and wrote.
    pub numbered: Numbered,
    /// The closed words.
    pub closed: Closed,
}
