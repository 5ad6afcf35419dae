// A hook before each step of a worker, by which tests hold workers back.

/// The kinds of steps that a worker makes.
#[derive(Clone, Copy, Debug, PartialEq, Eq)]
pub enum Place {
    /// It runs a request on the rows as they stood when the batch began.
    Execute,
    /// It leaves marks on reservation words.
    Mark,
    /// It draws the place of its next request.
    Draw,
    /// It installs writes of a batch.
    Install,
    /// It runs a request again that had to wait.
    Rerun,
}

/// Told before each step of a worker. It changes nothing that a contract sees: tests hold workers
/// back by it, or count their steps.
pub trait Pace {
    /// The worker `who`, from 0, is about to make a step of this kind.
    fn at(&self, who: u32, place: Place);
}

/// A pace that does nothing.
#[derive(Clone, Copy, Debug, PartialEq, Eq)]
pub struct Free;

impl Pace for Free {
    fn at(&self, _who: u32, _place: Place) {}
}
