// The laws of what a slot's file reads as. Each is the contract of a function that does nothing: a caller has it after the call.
ghost use Rattle.slot_images.specs.Laws.{ReadsOnce, ReadsWhatIsLaid};

/// A slot reads as one thing alone.
pub fn reads_once()
    ensures { ReadsOnce }
{}

/// What is laid of an image and shown is read as that image.
pub fn reads_what_is_laid()
    ensures { ReadsWhatIsLaid }
{}
