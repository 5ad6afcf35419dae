// The rows of a table of commands.

/// An option of a command: one with a value, or a flag.
#[derive(Clone, Copy, Debug)]
pub struct OptionRow<'a> {
    pub name: &'a str,
    pub is_flag: bool,
}

/// A command and its options.
#[derive(Clone, Copy, Debug)]
pub struct CommandRow<'a> {
    pub name: &'a str,
    pub options: &'a [OptionRow<'a>],
}
