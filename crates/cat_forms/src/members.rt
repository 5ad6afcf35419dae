// What the members of a catalogue's objects are called.
ghost use Rattle.std.specs.Prelude.{◌≡◌};
ghost use Rattle.cat_forms.specs.Members.{member_name};

/// The members of the objects of a catalogue.
#[derive(Clone, Copy, Debug, PartialEq, Eq)]
pub enum Member {
    Tables,
    Procs,
    Name,
    Key,
    Cols,
    Args,
    Regs,
    Body,
}

impl Member {
    /// What it is called.
    pub fn name(self) -> &'static str
        ensures { result.now ≡ member_name self }
    {
        match self {
            Member::Tables => "tables",
            Member::Procs => "procs",
            Member::Name => "name",
            Member::Key => "key",
            Member::Cols => "cols",
            Member::Args => "args",
            Member::Regs => "regs",
            Member::Body => "body",
        }
    }
}
