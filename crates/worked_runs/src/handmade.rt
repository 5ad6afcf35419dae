// A catalogue and a procedure that are made by hand, and not read from a text; and a refusal in words.
use aria_base::{Args, Call, Items, Kind, Schema, Txt};
use proc_lang::{Block, Catalog, Checked, Proc};
use proc_verify::VerifyRefused;
use std::alloc::{AllocError, Global};
use std::io;

/// Whether what is made by hand is as it was made.
pub fn is_as_made(alloc: Global) -> io::Result<bool> {
    let Ok(copy) = empty(alloc).copy(alloc) else {
        return Err(io::Error::from(io::ErrorKind::OutOfMemory));
    };
    Ok(is_empty(alloc, &copy) && is_sealed(alloc) && is_printed(alloc)?)
}

fn empty(alloc: Global) -> Catalog {
    Catalog::of(Schema::from_vec(Vec::new(alloc)), Vec::new(alloc))
}

/// Whether the catalogue has no names and takes no call.
fn is_empty(alloc: Global, catalog: &Catalog) -> bool {
    let call = Call {
        proc: 0,
        args: Args::from_vec(Vec::new(alloc)),
    };
    let listed = catalog.schema().as_slice().len() + catalog.procs().len();
    let named = catalog.table(b"acct").is_some() || catalog.proc(b"add").is_some();
    listed == 0 && !named && !catalog.takes(&call)
}

/// Whether a sealed procedure has its name and its registers.
fn is_sealed(alloc: Global) -> bool {
    let (Ok(name), Ok(registers)) = (
        Txt::of(alloc, b"idle"),
        Vec::from_array(alloc, [Kind::Int, Kind::Text]),
    ) else {
        return false;
    };
    let idle = Proc {
        name,
        args: Items::from_vec(Vec::new(alloc)),
        regs: Items::from_vec(registers),
        body: Block::from_vec(Vec::new(alloc)),
    };
    let sealed = Checked::seal(idle, &Schema::from_vec(Vec::new(alloc)));
    let proc = sealed.proc();
    proc.name.as_slice() == b"idle".as_slice() && proc.regs.as_slice().len() == 2
}

/// Whether a refusal for want of memory says so. The others are printed of texts.
fn is_printed(alloc: Global) -> Result<bool, AllocError> {
    let refused = VerifyRefused::Memory;
    let text = format!(in alloc; "{refused}")?;
    Ok(text.as_str() == "no memory")
}
