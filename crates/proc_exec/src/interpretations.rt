// What a request of a catalogue does through a window.
ghost use Rattle.std.specs.Prelude.{IfOk};
ghost use Rattle.proc_lang.specs.Catalogs.{run_of};
ghost use Rattle.proc_exec.specs.Endings.{EndsAs, EndsWithin};
ghost use Rattle.proc_exec.specs.Limits.{touchable};
ghost use Rattle.proc_exec.specs.Steppings.{ComesTo};

use crate::limits::{Limits, Unlimited};
use crate::outcomes::{Declared, Ran};
use crate::readings::{Lent, Reads, Whole};
use crate::statements::run_proc;
use aria_base::{Memory, Request};
use lent_rows::Lends;
use proc_lang::{Access, Catalog, End, Gives};
use std::alloc::Global;

/// Runs a request through the window: its end, or that there was no memory. Where the catalogue has no
/// procedure of the call's number, nothing is done, and the end is `Done`. No write is taken back here: all
/// that the run wrote is in the window's map afterwards, also after a `Back` or a `Trap`. What the window
/// notes of the run are its writes, and the reads of keys that it had not written by then. Where there was
/// no memory, nothing is said of the window.
pub fn interpret<A: Access>(
    alloc: Global,
    catalog: &Catalog,
    request: &Request,
    access: &mut A,
) -> Result<End, Memory>
    ensures { IfOk result (EndsAs (run_of catalog.now request.now) (A.seen access.old) (A.seen access.new)) }
{
    match run_request(alloc, &Unlimited, &Whole, catalog, request, access)? {
        Ran::Ended(end) => Ok(end),
        Ran::Moved(_) => unreachable!(),
    }
}

/// Runs a request through the window within declared keys: the run stops before its first access that they
/// do not allow, and names its key. Nothing is said of the window then, nor where there was no memory.
#[tactic(auto, using(crate::proofs::Ended::ends_within))]
pub fn interpret_within<A: Access>(
    alloc: Global,
    catalog: &Catalog,
    request: &Request,
    declared: &Declared,
    access: &mut A,
) -> Result<Ran, Memory>
    ensures { IfOk result (EndsWithin (touchable declared.now) (run_of catalog.now request.now) (A.seen access.old) (A.seen access.new)) }
{
    run_request(alloc, declared, &Whole, catalog, request, access)
}

/// The same as [`interpret`] through a window that lends its rows, without a copy of the rows that are read.
pub fn interpret_lent<A: Lends>(
    alloc: Global,
    catalog: &Catalog,
    request: &Request,
    access: &mut A,
) -> Result<End, Memory>
    ensures { IfOk result (EndsAs (run_of catalog.now request.now) (A.seen access.old) (A.seen access.new)) }
{
    match run_request(alloc, &Unlimited, &Lent, catalog, request, access)? {
        Ran::Ended(end) => Ok(end),
        Ran::Moved(_) => unreachable!(),
    }
}

/// The same as [`interpret_within`] through a window that lends its rows.
#[tactic(auto, using(crate::proofs::Ended::ends_within))]
pub fn interpret_lent_within<A: Lends>(
    alloc: Global,
    catalog: &Catalog,
    request: &Request,
    declared: &Declared,
    access: &mut A,
) -> Result<Ran, Memory>
    ensures { IfOk result (EndsWithin (touchable declared.now) (run_of catalog.now request.now) (A.seen access.old) (A.seen access.new)) }
{
    run_request(alloc, declared, &Lent, catalog, request, access)
}

/// Runs a request within these limits, whichever they are, and reads rows in this way.
fn run_request<L: Limits, A: Access, S: Reads<A>>(
    alloc: Global,
    limits: &L,
    reads: &S,
    catalog: &Catalog,
    request: &Request,
    access: &mut A,
) -> Result<Ran, Memory>
    ensures { IfOk result (ComesTo (L.declared limits.now) (run_of catalog.now request.now) (A.seen access.old) (A.seen access.new)) }
{
    match catalog.procs().get(usize::from(request.call.proc)) {
        Some(checked) => run_proc(alloc, limits, reads, checked.proc(), request, access),
        None => Ok(Ran::Ended(End::Done(Gives::from_vec(Vec::new(alloc))))),
    }
}
