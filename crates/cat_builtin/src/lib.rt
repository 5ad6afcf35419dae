//! The catalogues that every database has: `bank`, `ycsb` and `tpcc`.
//!
//! [`builtin`] answers the catalogue of a name, equal to the one that `specs/Builtins` defines. Each lies
//! in the program as its JSON text, which is read like any other: that the text tells the catalogue of
//! the definition, and so is never refused, is proved by reading it in the proof.
//!
//! ```text
//! builtin ─> BANK, YCSB, TPCC (texts) ─> cat_read
//! ```
#![tactic(auto)]

ghost use Rattle.std.specs.Prelude.{◌≡◌, IfOk};
ghost use Rattle.proc_lang.specs.Catalogs.{Plan};
ghost use Rattle.cat_builtin.specs.Builtins.{builtin_named};
ghost use Rattle.cat_builtin.specs.Told.{IsTold};

mod bank;
mod tpcc;
mod ycsb;

use crate::bank::BANK;
use crate::tpcc::TPCC;
use crate::ycsb::YCSB;
use aria_base::Memory;
use cat_read::{CatRefused, read_catalog};
use proc_lang::Catalog;
use std::alloc::Global;

/// The catalogue of this name; None exactly where the name is none of `bank`, `ycsb` and `tpcc`.
/// Memory is wanted for the JSON and for the catalogue; where there is none the answer is the error.
pub fn builtin(alloc: Global, name: &[u8]) -> Result<Option<Catalog>, Memory>
    ensures { IfOk result (λ found. found ≡ builtin_named name.now) }
{
    if name == b"bank".as_slice() {
        return Ok(Some(told(alloc, BANK)?));
    }
    if name == b"ycsb".as_slice() {
        return Ok(Some(told(alloc, YCSB)?));
    }
    if name == b"tpcc".as_slice() {
        return Ok(Some(told(alloc, TPCC)?));
    }
    Ok(None)
}

/// The catalogue that the text tells. The only refusal that can come is out of memory.
fn told(alloc: Global, text: &str) -> Result<Catalog, Memory>
    requires { (plan : Plan) × IsTold text.now plan }
    ensures { (plan : Plan) → IsTold text.now plan → IfOk result (λ catalog. catalog ≡ plan) }
{
    match read_catalog(alloc, text.as_bytes()) {
        Ok(catalog) => Ok(catalog),
        Err(CatRefused::Memory) => Err(Memory),
        Err(_) => unreachable!(),
    }
}
