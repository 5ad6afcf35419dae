// A finding as it is printed.
ghost use Rattle.std.specs.Prelude.{◌≡◌, ◌⊎◌, ◌++◌, codes, IfOk, OnOk};
ghost use Rattle.audit_command.specs.Findings.{amount_text, district_text, fails_text, finding_text, status_of};

use aria_base::Memory;
use script_course::{DONE, FAILS};
use script_text::append_number;
use std::alloc::Global;
use tpcc_audit::Audit;

/// The status of a finding.
pub fn status_of(found: &Audit) -> u8
    ensures status { result ≡ status_of found.now }
    ensures one { (result ≡ DONE) ⊎ (result ≡ FAILS) }
{
    match found {
        Audit::Holds => DONE,
        Audit::Fails { .. } => FAILS,
    }
}

/// The lines of a finding: that the audit holds; or at which condition, warehouse and district it does not,
/// what is wanted there, and what is found.
pub fn print_finding(alloc: Global, found: &Audit) -> Result<Vec<u8>, Memory>
    ensures { IfOk result (λ text. text.items ≡ finding_text found.now) }
{
    match found {
        Audit::Holds => Ok(Vec::from_slice(alloc, b"audit holds\n")?),
        Audit::Fails {
            condition,
            w,
            d,
            wanted,
            found,
        } => print_failure(alloc, *condition, *w, *d, *wanted, *found),
    }
}

/// The three lines of a failure.
fn print_failure(
    alloc: Global,
    condition: u8,
    w: i64,
    d: i64,
    wanted: i128,
    found: i128,
) -> Result<Vec<u8>, Memory>
    ensures { IfOk result (λ text. text.items ≡ fails_text condition w d ++ amount_text (codes "wanted ") wanted ++ amount_text (codes "found ") found) }
{
    let mut text = Vec::new(alloc);
    append_place(&mut text, condition, w, d)?;
    append_amount(&mut text, b"wanted ", wanted)?;
    append_amount(&mut text, b"found ", found)?;
    Ok(text)
}

/// Appends the line that says where the audit fails. Where there was no memory, a part of it may stand in
/// `out`, here and in the next two calls.
fn append_place(out: &mut Vec<u8>, condition: u8, w: i64, d: i64) -> Result<(), Memory>
    ensures { OnOk result (out.new.items ≡ out.old.items ++ fails_text condition w d) }
{
    out.extend_from_slice(b"audit fails ")?;
    append_number(out, condition)?;
    out.push(b' ')?;
    append_district(out, w, d)?;
    Ok(())
}

/// Appends the two numbers that end that line.
fn append_district(out: &mut Vec<u8>, w: i64, d: i64) -> Result<(), Memory>
    ensures { OnOk result (out.new.items ≡ out.old.items ++ district_text w d) }
{
    append_number(out, w)?;
    out.push(b' ')?;
    append_number(out, d)?;
    out.push(b'\n')?;
    Ok(())
}

/// Appends a line that is a word, with the space behind it, and an amount.
fn append_amount(out: &mut Vec<u8>, word: &[u8], amount: i128) -> Result<(), Memory>
    ensures { OnOk result (out.new.items ≡ out.old.items ++ amount_text word.now amount) }
{
    out.extend_from_slice(word)?;
    append_number(out, amount)?;
    out.push(b'\n')?;
    Ok(())
}
