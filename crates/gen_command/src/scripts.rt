// A script, piece by piece.
ghost use Rattle.std.specs.Prelude.{◌≡◌, ◌≤◌, ◌+◌, ◌++◌, flat_map, map, IfOk, IfErr, OnOk};
ghost use Rattle.std.specs.FinMap.{entries};
ghost use Rattle.std.specs.Map.Iter.{deref_pair};
ghost use Rattle.aria_base.specs.Faults.{Rose};
ghost use Rattle.aria_base.specs.Streams.{Gives};
ghost use Rattle.answer_text.specs.States.{row_text};
ghost use Rattle.load_gen.specs.Draws.{times};
ghost use Rattle.workloads.specs.Generators.{IsWithin, plan_of, rows_of, request_of};
ghost use Rattle.gen_command.specs.Pieces.{IsCutBy};
ghost use Rattle.gen_command.specs.Scripts.{catalog_text, head_text, batch_text, batches_text, call_text, calls_of, script_text};

use crate::cuts::Cut;
use answer_text::{append_counted, append_rows};
use aria_base::{Call, Draws, Key, Memory, Row, Schema, Sink};
use command_words::Amount;
use proc_lang::{Catalog, Checked};
use script_text::append_call;
use std::alloc::Global;
use tbl_rows::Tables;
use workloads::Generator;

/// How many rows are given to the sink at once.
pub const ROWS_AT_ONCE: usize = 1_000;

/// Gives the script of so many batches by this generator.
pub(crate) fn give_script<K: Sink>(
    alloc: Global,
    generator: &Generator,
    amount: Amount,
    out: &mut K,
) -> Result<(), Cut>
    requires { IsWithin generator.now }
    ensures gives { Gives (K.given out.old) (K.given out.new) result (script_text generator.now amount.size amount.batches) }
    ensures sink { K.faults out.old ≤ K.faults out.new }
    ensures cause { IfErr result (λ cut. IsCutBy cut (Rose (K.faults out.old) (K.faults out.new))) }
{
    let catalog = give_head(alloc, generator, out)?;
    give_batches(alloc, generator, &catalog, amount, out)
}

/// Gives what stands before the first batch, and answers the catalogue.
fn give_head<K: Sink>(alloc: Global, generator: &Generator, out: &mut K) -> Result<Catalog, Cut>
    requires { IsWithin generator.now }
    ensures plan { IfOk result (λ catalog. catalog ≡ plan_of generator.now) }
    ensures gives { Gives (K.given out.old) (K.given out.new) result (head_text generator.now) }
    ensures sink { K.faults out.old ≤ K.faults out.new }
    ensures cause { IfErr result (λ cut. IsCutBy cut (Rose (K.faults out.old) (K.faults out.new))) }
{
    let (catalog, tables) = generator.head(alloc)?;
    give_loaded(alloc, generator, &catalog, &tables, out)?;
    Ok(catalog)
}

/// Gives the catalogue's line and these rows, which are those of the generator.
fn give_loaded<K: Sink>(
    alloc: Global,
    generator: &Generator,
    catalog: &Catalog,
    tables: &Tables,
    out: &mut K,
) -> Result<(), Cut>
    requires plan { catalog.now ≡ plan_of generator.now }
    requires rows { tables.now ≡ rows_of generator.now }
    ensures gives { Gives (K.given out.old) (K.given out.new) result (head_text generator.now) }
    ensures sink { K.faults out.old ≤ K.faults out.new }
    ensures cause { IfErr result (λ cut. IsCutBy cut (Rose (K.faults out.old) (K.faults out.new))) }
{
    give_catalog(alloc, generator, out)?;
    give_tables(alloc, catalog, tables, out)
}

/// Gives the line that names the catalogue.
fn give_catalog<K: Sink>(alloc: Global, generator: &Generator, out: &mut K) -> Result<(), Cut>
    ensures gives { Gives (K.given out.old) (K.given out.new) result (catalog_text generator.now) }
    ensures sink { K.faults out.old ≤ K.faults out.new }
    ensures cause { IfErr result (λ cut. IsCutBy cut (Rose (K.faults out.old) (K.faults out.new))) }
{
    let line = catalog_line(alloc, generator)?;
    out.give(&line)?;
    Ok(())
}

/// The line that names the catalogue.
fn catalog_line(alloc: Global, generator: &Generator) -> Result<Vec<u8>, Memory>
    ensures { IfOk result (λ line. line.items ≡ catalog_text generator.now) }
{
    let mut line = Vec::new(alloc);
    line.extend_from_slice(b"catalog ")?;
    line.extend_from_slice(generator.name())?;
    line.push(b'\n')?;
    Ok(line)
}

/// Gives the lines of all rows.
fn give_tables<K: Sink>(
    alloc: Global,
    catalog: &Catalog,
    tables: &Tables,
    out: &mut K,
) -> Result<(), Cut>
    ensures gives { Gives (K.given out.old) (K.given out.new) result (flat_map (row_text catalog.now.tables) (entries tables.now)) }
    ensures sink { K.faults out.old ≤ K.faults out.new }
    ensures cause { IfErr result (λ cut. IsCutBy cut (Rose (K.faults out.old) (K.faults out.new))) }
{
    let rows = tables.rows()?;
    give_rows(alloc, catalog.schema(), &rows, out)
}

/// Gives the lines of these rows, some at a time.
fn give_rows<K: Sink>(
    alloc: Global,
    tables: &Schema,
    rows: &[(&Key, &Row)],
    out: &mut K,
) -> Result<(), Cut>
    ensures gives { Gives (K.given out.old) (K.given out.new) result (flat_map (row_text tables.now) (map deref_pair rows.now)) }
    ensures sink { K.faults out.old ≤ K.faults out.new }
    ensures cause { IfErr result (λ cut. IsCutBy cut (Rose (K.faults out.old) (K.faults out.new))) }
{
    for piece in rows.chunks(ROWS_AT_ONCE) {
        give_piece(alloc, tables, piece, out)?;
    }
    Ok(())
}

/// Gives the lines of these rows at once.
fn give_piece<K: Sink>(
    alloc: Global,
    tables: &Schema,
    rows: &[(&Key, &Row)],
    out: &mut K,
) -> Result<(), Cut>
    ensures gives { Gives (K.given out.old) (K.given out.new) result (flat_map (row_text tables.now) (map deref_pair rows.now)) }
    ensures sink { K.faults out.old ≤ K.faults out.new }
    ensures cause { IfErr result (λ cut. IsCutBy cut (Rose (K.faults out.old) (K.faults out.new))) }
{
    let mut text = Vec::new(alloc);
    append_rows(&mut text, tables, rows)?;
    out.give(&text)?;
    Ok(())
}

/// Gives the batches, each at once.
fn give_batches<K: Sink>(
    alloc: Global,
    generator: &Generator,
    catalog: &Catalog,
    amount: Amount,
    out: &mut K,
) -> Result<(), Cut>
    requires within { IsWithin generator.now }
    requires plan { catalog.now ≡ plan_of generator.now }
    ensures gives { Gives (K.given out.old) (K.given out.new) result (batches_text (plan_of generator.now).procs 1 (calls_of generator.now amount.size amount.batches)) }
    ensures sink { K.faults out.old ≤ K.faults out.new }
    ensures cause { IfErr result (λ cut. IsCutBy cut (Rose (K.faults out.old) (K.faults out.new))) }
{
    let mut draws = generator.draws();
    for past in 0..amount.batches {
        give_batch(
            alloc,
            generator,
            catalog,
            &mut draws,
            past,
            amount.size,
            out,
        )?;
    }
    Ok(())
}

/// Gives the batch behind so many, whose calls come next in the words. Behind them `draws` stands at the
/// word that they did not use.
fn give_batch<K: Sink>(
    alloc: Global,
    generator: &Generator,
    catalog: &Catalog,
    draws: &mut Draws,
    past: u32,
    size: u32,
    out: &mut K,
) -> Result<(), Cut>
    requires within { IsWithin generator.now }
    requires plan { catalog.now ≡ plan_of generator.now }
    ensures gives { Gives (K.given out.old) (K.given out.new) result (batch_text (plan_of generator.now).procs (past + 1) (times size (request_of generator.now (past + 1)) draws.old).0) }
    ensures past { OnOk result (draws.new ≡ (times size (request_of generator.now (past + 1)) draws.old).1) }
    ensures sink { K.faults out.old ≤ K.faults out.new }
    ensures cause { IfErr result (λ cut. IsCutBy cut (Rose (K.faults out.old) (K.faults out.new))) }
{
    let number = u64::from(past) + 1;
    let calls = generator.batch(alloc, draws, number, size)?;
    let text = batch_lines(alloc, catalog.procs(), number, &calls)?;
    out.give(&text)?;
    Ok(())
}

/// The lines of the batch of this number with these calls.
fn batch_lines(
    alloc: Global,
    procs: &[Checked],
    number: u64,
    calls: &[Call],
) -> Result<Vec<u8>, Memory>
    ensures { IfOk result (λ text. text.items ≡ batch_text procs.now number calls.now) }
{
    let mut text = Vec::new(alloc);
    append_calls(&mut text, procs, calls)?;
    append_counted(&mut text, b"end ", number)?;
    Ok(text)
}

/// Appends the lines of these calls.
fn append_calls(text: &mut Vec<u8>, procs: &[Checked], calls: &[Call]) -> Result<(), Memory>
    ensures { OnOk result (text.new.items ≡ text.old.items ++ flat_map (call_text procs.now) calls.now) }
{
    for call in calls {
        append_call(text, procs, call)?;
        text.push(b'\n')?;
    }
    Ok(())
}
