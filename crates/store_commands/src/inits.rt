// The command `init`.
ghost use Rattle.std.specs.Prelude.{◌≡◌, ◌≢◌, ◌≤◌, ◌⊎◌, [], Err, Ok, IfOk, IfErr};
ghost use Rattle.std.specs.Option.{IfSome, IsSomeAnd};
ghost use Rattle.std.specs.Io.KnownBytes.{Appends, IsAtEnd};
ghost use Rattle.aria_base.specs.Faults.{Rose};
ghost use Rattle.aria_base.specs.Schemas.{IsConsistent};
ghost use Rattle.aria_base.specs.declared.limits.TheConstants.{MOST_PERCENT};
ghost use Rattle.script_course.specs.Causes.{IsCause, IsReadCause};
ghost use Rattle.script_course.specs.declared.stops.Stop.TheVariants as stop;
ghost use Rattle.slot_images.specs.Said.{checkpoint_in};
ghost use Rattle.script_places.specs.Places.{closing, plan_in};
ghost use Rattle.script_rows.specs.Drafts.{IsFitting};
ghost use Rattle.store_commands.specs.Drafts.{values_by};
ghost use Rattle.store_commands.specs.Inits.{Ends, Inits, IsMade, IsMadeOf, IsUngiven, Leaves, first_checkpoint, on_end, store_out};
ghost use Rattle.script_course.specs.declared.statuses.TheConstants as status;

use answer_text::{NotDone, ready_line, refused_line};
use aria_base::{Sink, Source};
use aria_store::{Image, Store, StoreRefused};
use command_words::Init;
use disk_model::Disk;
use script_course::{DONE, STORE_REFUSED, Stop, end_with, refuse};
use script_places::{Mode, ScriptCatalog, catalog_in, closes};
use script_rows::{Draft, read_rows};
use script_text::LinesRefused;
use std::alloc::Global;
use tbl_rows::Tables;

/// Reads the head that the source gives to its end, and then makes the store of its catalogue and its rows,
/// by these settings. Where a gate is open and `over` was not given, there is a store already, and nothing
/// is written.
pub fn init<S: Source, K: Sink, D: Disk>(
    alloc: Global,
    settings: &Init,
    input: &mut S,
    out: &mut K,
    disk: &mut D,
) -> Result<u8, Stop>
    requires { settings.now.fallback ≤ MOST_PERCENT }

    // What is printed is the output of the text, by whether a gate was open; where it was cut off, a prefix
    // of it was printed, and where the source failed, nothing. Where that output says that no store is made,
    // every image meanwhile is one from before, whatever the answer is. Where it says that one is made, and
    // a byte of it was given, the store is made, whatever the answer is.
    ensures inits { Inits settings.now (D.history disk.old) (D.history disk.new) (S.left input.old) (S.left input.new) (K.given out.old)
        (K.given out.new) result }

    // What the disk holds.
    ensures made { result ≡ Ok status.DONE → IsMade settings.now (S.left input.old) (D.history disk.new) }
    ensures leaves { Leaves D.history disk.old disk.new result }

    // Where the disk failed, nothing was given: no line told of a store.
    ensures ungiven { IfSome (S.left input.old) (λ _. result ≡ Err stop.NoDisk → Appends (K.given out.old) (K.given out.new) []) }

    // Where nothing was in the way, the store is made or refused, and the input was read to its end.
    ensures status { IfOk result (λ ending. (ending ≡ status.DONE) ⊎ (ending ≡ status.STORE_REFUSED)) }
    ensures end { IfOk result (λ _. IsAtEnd (S.left input.new)) }

    // Each stop for a fault has its cause.
    ensures source { S.faults input.old ≤ S.faults input.new }
    ensures sink { K.faults out.old ≤ K.faults out.new }
    ensures cause { IfErr result (λ stop. IsReadCause stop (Rose (S.faults input.old) (S.faults input.new))
        (Rose (K.faults out.old) (K.faults out.new)) (Rose (D.history disk.old).faults (D.history disk.new).faults)) }
{
    match read_rows(alloc, Mode::Init, input, out) {
        Ok(last) => close(alloc, settings, last, out, disk),
        Err(stop) => Err(stop),
    }
}

/// The end of the head, where one more line is refused if the text of a catalogue is.
fn close<K: Sink, D: Disk>(
    alloc: Global,
    settings: &Init,
    last: Draft,
    out: &mut K,
    disk: &mut D,
) -> Result<u8, Stop>
    requires fallback { settings.now.fallback ≤ MOST_PERCENT }
    requires fitting { IsFitting last }
    ensures ends { Ends (λ taken. on_end settings.now taken last) (IsSomeAnd (values_by last (closing last.place))
        (λ values. IsMadeOf settings.now values (D.history disk.new))) (D.history disk.old) (D.history disk.new) (K.given out.old) (K.given out.new) result }
    ensures made { result ≡ Ok status.DONE → IsSomeAnd (values_by last (closing last.place)) (λ values. IsMadeOf settings.now values (D.history disk.new)) }
    ensures leaves { Leaves D.history disk.old disk.new result }
    ensures ungiven { IsUngiven (K.given out.old) (K.given out.new) result }
    ensures status { IfOk result (λ ending. (ending ≡ status.DONE) ⊎ (ending ≡ status.STORE_REFUSED)) }
    ensures read { result ≢ Err stop.NoRead }
    ensures sink { K.faults out.old ≤ K.faults out.new }
    ensures cause { IfErr result (λ stop. IsCause stop (Rose (K.faults out.old) (K.faults out.new))
        (Rose (D.history disk.old).faults (D.history disk.new).faults)) }
{
    closes();
    let Draft { place, tables } = last;
    match place.close(alloc) {
        Ok(place) => make(alloc, settings, place.head, tables, out, disk),
        Err(LinesRefused::Memory) => Err(Stop::NoMemory),
        Err(LinesRefused::Line(refusal)) => refuse(alloc, &refusal, out),
    }
}

/// Makes the store of this catalogue and these rows, unless there is one that may not be written over.
fn make<K: Sink, D: Disk>(
    alloc: Global,
    settings: &Init,
    head: ScriptCatalog,
    tables: Tables,
    out: &mut K,
    disk: &mut D,
) -> Result<u8, Stop>
    requires fallback { settings.now.fallback ≤ MOST_PERCENT }
    requires rows { IsConsistent (plan_in head).tables tables }
    ensures ends { Ends (store_out settings.now) (IsMadeOf settings.now (plan_in head, tables) (D.history disk.new)) (D.history disk.old)
        (D.history disk.new) (K.given out.old) (K.given out.new) result }
    ensures made { result ≡ Ok status.DONE → IsMadeOf settings.now (plan_in head, tables) (D.history disk.new) }
    ensures leaves { Leaves D.history disk.old disk.new result }
    ensures ungiven { IsUngiven (K.given out.old) (K.given out.new) result }
    ensures status { IfOk result (λ ending. (ending ≡ status.DONE) ⊎ (ending ≡ status.STORE_REFUSED)) }
    ensures read { result ≢ Err stop.NoRead }
    ensures sink { K.faults out.old ≤ K.faults out.new }
    ensures cause { IfErr result (λ stop. IsCause stop (Rose (K.faults out.old) (K.faults out.new))
        (Rose (D.history disk.old).faults (D.history disk.new).faults)) }
{
    let image = first_image(alloc, settings, head, tables);
    match Store::create(alloc, disk, settings.over, &image) {
        Ok(_) => end_with(DONE, ready_line(), out),
        Err(StoreRefused::Exists) => {
            end_with(STORE_REFUSED, refused_line(NotDone::StoreExists), out)
        }
        Err(StoreRefused::Memory) => Err(Stop::NoMemory),
        Err(StoreRefused::DiskFault) => Err(Stop::NoDisk),
        Err(StoreRefused::NoStore | StoreRefused::Damaged { .. } | StoreRefused::Closed { .. }) => {
            unreachable!()
        }
    }
}

/// The first checkpoint of this catalogue and these rows. No memory.
fn first_image(alloc: Global, settings: &Init, head: ScriptCatalog, tables: Tables) -> Image
    ensures { checkpoint_in result ≡ first_checkpoint settings.now (plan_in head, tables) }
{
    Image {
        format: 2,
        rule: settings.rule,
        fallback: settings.fallback,
        generation: 1,
        batches: 0,
        requests: 0,
        catalog: catalog_in(alloc, head),
        tables,
        held: Vec::new(alloc),
    }
}
