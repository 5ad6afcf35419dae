// What the next line of a script for nodes asks for.
ghost use Rattle.std.specs.Prelude.{◌≡◌, false, if◌then◌else◌, Ok, Err, IfOk};
ghost use Rattle.script_places.specs.Places.{is_check};
ghost use Rattle.script_text.specs.Answers.{Answers};
ghost use Rattle.script_text.specs.Forms.{said};
ghost use Rattle.script_text.specs.Lines.{line_after};
ghost use Rattle.nodes_command.specs.Asks.{asked_among, is_call, is_of_text, is_set, is_settings, within_all, without_settings};
ghost use Rattle.script_text.specs.declared.refusals.RefusalKind.TheVariants as kind;

use aria_base::{MOST_REQUESTS, Memory};
use script_places::{Counts, Deed, ScriptPlace};
use script_text::{Item, LinesRefused, Refusal, RefusalKind, read_line, refused};
use std::alloc::Global;

/// What the next line asks for, and the place behind it, where the script had so many calls before: what it asks for in a script
/// for one database, but that a line of settings is refused as one that has no place there, and the call behind the 10,000th as
/// one that has no room. A refusal has the line's number.
pub(crate) fn ask_among(
    alloc: Global,
    place: ScriptPlace,
    counts: Counts,
    called: u64,
    line: &[u8],
) -> Result<(ScriptPlace, Deed), LinesRefused>
    requires mode { is_check place.mode ≡ false }
    requires silent { place.reports ≡ false }
    ensures { Answers (asked_among called place counts line.now) (line_after place.lines) result }
{
    let number = place.lines.saturating_add(1);
    match place.ask(alloc, counts, line) {
        Ok(asked) => allow(number, called, asked),
        Err(LinesRefused::Memory) => Err(LinesRefused::Memory),
        Err(LinesRefused::Line(refusal)) => refuse_among(alloc, refusal, line),
    }
}

/// What a line asks for, unless it is refused on nodes alone.
fn allow(
    line: u64,
    called: u64,
    asked: (ScriptPlace, Deed),
) -> Result<(ScriptPlace, Deed), LinesRefused>
    ensures { Answers (if is_set asked.1 then Err kind.Site else within_all called (Ok asked)) line result }
{
    if is_set(&asked.1) {
        return Err(refused(line, RefusalKind::Site));
    }
    if is_call(&asked.1) && called >= MOST_REQUESTS as u64 {
        return Err(refused(line, RefusalKind::Batch));
    }
    Ok(asked)
}

/// The refusal of a line that is refused in a script for one database.
fn refuse_among(
    alloc: Global,
    refusal: Refusal,
    line: &[u8],
) -> Result<(ScriptPlace, Deed), LinesRefused>
    ensures { Answers (if is_settings (said line.now) then without_settings (Err refusal.kind) else Err refusal.kind) refusal.line result }
{
    if is_of_text(&refusal.kind) {
        return Err(LinesRefused::Line(refusal));
    }
    if is_settings(alloc, line, refusal.line)? {
        return Err(refused(refusal.line, RefusalKind::Site));
    }
    Err(LinesRefused::Line(refusal))
}

/// Whether the line has the form of settings.
fn is_settings(alloc: Global, line: &[u8], number: u64) -> Result<bool, Memory>
    ensures { IfOk result (λ is. is ≡ is_settings (said line.now)) }
{
    match read_line(alloc, line, number) {
        Ok(Item::Settings { .. }) => Ok(true),
        Ok(_) => Ok(false),
        Err(LinesRefused::Memory) => Err(Memory),
        Err(LinesRefused::Line(_)) => Ok(false),
    }
}

/// Whether the text of a catalogue is refused.
fn is_of_text(kind: &RefusalKind) -> bool
    ensures { result ≡ is_of_text kind.now }
{
    matches!(kind, RefusalKind::Catalog(_))
}

/// Whether settings are asked for.
fn is_set(deed: &Deed) -> bool
    ensures { result ≡ is_set deed.now }
{
    matches!(deed, Deed::Set { .. })
}

/// Whether a call is asked for.
fn is_call(deed: &Deed) -> bool
    ensures { result ≡ is_call deed.now }
{
    matches!(deed, Deed::Call(_))
}
