// Refusals, and lines that stand alone.
use crate::checks::same;
use answer_text::{
    NotDone, append_at, append_damaged, append_kept, print_refusal, ready_line, refused_line,
};
use aria_base::Memory;
use script_text::{CatFault, Refusal, RefusalKind};
use std::alloc::Global;
use std::test::Fail;

/// The kinds of refusal, but for those of a catalogue that a text tells.
const KINDS: [(RefusalKind, &str); 12] = [
    (RefusalKind::Long, "refused 3 long\n"),
    (RefusalKind::Byte, "refused 3 byte\n"),
    (RefusalKind::Word, "refused 3 word\n"),
    (RefusalKind::Name, "refused 3 name\n"),
    (RefusalKind::Argument, "refused 3 argument\n"),
    (RefusalKind::Site, "refused 3 place\n"),
    (RefusalKind::Unfinished, "refused 3 unfinished\n"),
    (RefusalKind::Size, "refused 3 size\n"),
    (RefusalKind::Batch, "refused 3 batch\n"),
    (
        RefusalKind::Gap {
            got: u64::MAX,
            wanted: 2,
        },
        "refused 3 gap 18446744073709551615 2\n",
    ),
    (RefusalKind::Numbers, "refused 3 numbers\n"),
    (
        RefusalKind::Catalog(CatFault::Long),
        "refused 3 catalog long\n",
    ),
];

#[test]
fn each_refusal_has_its_line(rt: HostRuntime) -> Result<(), Fail> {
    for (kind, said) in KINDS {
        let found = print_refusal(rt.alloc(), &Refusal { line: 3, kind })?;
        same(&rt, "a refusal", &found, said);
    }
    Ok(())
}

/// Lines of commands.
const NOTICES: &str = "ready
refused usage
refused store none
refused store exists
refused store 3 18
at 0
batch 4611686018427387904 kept
";

fn notices(alloc: Global) -> Result<Vec<u8>, Memory> {
    let mut out = Vec::from_slice(alloc, ready_line())?;
    for refused in [NotDone::Usage, NotDone::NoStore, NotDone::StoreExists] {
        out.extend_from_slice(refused_line(refused))?;
    }
    append_damaged(&mut out, 3, 18)?;
    append_at(&mut out, 0)?;
    append_kept(&mut out, 1 << 62)?;
    Ok(out)
}

#[test]
fn commands_have_lines_of_their_own(rt: HostRuntime) -> Result<(), Fail> {
    same(&rt, "commands", &notices(rt.alloc())?, NOTICES);
    Ok(())
}
