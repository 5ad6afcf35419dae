// The built-in catalogues: how many tables and procedures each has, counted by hand, and their texts.
// The bank's text was written by hand, as docs/language.md shows it.
use cat_builtin::builtin;
use cat_read::read_catalog;
use cat_write::write_catalog;
use proc_lang::Catalog;
use std::alloc::Global;
use std::test::Fail;

const BANK: &str = concat!(
    r#"{"procs":["#,
    r#"{"args":["int","int"],"body":[["need","acct",[["arg",0]],[0],1],["put","acct",[["arg",0]],[["add",["reg",0],["arg",1]]]],["give",["add",["reg",0],["arg",1]]]],"name":"add","regs":["int"]},"#,
    r#"{"args":["int","int"],"body":[["need","acct",[["arg",0]],[0],1],["put","acct",[["arg",1]],[["reg",0]]],["give",["reg",0]]],"name":"copy","regs":["int"]},"#,
    r#"{"args":["int","int"],"body":[["put","acct",[["arg",0]],[["arg",1]]],["give",["arg",1]]],"name":"set","regs":[]},"#,
    r#"{"args":["int","int"],"body":[["need","acct",[["arg",0]],[0],1],["need","acct",[["arg",1]],[1],1],["give",["add",["reg",0],["reg",1]]]],"name":"sum","regs":["int","int"]},"#,
    r#"{"args":["int","int"],"body":[["need","acct",[["arg",0]],[0],1],["put","acct",[["reg",0]],[["arg",1]]],["give",["arg",1]]],"name":"hop","regs":["int"]},"#,
    r#"{"args":["int"],"body":[["del","acct",[["arg",0]]]],"name":"drop","regs":[]}"#,
    r#"],"tables":[{"cols":["int"],"key":["int"],"name":"acct"}]}"#,
);

/// Whether the catalogue's text is read, and written again as it was.
fn comes_again(alloc: Global, catalog: &Catalog) -> Result<bool, Fail> {
    let written = write_catalog(alloc, catalog)?;
    match read_catalog(alloc, written.as_slice()) {
        Ok(again) => Ok(write_catalog(alloc, &again)?.as_slice() == written.as_slice()),
        Err(_) => Ok(false),
    }
}

#[test]
fn the_bank_is_as_documented(rt: HostRuntime) -> Result<(), Fail> {
    let Some(bank) = builtin(rt.alloc(), b"bank")? else {
        return Err(Fail::new("there is no bank"));
    };
    let written = write_catalog(rt.alloc(), &bank)?;
    assert!(rt; written.as_slice() == BANK.as_bytes());
    Ok(())
}

#[test]
fn builtin_catalogues_are_read_again(rt: HostRuntime) -> Result<(), Fail> {
    for name in ["bank", "ycsb", "tpcc"] {
        let Some(catalog) = builtin(rt.alloc(), name.as_bytes())? else {
            return Err(Fail::new("a catalogue is missing"));
        };
        assert!(rt; comes_again(rt.alloc(), &catalog)?, "at {name}");
    }
    Ok(())
}

#[test]
fn three_names_have_catalogues(rt: HostRuntime) -> Result<(), Fail> {
    for (name, tables, procs) in [("bank", 1, 6), ("ycsb", 1, 1), ("tpcc", 11, 2)] {
        let Some(catalog) = builtin(rt.alloc(), name.as_bytes())? else {
            return Err(Fail::new("a catalogue is missing"));
        };
        assert_eq!(rt; catalog.schema().as_slice().len(), tables, "at {name}");
        assert_eq!(rt; catalog.procs().len(), procs, "at {name}");
    }
    Ok(())
}

#[test]
fn no_other_name_has_one(rt: HostRuntime) -> Result<(), Fail> {
    for name in ["", "Bank", "ban", "bank ", "ycs", "tpcc2"] {
        let found = builtin(rt.alloc(), name.as_bytes())?;
        assert!(rt; found.is_none(), "at {name:?}");
    }
    Ok(())
}
