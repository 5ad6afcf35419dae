// What no clause shows: that catalogues are written where there is memory, and that the definitions say
// the stated form. The texts were written by hand.
use cat_read::read_catalog;
use cat_write::write_catalog;
use std::test::Fail;

const EMPTY: &str = r#"{"procs":[],"tables":[]}"#;

/// The same catalogue in other words.
const EMPTY_OTHERWISE: &str = r#" { "tables" : [ ], "pr\u006fcs" : [ ] } "#;

/// Each kind of value and argument.
const KINDS: &str = concat!(
    r#"{"procs":[{"args":["int","text","list1","list2","list3","list4","list5"],"body":[],"#,
    r#""name":"p_1","regs":["int","text"]},{"args":[],"body":[],"name":"q","regs":[]}],"#,
    r#""tables":[{"cols":["text","int"],"key":["int","text"],"name":"a"}]}"#,
);

/// Each statement, over two tables.
const STATEMENTS: &str = concat!(
    r#"{"procs":[{"args":["int","text","list1"],"body":["#,
    r#"["let",1,["arg",0]],"#,
    r#"["get","a",[0],[0]],"#,
    r#"["need","b",[1,"k"],[1,2],999],"#,
    r#"["find","b",[["arg",0],["arg",1]],[1,2],0],"#,
    r#"["put","a",[["reg",0]],[5]],"#,
    r#"["put","b",[7,""],[8,"z"]],"#,
    r#"["del","b",[2,"k"]],"#,
    r#"["if",["reg",0],[["give",1],["give",2]],[["fail",404]]],"#,
    r#"["if",0,[],[["each",2,[["give",["item",0]]]]]],"#,
    r#"["give",["reg",2]],"#,
    r#"["fail",1]"#,
    r#"],"name":"p","regs":["int","int","text"]}],"#,
    r#""tables":[{"cols":["int"],"key":["int"],"name":"a"},"#,
    r#"{"cols":["int","text"],"key":["int","text"],"name":"b"}]}"#,
);

/// Each expression.
const EXPRESSIONS: &str = concat!(
    r#"{"procs":[{"args":["int","text","list3"],"body":["#,
    r#"["let",0,-9223372036854775808],["give",9223372036854775807],["let",1,"a 'B' /~"],"#,
    r#"["give",["reg",0]],["give",["arg",1]],["give",["len",2]],["each",2,[["give",["item",2]]]],"#,
    r#"["give",["me"]],["give",["add",1,2]],["give",["sub",1,2]],["give",["mul",1,2]],"#,
    r#"["give",["div",1,2]],["give",["mod",1,2]],["give",["muldiv",1,2,3]],"#,
    r#"["give",["eq","a","b"]],["give",["ne",1,2]],["give",["lt",1,2]],["give",["le",1,2]],"#,
    r#"["give",["and",1,0]],["give",["or",1,0]],["give",["not",["not",["reg",0]]]],"#,
    r#"["give",["cat",["show",-1],["front",["reg",1],"c",500]]]"#,
    r#"],"name":"p","regs":["int","text"]}],"tables":[]}"#,
);

#[test]
fn catalogues_are_written(rt: HostRuntime) -> Result<(), Fail> {
    for (text, wanted) in [
        (EMPTY, EMPTY),
        (EMPTY_OTHERWISE, EMPTY),
        (KINDS, KINDS),
        (STATEMENTS, STATEMENTS),
        (EXPRESSIONS, EXPRESSIONS),
    ] {
        match read_catalog(rt.alloc(), text.as_bytes()) {
            Ok(catalog) => {
                let written = write_catalog(rt.alloc(), &catalog)?;
                assert!(rt; written.as_slice() == wanted.as_bytes(), "{wanted}");
            }
            Err(_) => assert!(rt; false, "{text}"),
        }
    }
    Ok(())
}
