// What texts are read as, worked out by hand.
use cat_read::{CatRefused, read_catalog};
use proc_lang::{Path, PathPart};
use std::alloc::{AllocError, Global};
use std::test::Fail;

/// Whole texts and what they are read as.
const TEXTS: [(&str, &str); 36] = [
    (r#"{"tables":[],"procs":[]}"#, "catalogue"),
    (r#"{"tables":[],"procs":7,"procs":[]}"#, "catalogue"),
    (
        r#"{"procs":[{"name":"who","args":["text","list5"],"regs":[],"body":[["put","who",[["arg",0]],[7]]]}],"tables":[{"cols":["int"],"key":["text"],"name":"who"}]}"#,
        "catalogue",
    ),
    ("", "json"),
    ("{", "json"),
    (r#"{"tables":[],"procs":[]} 1"#, "json"),
    (r#""\ud800""#, "json"),
    ("[]", "shape /"),
    (r#"{"tables":[]}"#, "shape /"),
    (r#"{"tables":[],"procs":[],"x":1}"#, "shape /"),
    (r#"{"tables":{},"procs":[]}"#, "shape /tables"),
    (r#"{"tables":[],"procs":7}"#, "shape /procs"),
    (r#"{"tables":[7],"procs":7}"#, "shape /tables/0"),
    (
        r#"{"tables":[{"name":"a","key":["int"]}],"procs":[]}"#,
        "shape /tables/0",
    ),
    (
        r#"{"tables":[{"name":"a","key":["int"],"cols":[],"x":0}],"procs":[]}"#,
        "shape /tables/0",
    ),
    (
        r#"{"tables":[{"name":"A","key":[],"cols":7}],"procs":[]}"#,
        "shape /tables/0/name",
    ),
    (
        r#"{"tables":[{"name":"sixteen_letters1","key":0,"cols":[]}],"procs":[]}"#,
        "shape /tables/0/key",
    ),
    (
        r#"{"tables":[{"name":"seventeen_letters","key":0,"cols":[]}],"procs":[]}"#,
        "shape /tables/0/name",
    ),
    (
        r#"{"tables":[{"name":"a","key":["int"],"cols":[]},{"name":"a","key":[],"cols":[]}],"procs":[]}"#,
        "shape /tables/1/name",
    ),
    (
        r#"{"tables":[{"name":"a","key":[],"cols":7}],"procs":[]}"#,
        "shape /tables/0/key",
    ),
    (
        r#"{"tables":[{"name":"a","key":["int","list1"],"cols":[]}],"procs":[]}"#,
        "shape /tables/0/key/1",
    ),
    (
        r#"{"tables":[{"name":"a","key":["int"],"cols":null}],"procs":[]}"#,
        "shape /tables/0/cols",
    ),
    (
        r#"{"tables":[{"name":"a","key":["int"],"cols":["text",1]}],"procs":[]}"#,
        "shape /tables/0/cols/1",
    ),
    (r#"{"tables":[],"procs":[{}]}"#, "shape /procs/0"),
    (
        r#"{"tables":[],"procs":[{"name":"p","args":[],"regs":[],"body":[],"x":0}]}"#,
        "shape /procs/0",
    ),
    (
        r#"{"tables":[],"procs":[{"name":7,"args":7,"regs":[],"body":[]}]}"#,
        "shape /procs/0/name",
    ),
    (
        r#"{"tables":[],"procs":[{"name":"p","args":"int","regs":7,"body":[]}]}"#,
        "shape /procs/0/args",
    ),
    (
        r#"{"tables":[],"procs":[{"name":"p","args":["list6"],"regs":7,"body":[]}]}"#,
        "shape /procs/0/args/0",
    ),
    (
        r#"{"tables":[],"procs":[{"name":"p","args":[],"regs":{},"body":7}]}"#,
        "shape /procs/0/regs",
    ),
    (
        r#"{"tables":[],"procs":[{"name":"p","args":[],"regs":["int","list1"],"body":7}]}"#,
        "shape /procs/0/regs/1",
    ),
    (
        r#"{"tables":[],"procs":[{"name":"p","args":[],"regs":[],"body":{}}]}"#,
        "shape /procs/0/body",
    ),
    (
        r#"{"tables":[],"procs":[{"name":"p","args":[],"regs":[],"body":[]},{"name":"p","args":[],"regs":[],"body":[]}]}"#,
        "shape /procs/1/name",
    ),
    (
        r#"{"tables":[],"procs":[{"name":"p","args":[],"regs":[],"body":[["del","t",[]]]},7]}"#,
        "shape /procs/1",
    ),
    (
        r#"{"tables":[],"procs":[{"name":"p","args":[],"regs":["int"],"body":[["give",["reg",0]]]}]}"#,
        "wrong 0 0 5",
    ),
    (
        r#"{"tables":[],"procs":[{"name":"p","args":[],"regs":[],"body":[]},{"name":"q","args":[],"regs":[],"body":[["give",1],["del","t",[]]]}]}"#,
        "wrong 1 1 1",
    ),
    (
        r#"{"tables":[],"procs":[{"name":"p","args":[],"regs":[],"body":[["give",["arg",0]]]},{"name":"q","args":[],"regs":[],"body":[["del","t",[]]]}]}"#,
        "wrong 0 0 6",
    ),
];

/// What stands before and behind the body of the one procedure of a catalogue with the table `t`.
const FRONT: &str =
    r#"{"tables":[{"name":"t","key":["int"],"cols":["int"]}],"procs":[{"name":"p","args":["int"],"regs":["int"],"body":"#;

const BACK: &str = "}]}";

/// Bodies and what the catalogue is read as.
const BODIES: [(&str, &str); 56] = [
    ("[7]", "shape /procs/0/body/0"),
    ("[[]]", "shape /procs/0/body/0"),
    (r#"[["give"]]"#, "shape /procs/0/body/0"),
    (r#"[["give",null,2]]"#, "shape /procs/0/body/0"),
    (r#"[["gave",1]]"#, "shape /procs/0/body/0"),
    (r#"[["give",1],["give",null]]"#, "shape /procs/0/body/1/1"),
    (r#"[["give",1.0]]"#, "shape /procs/0/body/0/1"),
    (r#"[["give",-0]]"#, "shape /procs/0/body/0/1"),
    (r#"[["give",1e2]]"#, "shape /procs/0/body/0/1"),
    (
        r#"[["give",9223372036854775808]]"#,
        "shape /procs/0/body/0/1",
    ),
    (
        r#"[["give",18446744073709551616]]"#,
        "shape /procs/0/body/0/1",
    ),
    (
        r#"[["give",-9223372036854775809]]"#,
        "shape /procs/0/body/0/1",
    ),
    (r#"[["give","\u0007"]]"#, "shape /procs/0/body/0/1"),
    (r#"[["give",["add",null]]]"#, "shape /procs/0/body/0/1"),
    (r#"[["give",["add",1,true]]]"#, "shape /procs/0/body/0/1/2"),
    (
        r#"[["give",["muldiv",1,2,[3]]]]"#,
        "shape /procs/0/body/0/1/3",
    ),
    (
        r#"[["give",["not",["eq",["show",{}],["lt",[],2]]]]]"#,
        "shape /procs/0/body/0/1/1/1/1",
    ),
    (r#"[["give",["me",1]]]"#, "shape /procs/0/body/0/1"),
    (
        r#"[["give",["reg",4294967296]]]"#,
        "shape /procs/0/body/0/1",
    ),
    (r#"[["give",["item","0"]]]"#, "shape /procs/0/body/0/1"),
    (
        r#"[["give",["front","a",{},501]]]"#,
        "shape /procs/0/body/0/1/2",
    ),
    (
        r#"[["give",["front","a","b",501]]]"#,
        "shape /procs/0/body/0/1",
    ),
    (r#"[["fail",1000]]"#, "shape /procs/0/body/0"),
    (r#"[["fail",0]]"#, "shape /procs/0/body/0"),
    (r#"[["let",-1,null]]"#, "shape /procs/0/body/0"),
    (r#"[["let",0,["neg",1]]]"#, "shape /procs/0/body/0/2"),
    (r#"[["get",1,[null],[0]]]"#, "shape /procs/0/body/0"),
    (r#"[["get","t",1,[0]]]"#, "shape /procs/0/body/0"),
    (r#"[["get","t",[1,null],0]]"#, "shape /procs/0/body/0/2/1"),
    (r#"[["get","t",[1],0]]"#, "shape /procs/0/body/0"),
    (r#"[["get","t",[1],["0"]]]"#, "shape /procs/0/body/0"),
    (r#"[["need","t",[1],[0],1000]]"#, "shape /procs/0/body/0"),
    (r#"[["find","t",[1],[0]]]"#, "shape /procs/0/body/0"),
    (r#"[["find","t",[1],[0],"0"]]"#, "shape /procs/0/body/0"),
    (r#"[["put","t",[1],7]]"#, "shape /procs/0/body/0"),
    (r#"[["put","t",[1],[[]]]]"#, "shape /procs/0/body/0/3/0"),
    (
        r#"[["del","t",[["cat","a",{}]]]]"#,
        "shape /procs/0/body/0/2/0/2",
    ),
    (r#"[["if",{},[7],[]]]"#, "shape /procs/0/body/0/1"),
    (r#"[["if",1,[7],0]]"#, "shape /procs/0/body/0/2/0"),
    (r#"[["if",1,[],0]]"#, "shape /procs/0/body/0"),
    (r#"[["if",1,[],[["give"]]]]"#, "shape /procs/0/body/0/3/0"),
    (r#"[["each",-1,[7]]]"#, "shape /procs/0/body/0"),
    (r#"[["each",0,null]]"#, "shape /procs/0/body/0"),
    (
        r#"[["each",0,[["give",1],["x"]]]]"#,
        "shape /procs/0/body/0/2/1",
    ),
    (r#"[["del","no word",[1]]]"#, "wrong 0 0 1"),
    (r#"[["del","t",[]]]"#, "wrong 0 0 2"),
    (r#"[["put","t",[1],[]]]"#, "wrong 0 0 3"),
    (r#"[["give",["add",1,"a"]]]"#, "wrong 0 0 4"),
    (r#"[["give",["reg",0]]]"#, "wrong 0 0 5"),
    (r#"[["give",["reg",4294967295]]]"#, "wrong 0 0 5"),
    (r#"[["give",["arg",1]]]"#, "wrong 0 0 6"),
    (
        r#"[["if",1,[["if",1,[["if",1,[["if",1,[["if",1,[],[]]],[]]],[]]],[]]],[]]]"#,
        "wrong 0 4 7",
    ),
    (
        r#"[["if",1,[["give",1]],[["let",0,"a"]]],["del","u",[1]]]"#,
        "wrong 0 2 4",
    ),
    (
        r#"[["get","t",[["arg",0]],[0]],["give",["reg",0]]]"#,
        "catalogue",
    ),
    (
        r#"[["give",-9223372036854775808],["give",9223372036854775807]]"#,
        "catalogue",
    ),
    (r#"[["need","t",[1],[0],999],["fail",1]]"#, "catalogue"),
];

/// What stands before and behind the items of an array, how many there may be, and its place.
const LIMITS: [(&str, usize, &str, &str); 6] = [
    (r#"{"tables":["#, 256, r#"],"procs":[]}"#, "/tables"),
    (
        r#"{"tables":[{"name":"t","key":["#,
        5,
        r#"],"cols":[]}],"procs":[]}"#,
        "/tables/0/key",
    ),
    (
        r#"{"tables":[{"name":"t","key":["int"],"cols":["#,
        16,
        r#"]}],"procs":[]}"#,
        "/tables/0/cols",
    ),
    (r#"{"tables":[],"procs":["#, 256, "]}", "/procs"),
    (
        r#"{"tables":[],"procs":[{"name":"p","args":["#,
        16,
        r#"],"regs":[],"body":[]}]}"#,
        "/procs/0/args",
    ),
    (
        r#"{"tables":[],"procs":[{"name":"p","args":[],"regs":["#,
        64,
        r#"],"body":[]}]}"#,
        "/procs/0/regs",
    ),
];

/// A text that is long or deep: `head`, so many times `open`, `middle`, as many times `close`, `tail`;
/// and what it is read as.
struct Long {
    head: &'static str,
    open: &'static str,
    count: usize,
    middle: &'static str,
    close: &'static str,
    tail: &'static str,
    wanted: &'static str,
}

/// Nested arrays, digits, statements up to the most, expressions down to the deepest, and texts.
const LONGS: [Long; 14] = [
    Long {
        head: "",
        open: "[",
        count: 1_048_576,
        middle: "",
        close: "",
        tail: "",
        wanted: "json",
    },
    Long {
        head: "",
        open: "[",
        count: 300,
        middle: "",
        close: "]",
        tail: "",
        wanted: "json",
    },
    Long {
        head: "",
        open: "[",
        count: 128,
        middle: "",
        close: "]",
        tail: "",
        wanted: "json",
    },
    Long {
        head: "",
        open: "[",
        count: 127,
        middle: "",
        close: "]",
        tail: "",
        wanted: "shape /",
    },
    Long {
        head: "",
        open: "9",
        count: 1000,
        middle: "",
        close: "",
        tail: "",
        wanted: "json",
    },
    Long {
        head: "0.",
        open: "9",
        count: 1000,
        middle: "",
        close: "",
        tail: "",
        wanted: "shape /",
    },
    Long {
        head: r#"{"tables":[],"procs":[{"name":"p","args":[],"regs":[],"body":["#,
        open: r#"["fail",1],"#,
        count: 999,
        middle: r#"["fail",1]"#,
        close: "",
        tail: "]}]}",
        wanted: "catalogue",
    },
    Long {
        head: r#"{"tables":[],"procs":[{"name":"p","args":[],"regs":[],"body":["#,
        open: r#"["fail",1],"#,
        count: 999,
        middle: "7",
        close: "",
        tail: "]}]}",
        wanted: "shape /procs/0/body/999",
    },
    Long {
        head: r#"{"tables":[],"procs":[{"name":"p","args":[],"regs":[],"body":["#,
        open: r#"["fail",1],"#,
        count: 1000,
        middle: r#"["fail",1]"#,
        close: "",
        tail: "]}]}",
        wanted: "shape /procs/0/body",
    },
    Long {
        head: r#"{"tables":[],"procs":[{"name":"p","args":[],"regs":[],"body":[["if",1,[],["#,
        open: r#"["fail",1],"#,
        count: 999,
        middle: r#"["fail",1]"#,
        close: "",
        tail: "]]]}]}",
        wanted: "shape /procs/0/body",
    },
    Long {
        head: r#"{"tables":[],"procs":[{"name":"p","args":[],"regs":[],"body":[["give","#,
        open: r#"["not","#,
        count: 15,
        middle: "1",
        close: "]",
        tail: "]]}]}",
        wanted: "catalogue",
    },
    Long {
        head: r#"{"tables":[],"procs":[{"name":"p","args":[],"regs":[],"body":[["give","#,
        open: r#"["not","#,
        count: 16,
        middle: "1",
        close: "]",
        tail: "]]}]}",
        wanted: "shape /procs/0/body/0/1/1/1/1/1/1/1/1/1/1/1/1/1/1/1/1/1",
    },
    Long {
        head: r#"{"tables":[],"procs":[{"name":"p","args":[],"regs":[],"body":[["give",""#,
        open: "a",
        count: 500,
        middle: "",
        close: "",
        tail: r#""]]}]}"#,
        wanted: "catalogue",
    },
    Long {
        head: r#"{"tables":[],"procs":[{"name":"p","args":[],"regs":[],"body":[["give",""#,
        open: "a",
        count: 501,
        middle: "",
        close: "",
        tail: r#""]]}]}"#,
        wanted: "shape /procs/0/body/0/1",
    },
];

/// The path in print.
fn printed(alloc: Global, path: &Path) -> Result<String, AllocError> {
    let mut text = String::new(alloc);
    if path.as_slice().is_empty() {
        text.push_str("/")?;
    }
    for part in path.as_slice() {
        match part {
            PathPart::Member(name) => {
                text.push_str("/")?;
                text.push_str(str::from_utf8(name.as_slice()).unwrap_or("?"))?;
            }
            PathPart::Place(place) => write!(text, "/{place}")?,
        }
    }
    Ok(text)
}

/// What the text is read as, in words.
fn answer(alloc: Global, text: &str) -> Result<String, AllocError> {
    match read_catalog(alloc, text.as_bytes()) {
        Ok(_) => String::from_str(alloc, "catalogue"),
        Err(CatRefused::Memory) => String::from_str(alloc, "memory"),
        Err(CatRefused::NotJson) => String::from_str(alloc, "json"),
        Err(CatRefused::Shape(path)) => {
            let path = printed(alloc, &path)?;
            format!(in alloc; "shape {path}")
        }
        Err(CatRefused::Wrong(wrong)) => {
            let (proc, place, cause) = (wrong.proc, wrong.place, wrong.cause);
            format!(in alloc; "wrong {proc} {place} {cause}")
        }
    }
}

/// The text, so often.
fn repeated(alloc: Global, text: &str, count: usize) -> Result<String, AllocError> {
    let mut all = String::new(alloc);
    for _ in 0..count {
        all.push_str(text)?;
    }
    Ok(all)
}

/// The text that the row says.
fn spelled(alloc: Global, long: &Long) -> Result<String, AllocError> {
    let Long {
        head,
        middle,
        tail,
        ..
    } = long;
    let open = repeated(alloc, long.open, long.count)?;
    let close = repeated(alloc, long.close, long.count)?;
    format!(in alloc; "{head}{open}{middle}{close}{tail}")
}

#[test]
fn texts_are_read(rt: HostRuntime) -> Result<(), Fail> {
    for (text, wanted) in &TEXTS {
        let found = answer(rt.alloc(), text)?;
        assert_eq!(rt; found.as_str(), *wanted, "{text}");
    }
    assert!(rt; matches!(read_catalog(rt.alloc(), &[0xff]), Err(CatRefused::NotJson)));
    Ok(())
}

#[test]
fn bodies_are_read(rt: HostRuntime) -> Result<(), Fail> {
    for (body, wanted) in &BODIES {
        let text = format!(in rt.alloc(); "{FRONT}{body}{BACK}")?;
        let found = answer(rt.alloc(), &text)?;
        assert_eq!(rt; found.as_str(), *wanted, "{body}");
    }
    Ok(())
}

/// What a text with so many items behind the first is read as.
fn counted(alloc: Global, head: &str, count: usize, tail: &str) -> Result<String, AllocError> {
    let items = repeated(alloc, ",0", count)?;
    answer(alloc, format!(in alloc; "{head}0{items}{tail}")?.as_str())
}

#[test]
fn items_are_counted_first(rt: HostRuntime) -> Result<(), Fail> {
    for (head, most, tail, place) in &LIMITS {
        let within = counted(rt.alloc(), head, most.saturating_sub(1), tail)?;
        assert_eq!(rt; within, format!(in rt.alloc(); "shape {place}/0")?);
        let beyond = counted(rt.alloc(), head, *most, tail)?;
        assert_eq!(rt; beyond, format!(in rt.alloc(); "shape {place}")?);
    }
    Ok(())
}

#[test]
fn long_texts_are_read(rt: HostRuntime) -> Result<(), Fail> {
    for (at, long) in LONGS.iter().enumerate() {
        let found = answer(rt.alloc(), spelled(rt.alloc(), long)?.as_str())?;
        assert_eq!(rt; found.as_str(), long.wanted, "row {at}");
    }
    Ok(())
}
