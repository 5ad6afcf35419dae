// What runs come to, in words, which are added to a text.
use aria_base::{Changes, Key, Part, Row, Table, Txt, Value};
use proc_exec::{Outcome, Ran, Within};
use proc_lang::{End, Trap};
use std::alloc::AllocError;

/// What has words, under the tables whose names they have.
pub trait Words {
    /// Adds its words.
    fn add(&self, tables: &[Table], out: &mut String) -> Result<(), AllocError>;
}

/// Adds all of these with commas between them; of more than eight only their number, the first and the last.
pub fn add_all<T: Words>(
    tables: &[Table],
    items: &[T],
    out: &mut String,
) -> Result<(), AllocError> {
    let count = items.len();
    if count > 8 {
        write!(out, "{count}: ")?;
        items[0].add(tables, out)?;
        out.push_str(" .. ")?;
        return items[count - 1].add(tables, out);
    }
    for (at, item) in items.iter().enumerate() {
        if at > 0 {
            out.push_str(", ")?;
        }
        item.add(tables, out)?;
    }
    Ok(())
}

/// Adds a text in quotes; a long one as its runs of equal letters, such as `<a250 b250>`.
fn add_text(text: &Txt, out: &mut String) -> Result<(), AllocError> {
    let bytes = text.as_slice();
    if bytes.len() > 30 {
        return add_letters(bytes, out);
    }
    let text = str::from_utf8(bytes).unwrap_or("?");
    write!(out, "'{text}'")
}

fn add_letters(bytes: &[u8], out: &mut String) -> Result<(), AllocError> {
    out.push_str("<")?;
    for run in bytes.chunk_by(|one, next| one == next) {
        if let [letter, ..] = run {
            let (letter, count) = (char::from(*letter), run.len());
            write!(out, "{letter}{count}")?;
        }
    }
    out.push_str(">")
}

impl Words for Value {
    fn add(&self, _tables: &[Table], out: &mut String) -> Result<(), AllocError> {
        match self {
            Value::Int(number) => write!(out, "{number}"),
            Value::Text(text) => add_text(text, out),
        }
    }
}

fn add_part(part: &Part, out: &mut String) -> Result<(), AllocError> {
    out.push_str(" ")?;
    match part {
        Part::Int(number) => write!(out, "{number}"),
        Part::Text(text) => add_text(text, out),
    }
}

/// The name of the table of this number.
fn name_of(tables: &[Table], number: u16) -> &str {
    match tables.get(usize::from(number)) {
        Some(table) => str::from_utf8(table.name.as_slice()).unwrap_or("?"),
        None => "?",
    }
}

/// A key is its table's name and its parts.
impl Words for Key {
    fn add(&self, tables: &[Table], out: &mut String) -> Result<(), AllocError> {
        out.push_str(name_of(tables, self.table))?;
        for part in self.parts.as_slice() {
            add_part(part, out)?;
        }
        Ok(())
    }
}

/// What is written at a key is a row, or that there is none.
impl Words for (Key, Option<Row>) {
    fn add(&self, tables: &[Table], out: &mut String) -> Result<(), AllocError> {
        self.0.add(tables, out)?;
        add_row(&self.1, out)
    }
}

/// Adds the row that is written, or that there is none.
pub fn add_row(row: &Option<Row>, out: &mut String) -> Result<(), AllocError> {
    match row {
        None => out.push_str(" gone"),
        Some(row) => {
            out.push_str(" = (")?;
            add_all(&[], row.as_slice(), out)?;
            out.push_str(")")
        }
    }
}

fn trap_word(trap: Trap) -> &'static str {
    match trap {
        Trap::Overflow => "overflow",
        Trap::Zero => "zero",
        Trap::Absent => "absent",
        Trap::Long => "long",
        Trap::Many => "many",
    }
}

impl Words for End {
    fn add(&self, _tables: &[Table], out: &mut String) -> Result<(), AllocError> {
        match self {
            End::Done(given) => add_given(given.as_slice(), out),
            End::Back(code) => write!(out, "fail {code}"),
            End::Trap(trap) => {
                let trap = trap_word(*trap);
                write!(out, "trap {trap}")
            }
        }
    }
}

fn add_given(given: &[Value], out: &mut String) -> Result<(), AllocError> {
    out.push_str("done")?;
    if given.is_empty() {
        return Ok(());
    }
    out.push_str(" ")?;
    add_all(&[], given, out)
}

/// Adds a part of an outcome, where there is anything in it.
fn add_keys<T: Words>(
    name: &str,
    tables: &[Table],
    items: &[T],
    out: &mut String,
) -> Result<(), AllocError> {
    if items.is_empty() {
        return Ok(());
    }
    out.push_str(name)?;
    add_all(tables, items, out)?;
    out.push_str(" / ")
}

impl Words for Outcome {
    fn add(&self, tables: &[Table], out: &mut String) -> Result<(), AllocError> {
        add_keys("reads ", tables, self.reads.as_slice(), out)?;
        add_keys("writes ", tables, self.writes.as_slice(), out)?;
        self.end.add(tables, out)
    }
}

fn add_moved(key: &Key, tables: &[Table], out: &mut String) -> Result<(), AllocError> {
    out.push_str("moved ")?;
    key.add(tables, out)
}

impl Words for Within {
    fn add(&self, tables: &[Table], out: &mut String) -> Result<(), AllocError> {
        match self {
            Within::Ended(outcome) => outcome.add(tables, out),
            Within::Moved(key) => add_moved(key, tables, out),
        }
    }
}

impl Words for Ran {
    fn add(&self, tables: &[Table], out: &mut String) -> Result<(), AllocError> {
        match self {
            Ran::Ended(end) => end.add(tables, out),
            Ran::Moved(key) => add_moved(key, tables, out),
        }
    }
}
