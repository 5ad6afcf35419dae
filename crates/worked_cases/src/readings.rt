// A case's file, line by line.
use crate::cases::{Change, File, Left, Output, Part, Step, Wrong};
use crate::contents::{append_content, append_hex, long_number, number};
use std::alloc::Global;

/// What the last line was, and so which lines may come.
#[derive(Clone, Copy, PartialEq, Eq)]
enum Place {
    /// Nothing stands before, or a step with its status.
    Between,
    /// A change of the files.
    Changed,
    /// The words of a step.
    Words,
    /// A line of the input.
    Input,
    /// A line of the output.
    Output,
}

/// What was read of a file so far.
#[derive(Drop)]
struct Reader {
    alloc: Global,
    steps: Vec<Step>,
    /// The changes before the step to come.
    changes: Vec<Change>,
    place: Place,
    /// Whether lines with a file's bytes may follow.
    writes: bool,
}

/// The steps of a case, or the line that is wrong, from 1, and why.
pub fn read_case(alloc: Global, text: &str) -> Result<Vec<Step>, (u32, Wrong)> {
    let mut reader = Reader {
        alloc,
        steps: Vec::new(alloc),
        changes: Vec::new(alloc),
        place: Place::Between,
        writes: false,
    };
    let mut count = 0_u32;
    for line in text.lines() {
        count = count.wrapping_add(1);
        if let Err(wrong) = reader.line(line, count) {
            return Err((count, wrong));
        }
    }
    match reader.end() {
        Ok(steps) => Ok(steps),
        Err((line, wrong)) => Err((line.unwrap_or(count), wrong)),
    }
}

/// Whether a line has bytes from 32 to 126 alone.
fn is_plain(line: &str) -> bool {
    line.bytes().all(|byte| (32..=126).contains(&byte))
}

impl Reader {
    /// Takes the line of this number.
    fn line(&mut self, line: &str, count: u32) -> Result<(), Wrong> {
        if !is_plain(line) {
            return Err(Wrong::Form("a byte that is no printed one: write it in hexadecimal"));
        }
        if line.is_empty() || line.starts_with('#') {
            return Ok(());
        }
        if line.ends_with(' ') {
            return Err(Wrong::Form("a space that nobody sees at the end: write it in hexadecimal"));
        }
        let (mark, text) = line.split_once(' ').unwrap_or((line, ""));
        if let Some(flags) = mark.strip_prefix('|') {
            return self.bytes(flags, text);
        }
        self.writes = false;
        if let Some(flags) = mark.strip_prefix('<') {
            return self.input(flags, text);
        }
        if let Some(flags) = mark.strip_prefix('>') {
            return self.output(flags, text);
        }
        match mark {
            "$" => self.words(text, count),
            "=" => self.status(text),
            "!" => self.change(text),
            "?" => self.left(text),
            _ => Err(Wrong::Form("this mark is none of a case")),
        }
    }

    /// Begins a step.
    fn words(&mut self, text: &str, count: u32) -> Result<(), Wrong> {
        self.ask_status()?;
        let mut words = Vec::new(self.alloc);
        for word in text.split_whitespace() {
            words.push(String::from_str(self.alloc, word)?)?;
        }
        let changes = std::mem::replace(&mut self.changes, Vec::new(self.alloc));
        self.steps.push(Step {
            line: count,
            changes,
            words,
            input: Vec::new(self.alloc),
            output: Output::Parts(Vec::new(self.alloc)),
            status: 0,
            left: Vec::new(self.alloc),
        })?;
        self.place = Place::Words;
        Ok(())
    }

    /// Refuses what may not stand in a step that has no status yet.
    fn ask_status(&self) -> Result<(), Wrong> {
        match self.place {
            Place::Between | Place::Changed => Ok(()),
            _ => Err(Wrong::Form("the step before has no status")),
        }
    }

    /// Takes a line of the input.
    fn input(&mut self, flags: &str, text: &str) -> Result<(), Wrong> {
        if self.place != Place::Words && self.place != Place::Input {
            return Err(Wrong::Form("an input stands behind the words of a step"));
        }
        self.place = Place::Input;
        let alloc = self.alloc;
        let number = self.steps.len();
        match self.steps.last_mut() {
            Some(step) => append_part(alloc, flags, text, number, &mut step.input),
            None => Ok(()),
        }
    }

    /// Takes a line of the output.
    fn output(&mut self, flags: &str, text: &str) -> Result<(), Wrong> {
        let first = match self.place {
            Place::Words | Place::Input => true,
            Place::Output => false,
            _ => return Err(Wrong::Form(
                "an output stands behind the words and the input of a step",
            )),
        };
        self.place = Place::Output;
        let alloc = self.alloc;
        let number = self.steps.len();
        match self.steps.last_mut() {
            Some(step) => add_output(alloc, flags, text, number, first, &mut step.output),
            None => Ok(()),
        }
    }

    /// Takes the status, which ends a step but for what it leaves.
    fn status(&mut self, text: &str) -> Result<(), Wrong> {
        match self.place {
            Place::Between | Place::Changed => {
                return Err(Wrong::Form(
                    "a status stands behind the words, the input and the output of a step",
                ));
            }
            _ => {}
        }
        let Ok(status) = text.parse::<u8>() else {
            return Err(Wrong::Form("a status is a number from 0 to 255"));
        };
        if let Some(step) = self.steps.last_mut() {
            step.status = status;
        }
        self.place = Place::Between;
        Ok(())
    }

    /// Takes a change of the files.
    fn change(&mut self, text: &str) -> Result<(), Wrong> {
        self.ask_status()?;
        let change = read_change(self.alloc, text)?;
        if let Change::Write { .. } = &change {
            self.writes = true;
        }
        self.changes.push(change)?;
        self.place = Place::Changed;
        Ok(())
    }

    /// Takes what the files have to be behind the step.
    fn left(&mut self, text: &str) -> Result<(), Wrong> {
        let left = read_left(self.alloc, text)?;
        if let Left::Whole { .. } = &left {
            self.writes = true;
        }
        if self.place == Place::Between
            && let Some(step) = self.steps.last_mut()
        {
            step.left.push(left)?;
            return Ok(());
        }
        Err(Wrong::Form("what is left stands behind the status of a step"))
    }

    /// Takes a line of the bytes of a file, which was named by a change or by what is left.
    fn bytes(&mut self, flags: &str, text: &str) -> Result<(), Wrong> {
        if !self.writes {
            return Err(Wrong::Form("bytes of a file stand behind its name"));
        }
        if self.place == Place::Changed {
            if let Some(Change::Write { bytes, .. }) = self.changes.last_mut() {
                return append_content(flags, text, bytes);
            }
        } else if let Some(step) = self.steps.last_mut()
            && let Some(Left::Whole { bytes, .. }) = step.left.last_mut()
        {
            return append_content(flags, text, bytes);
        }
        Ok(())
    }

    /// The steps, where the file ends here; else the line that is wrong, if it is not the last one, and why.
    fn end(self) -> Result<Vec<Step>, (Option<u32>, Wrong)> {
        let Reader { steps, place, .. } = self;
        let line = match steps.last() {
            Some(step) => step.line,
            None => return Err((None, Wrong::Form("a case has a step at least"))),
        };
        if let Some(line) = untaken(&steps) {
            return Err((
                Some(line),
                Wrong::Form("no later step takes what this one prints"),
            ));
        }
        match place {
            Place::Between => Ok(steps),
            Place::Changed => Err((None, Wrong::Form("a step stands behind a change"))),
            _ => Err((Some(line), Wrong::Form("this step has no status"))),
        }
    }
}

/// The line of the first step whose output is whatever it prints, and that no later step takes.
fn untaken(steps: &[Step]) -> Option<u32> {
    let mut number = 0_usize;
    for step in steps {
        number = number.wrapping_add(1);
        if is_any(&step.output) && !steps.iter().any(|later| takes(later, number)) {
            return Some(step.line);
        }
    }
    None
}

/// Whether an output is whatever the step prints.
fn is_any(output: &Output) -> bool {
    match output {
        Output::Taken => true,
        _ => false,
    }
}

/// Whether a step takes what the step of this number printed.
fn takes(step: &Step, number: usize) -> bool {
    let output = match &step.output {
        Output::Parts(parts) => has_output(parts, number),
        _ => false,
    };
    output || has_output(&step.input, number)
}

/// Whether what the step of this number printed is among the parts.
fn has_output(parts: &[Part], number: usize) -> bool {
    parts.iter().any(|part| match part {
        Part::OutputOf(source) => *source == number,
        Part::Bytes(_) => false,
    })
}

/// Adds a part to the input or to the output of the step of this number.
fn append_part(
    alloc: Global,
    flags: &str,
    text: &str,
    step: usize,
    parts: &mut Vec<Part>,
) -> Result<(), Wrong> {
    if flags == "=" {
        let source = number(text)? as usize;
        if source == 0 || source >= step {
            return Err(Wrong::Form("only what an earlier step printed can be taken"));
        }
        parts.push(Part::OutputOf(source))?;
        return Ok(());
    }
    if let Some(Part::Bytes(bytes)) = parts.last_mut() {
        return append_content(flags, text, bytes);
    }
    let mut bytes = Vec::new(alloc);
    append_content(flags, text, &mut bytes)?;
    parts.push(Part::Bytes(bytes))?;
    Ok(())
}

/// Adds a line to the output of the step of this number.
fn add_output(
    alloc: Global,
    flags: &str,
    text: &str,
    step: usize,
    first: bool,
    output: &mut Output,
) -> Result<(), Wrong> {
    if first && flags == "?" {
        *output = Output::Taken;
        return Ok(());
    }
    if first && flags == "~" {
        *output = read_mark(text)?;
        return Ok(());
    }
    match output {
        Output::Parts(parts) => append_part(alloc, flags, text, step, parts),
        _ => Err(Wrong::Form("this output is one line alone")),
    }
}

/// The marks of a text: its lines, its bytes and its hash.
fn read_mark(text: &str) -> Result<Output, Wrong> {
    let Some((lines, rest)) = text.split_once(' ') else {
        return Err(Wrong::Form("the numbers of lines and bytes and the hash are wanted here"));
    };
    let Some((bytes, hash)) = rest.split_once(' ') else {
        return Err(Wrong::Form("the numbers of lines and bytes and the hash are wanted here"));
    };
    Ok(Output::Marked {
        lines: long_number(lines)?,
        bytes: long_number(bytes)?,
        hash: long_number(hash)?,
    })
}

/// A name and what stands behind it.
fn named(text: &str) -> (&str, &str) {
    text.split_once(' ').unwrap_or((text, ""))
}

/// An offset, and the bytes that stand there.
fn read_patch(alloc: Global, text: &str) -> Result<(usize, Vec<u8>), Wrong> {
    let (at, digits) = named(text);
    let at = number(at)? as usize;
    let mut bytes = Vec::new(alloc);
    append_hex(digits, &mut bytes)?;
    if bytes.is_empty() {
        return Err(Wrong::Form("the bytes of this offset are wanted here"));
    }
    Ok((at, bytes))
}

/// The change that a line says behind its mark.
fn read_change(alloc: Global, text: &str) -> Result<Change, Wrong> {
    match text {
        "keep" => return Ok(Change::Keep),
        "back" => return Ok(Change::Back),
        _ => {}
    }
    let (name, rest) = named(text);
    let file = File::named(name)?;
    let bytes = Vec::new(alloc);
    if rest.is_empty() {
        return Ok(Change::Write { file, bytes });
    }
    match named(rest) {
        ("cut", count) => Ok(Change::Cut {
            file,
            len: number(count)? as usize,
        }),
        ("at", patch) => {
            let (at, bytes) = read_patch(alloc, patch)?;
            Ok(Change::Patch { file, at, bytes })
        }
        _ => Err(Wrong::Form("a file is written, cut, or changed at an offset")),
    }
}

/// What a line says of the files behind its mark.
fn read_left(alloc: Global, text: &str) -> Result<Left, Wrong> {
    if text == "same" {
        return Ok(Left::Same);
    }
    let (name, rest) = named(text);
    let file = File::named(name)?;
    let bytes = Vec::new(alloc);
    if rest.is_empty() {
        return Ok(Left::Whole { file, bytes });
    }
    match named(rest) {
        ("at", patch) => {
            let (at, bytes) = read_patch(alloc, patch)?;
            Ok(Left::Piece { file, at, bytes })
        }
        _ => Err(Wrong::Form("a file has bytes, or some at an offset")),
    }
}
