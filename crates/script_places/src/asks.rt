// What the next line asks for.
ghost use Rattle.std.specs.Prelude.{◌≡◌, ◌+◌, not, nat_lt};
ghost use Rattle.script_text.specs.Answers.{Answers, refused};
ghost use Rattle.script_text.specs.Forms.{said};
ghost use Rattle.script_text.specs.Lines.{line_after};
ghost use Rattle.script_places.specs.Places.{asked, at_item, at_catalog, at_piece, at_row, at_call, at_settings, at_report, at_end, in_text, item_in_text, within_text, goes_on, behind_text, refused_in_text, is_byte, read_text, closing, closed, shut, rule_of};

use crate::deeds::Deed;
use crate::heads::ScriptCatalog;
use crate::limits::MOST_CATALOG;
use crate::places::{Counts, Mode, ScriptPlace};
use aria_base::{Args, Bytes, GREATEST_NUMBER, MOST_REQUESTS, Parts, Row, Txt};
use batch_rules::verdicts::Rule;
use cat_builtin::builtin;
use cat_text::catalog_of;
use script_text::{
    CatFault, Item, LinesRefused, Refusal, RefusalKind, fit_settings, place_call, place_row,
    read_line,
};
use std::alloc::Global;

impl ScriptPlace {
    /// What the next line asks for, and the place behind it. The line is without its line feed. A refusal
    /// has the line's number, and the first kind in the order of refusals that holds of it.
    pub fn ask(
        self,
        alloc: Global,
        counts: Counts,
        line: &[u8],
    ) -> Result<(ScriptPlace, Deed), LinesRefused>
        ensures { Answers (asked self counts line.now) (line_after self.lines) result }
    {
        let place = self.next_line();
        if place.reports {
            return Ok((place, Deed::Tell));
        }
        let (place, head) = place.without_head();
        match head {
            ScriptCatalog::Text(text) => place.in_text(alloc, counts, text, line),
            head => {
                let item = read_line(alloc, line, place.lines)?;
                ScriptPlace { head, ..place }.at_item(alloc, counts, item)
            }
        }
    }

    /// The end of the input, which counts as one line more: the text of a catalogue is read, and no call may
    /// be open.
    pub fn close(self, alloc: Global) -> Result<ScriptPlace, LinesRefused>
        ensures { Answers (closing self) (line_after self.lines) result }
    {
        let (place, head) = self.next_line().without_head();
        match head {
            ScriptCatalog::Text(text) => place.read_text(alloc, text)?.shut(),
            head => ScriptPlace { head, ..place }.shut(),
        }
    }
}

impl ScriptPlace {
    /// A line while the text of a catalogue comes: the first one that is neither skipped nor a piece has the
    /// text read, before its own form is looked at.
    fn in_text(
        self,
        alloc: Global,
        counts: Counts,
        text: Bytes,
        line: &[u8],
    ) -> Result<(ScriptPlace, Deed), LinesRefused>
        ensures { Answers (in_text self counts text (said line.now)) self.lines result }
    {
        match read_line(alloc, line, self.lines) {
            Ok(item) => self.item_in_text(alloc, counts, text, item),
            Err(LinesRefused::Memory) => Err(LinesRefused::Memory),
            Err(LinesRefused::Line(refusal)) => self.refused_in_text(alloc, text, refusal),
        }
    }

    /// A line of a form, while the text of a catalogue comes.
    fn item_in_text(
        self,
        alloc: Global,
        counts: Counts,
        text: Bytes,
        item: Item,
    ) -> Result<(ScriptPlace, Deed), LinesRefused>
        ensures { Answers (item_in_text self counts text item) self.lines result }
    {
        if goes_on(&item) {
            return self.within_text(text, item);
        }
        self.behind_text(alloc, counts, text, item)
    }

    /// A line that does not end the text: a piece of it, or a skipped line.
    fn within_text(self, text: Bytes, item: Item) -> Result<(ScriptPlace, Deed), LinesRefused>
        ensures { Answers (within_text self text item) self.lines result }
    {
        if let Item::Piece(piece) = item {
            return self.at_piece(text, &piece);
        }
        let head = ScriptCatalog::Text(text);
        Ok((ScriptPlace { head, ..self }, Deed::Nothing))
    }

    /// A line that ends the text of a catalogue: the text is read first.
    fn behind_text(
        self,
        alloc: Global,
        counts: Counts,
        text: Bytes,
        item: Item,
    ) -> Result<(ScriptPlace, Deed), LinesRefused>
        ensures { Answers (behind_text self counts text item) self.lines result }
    {
        self.read_text(alloc, text)?.at_item(alloc, counts, item)
    }

    /// A line that says nothing, while the text of a catalogue comes.
    fn refused_in_text(
        self,
        alloc: Global,
        text: Bytes,
        refusal: Refusal,
    ) -> Result<(ScriptPlace, Deed), LinesRefused>
        requires { refusal.line ≡ self.lines }
        ensures { Answers (refused_in_text self text refusal.kind) self.lines result }
    {
        if is_byte(&refusal.kind) {
            return Err(LinesRefused::Line(refusal));
        }
        self.read_text(alloc, text)?;
        Err(LinesRefused::Line(refusal))
    }

    /// The next piece of a catalogue's text.
    fn at_piece(self, text: Bytes, piece: &Bytes) -> Result<(ScriptPlace, Deed), LinesRefused>
        ensures { Answers (at_piece self text piece.now) self.lines result }
    {
        let mut text = text.into_vec();
        let piece = piece.as_slice();
        if text.len() > MOST_CATALOG || MOST_CATALOG - text.len() < piece.len() {
            return Err(self.refused(RefusalKind::Catalog(CatFault::Long)));
        }
        text.extend_from_slice(piece)?;
        let head = ScriptCatalog::Text(Bytes::from_vec(text));
        Ok((ScriptPlace { head, ..self }, Deed::Nothing))
    }

    /// The place with the catalogue that the text says.
    fn read_text(self, alloc: Global, text: Bytes) -> Result<ScriptPlace, LinesRefused>
        ensures { Answers (read_text self text) self.lines result }
    {
        let catalog = catalog_of(alloc, text.as_slice(), self.lines)?;
        let head = ScriptCatalog::Ready(catalog);
        Ok(ScriptPlace { head, ..self })
    }

    /// A line of a form, where no text of a catalogue comes.
    fn at_item(
        self,
        alloc: Global,
        counts: Counts,
        item: Item,
    ) -> Result<(ScriptPlace, Deed), LinesRefused>
        ensures { Answers (at_item self counts item) self.lines result }
    {
        match item {
            Item::Skip => Ok((self, Deed::Nothing)),
            Item::Catalog(name) => self.at_catalog(alloc, &name),
            Item::Piece(_) => Err(self.refused(RefusalKind::Site)),
            Item::Row { table, parts, row } => self.at_row(&table, parts, row),
            Item::Tx { proc, args } => self.at_call(&proc, args),
            Item::End(number) => self.at_end(counts, number),
            Item::Report => self.at_report(),
            Item::Settings { name, percent } => self.at_settings(name, percent),
        }
    }

    /// A line that names the catalogue.
    fn at_catalog(self, alloc: Global, name: &Txt) -> Result<(ScriptPlace, Deed), LinesRefused>
        ensures { Answers (at_catalog self name.now) self.lines result }
    {
        let name = name.as_slice();
        if !self.mode.has_catalog() || !self.head.is_unnamed() {
            return Err(self.refused(RefusalKind::Site));
        }
        if self.mode == Mode::Audit && name != b"tpcc".as_slice() {
            return Err(self.refused(RefusalKind::Name));
        }
        if name == b"text".as_slice() {
            let head = ScriptCatalog::Text(Bytes::from_vec(Vec::new(alloc)));
            return Ok((ScriptPlace { head, ..self }, Deed::Nothing));
        }
        let Some(catalog) = builtin(alloc, name)? else {
            return Err(self.refused(RefusalKind::Name));
        };
        let head = ScriptCatalog::Ready(catalog);
        Ok((ScriptPlace { head, ..self }, Deed::Nothing))
    }

    /// A row.
    fn at_row(
        self,
        table: &Txt,
        parts: Parts,
        row: Row,
    ) -> Result<(ScriptPlace, Deed), LinesRefused>
        ensures { Answers (at_row self table.now parts row) self.lines result }
    {
        let ScriptCatalog::Ready(catalog) = &self.head else {
            return Err(self.refused(RefusalKind::Site));
        };
        if self.rows_ended {
            return Err(self.refused(RefusalKind::Site));
        }
        let (key, row) = place_row(catalog, table, parts, row, self.lines)?;
        Ok((self, Deed::Put(key, row)))
    }

    /// A call of the open batch.
    fn at_call(self, proc: &Txt, args: Args) -> Result<(ScriptPlace, Deed), LinesRefused>
        ensures { Answers (at_call self proc.now args) self.lines result }
    {
        let ScriptCatalog::Ready(catalog) = &self.head else {
            return Err(self.refused(RefusalKind::Site));
        };
        if !self.mode.has_batches() {
            return Err(self.refused(RefusalKind::Site));
        }
        let call = place_call(catalog, proc, args, self.lines)?;
        if self.open_calls >= MOST_REQUESTS {
            return Err(self.refused(RefusalKind::Batch));
        }
        let place = ScriptPlace {
            rows_ended: true,
            open_calls: self.open_calls + 1,
            ..self
        };
        Ok((place, Deed::Call(call)))
    }

    /// The end of a batch.
    fn at_end(self, counts: Counts, number: u64) -> Result<(ScriptPlace, Deed), LinesRefused>
        ensures { Answers (at_end self counts number) self.lines result }
    {
        if !self.head.is_ready() || !self.mode.has_batches() {
            return Err(self.refused(RefusalKind::Site));
        }
        if number <= counts.batches {
            return Ok((self.without_calls(), Deed::Keep(number)));
        }
        let wanted = counts.batches + 1;
        if wanted < number {
            let got = number;
            return Err(self.refused(RefusalKind::Gap { got, wanted }));
        }
        if self.mode != Mode::Check
            && !has_room(MOST_REQUESTS as u64, counts.waiting as u64, self.open_calls)
        {
            return Err(self.refused(RefusalKind::Batch));
        }
        if number > GREATEST_NUMBER
            || !has_room(GREATEST_NUMBER, counts.requests, self.open_calls)
        {
            return Err(self.refused(RefusalKind::Numbers));
        }
        Ok((self.without_calls(), Deed::Run))
    }

    /// The line behind which a report begins.
    fn at_report(self) -> Result<(ScriptPlace, Deed), LinesRefused>
        ensures { Answers (at_report self) self.lines result }
    {
        if self.mode != Mode::Check || self.open_calls != 0 {
            return Err(self.refused(RefusalKind::Site));
        }
        let place = ScriptPlace {
            reports: true,
            ..self
        };
        Ok((place, Deed::Nothing))
    }

    /// Settings.
    fn at_settings(self, name: Txt, percent: i64) -> Result<(ScriptPlace, Deed), LinesRefused>
        ensures { Answers (at_settings self name percent) self.lines result }
    {
        if !self.head.is_ready() || !self.mode.has_batches() || self.open_calls != 0 {
            return Err(self.refused(RefusalKind::Site));
        }
        let item = Item::Settings { name, percent };
        let (number, percent) = fit_settings(&item, self.lines)?;
        let rule = rule_of(number);
        let place = ScriptPlace {
            rows_ended: true,
            ..self
        };
        Ok((place, Deed::Set { rule, percent }))
    }

    /// The end of the input, where no call may be open.
    fn shut(self) -> Result<ScriptPlace, LinesRefused>
        ensures { Answers (shut self) self.lines result }
    {
        if self.open_calls != 0 {
            return Err(self.refused(RefusalKind::Unfinished));
        }
        Ok(self)
    }

    /// The place behind the end of a batch.
    fn without_calls(self) -> ScriptPlace
        ensures { result ≡ closed self }
    {
        ScriptPlace {
            rows_ended: true,
            open_calls: 0,
            ..self
        }
    }

    /// The refusal of this line.
    fn refused(&self, kind: RefusalKind) -> LinesRefused
        ensures { result ≡ refused self.now.lines kind }
    {
        let line = self.lines;
        LinesRefused::Line(Refusal { line, kind })
    }
}

/// Whether a line of this form leaves the text of a catalogue open.
fn goes_on(item: &Item) -> bool
    ensures { result ≡ goes_on item.now }
{
    match item {
        Item::Skip | Item::Piece(_) => true,
        Item::Catalog(_)
        | Item::Row { .. }
        | Item::Tx { .. }
        | Item::End(_)
        | Item::Report
        | Item::Settings { .. } => false,
    }
}

/// Whether a line is refused for a byte that no line has.
fn is_byte(kind: &RefusalKind) -> bool
    ensures { result ≡ is_byte kind.now }
{
    matches!(kind, RefusalKind::Byte)
}

/// The rule with this number.
fn rule_of(number: u8) -> Rule
    ensures { result ≡ rule_of number }
{
    if number == 0 {
        Rule::Plain
    } else {
        Rule::Reorder
    }
}

/// Whether so many more are no more than the most in all.
fn has_room(most: u64, taken: u64, more: usize) -> bool
    ensures { result ≡ not (nat_lt most (taken + more)) }
{
    taken <= most && more as u64 <= most - taken
}
