// The lines of a file, one by one, and what they have set.
use crate::arguments::{declared, proc_number, request};
use crate::runs::{add_run_through, ask_crews, run, run_within};
use crate::words::Words;
use crate::wrongs::Wrong;
use aria_base::{Duplicate, Key, Memory, Request, Row};
use cat_read::{CatRefused, read_catalog};
use proc_exec::{Declared, Outcome};
use proc_lang::Catalog;
use std::alloc::Global;
use std::thread::Threads;
use tbl_rows::Tables;

/// What the lines so far have set.
#[derive(Drop)]
pub struct Desk {
    alloc: Global,
    /// What stands before and behind the statements of the procedure.
    front: String,
    back: String,
    tables: Tables,
    /// The catalogue whose procedure has the last statements.
    catalog: Result<Catalog, CatRefused>,
    /// The number of the procedure that is called.
    proc: u16,
    /// What it is usually called with, and what the next run is called with, in words.
    usual: String,
    given: String,
    /// Whether there were statements.
    begun: bool,
    declared: Option<Declared>,
    /// What was run of the last statements, and what it came to.
    requests: Vec<Request>,
    outcomes: Vec<Outcome>,
}

impl Desk {
    /// Nothing is set.
    pub fn new(alloc: Global) -> Result<Desk, Memory> {
        Ok(Desk {
            alloc,
            front: String::new(alloc),
            back: String::new(alloc),
            tables: Tables::new(alloc)?,
            catalog: Err(CatRefused::NotJson),
            proc: 0,
            usual: String::new(alloc),
            given: String::new(alloc),
            begun: false,
            declared: None,
            requests: Vec::new(alloc),
            outcomes: Vec::new(alloc),
        })
    }

    /// Follows a line: its mark and what stands behind it. Where it says what is wanted, what was found instead.
    pub fn line<R: Threads + Sync>(
        &mut self,
        rt: &R,
        mark: &str,
        text: &str,
    ) -> Result<Option<String>, Wrong> {
        match mark {
            ">" => return self.found(),
            "?" => return self.found_through(),
            "~" => return self.named(text),
            "$" => self.begin(rt, text)?,
            "*" => self.put_rows(text)?,
            "{" => self.front.push_str(text)?,
            "}" => self.back.push_str(text)?,
            "@" => self.proc = proc_number(text)?,
            "<" => self.call(text)?,
            "+" => self.declared = Some(declared(self.alloc, text)?),
            _ => return Err(Wrong::Form("this mark is none")),
        }
        Ok(None)
    }

    /// The catalogue whose procedure has these statements.
    fn read(&self, statements: &str) -> Result<Result<Catalog, CatRefused>, Memory> {
        let (front, back) = (self.front.as_str(), self.back.as_str());
        let text = format!(in self.alloc; "{front}{statements}{back}")?;
        match read_catalog(self.alloc, text.as_bytes()) {
            Err(CatRefused::Memory) => Err(Memory),
            read => Ok(read),
        }
    }

    /// Begins with other statements, and has several workers run what was run of the last ones.
    fn begin<R: Threads + Sync>(&mut self, rt: &R, statements: &str) -> Result<(), Wrong> {
        self.end(rt)?;
        self.catalog = self.read(statements)?;
        self.given = String::from_str(self.alloc, self.usual.as_str())?;
        self.begun = true;
        self.declared = None;
        self.requests.clear();
        self.outcomes.clear();
        Ok(())
    }

    /// Has several workers run what was run of the last statements.
    pub fn end<R: Threads + Sync>(&self, rt: &R) -> Result<(), Wrong> {
        match &self.catalog {
            Ok(catalog) => ask_crews(
                rt,
                self.alloc,
                catalog,
                &self.tables,
                &self.requests,
                &self.outcomes,
            ),
            Err(_) => Ok(()),
        }
    }

    /// Takes what the procedure is called with.
    fn call(&mut self, text: &str) -> Result<(), Wrong> {
        self.given = String::from_str(self.alloc, text)?;
        if !self.begun {
            self.usual = String::from_str(self.alloc, text)?;
        }
        Ok(())
    }

    /// Puts the rows that these statements write.
    fn put_rows(&mut self, statements: &str) -> Result<(), Wrong> {
        let request = request(self.alloc, self.proc, self.given.as_str())?;
        let outcome = match self.read(statements)? {
            Ok(catalog) => run(self.alloc, &catalog, &self.tables, &request)?,
            Err(_) => return Err(Wrong::Form("the statements are refused")),
        };
        for (key, row) in outcome.writes.as_slice() {
            if let Some(row) = row {
                let (key, row) = (key.duplicate(self.alloc)?, row.duplicate(self.alloc)?);
                put(&mut self.tables, key, row)?;
            }
        }
        Ok(())
    }

    /// What the next run comes to.
    fn found(&mut self) -> Result<Option<String>, Wrong> {
        let alloc = self.alloc;
        let catalog = match &self.catalog {
            Ok(catalog) => catalog,
            Err(refused) => return Ok(Some(format!(in alloc; "{refused}")?)),
        };
        let request = request(alloc, self.proc, self.given.as_str())?;
        let mut out = String::new(alloc);
        if !catalog.takes(&request.call) {
            out.push_str("not taken / ")?;
        }
        if let Some(declared) = &self.declared {
            let within = run_within(alloc, catalog, &self.tables, &request, declared)?;
            within.add(catalog.schema().as_slice(), &mut out)?;
            return Ok(Some(out));
        }
        let outcome = run(alloc, catalog, &self.tables, &request)?;
        outcome.add(catalog.schema().as_slice(), &mut out)?;
        self.requests.push(request)?;
        self.outcomes.push(outcome)?;
        Ok(Some(out))
    }

    /// What the next run comes to through a window.
    fn found_through(&self) -> Result<Option<String>, Wrong> {
        let Ok(catalog) = &self.catalog else {
            return Err(Wrong::Form("the statements are refused"));
        };
        let request = request(self.alloc, self.proc, self.given.as_str())?;
        let mut out = String::new(self.alloc);
        add_run_through(
            self.alloc,
            catalog,
            &request,
            self.declared.as_ref(),
            &mut out,
        )?;
        Ok(Some(out))
    }

    /// What the name behind the colon is the name of.
    fn named(&self, text: &str) -> Result<Option<String>, Wrong> {
        let (Ok(catalog), Some((_, rest))) = (&self.catalog, text.split_once(':')) else {
            return Err(Wrong::Form("a name stands behind a colon, and behind statements"));
        };
        let name = rest.trim_start().as_bytes();
        Ok(Some(match (catalog.table(name), catalog.proc(name)) {
            (Some(number), None) => format!(in self.alloc; "table {number}:{rest}")?,
            (None, Some(number)) => format!(in self.alloc; "procedure {number}:{rest}")?,
            _ => format!(in self.alloc; "nothing:{rest}")?,
        }))
    }
}

/// Puts a row.
fn put(tables: &mut Tables, key: Key, row: Row) -> Result<(), Memory> {
    tables.put(key, row)?;
    Ok(())
}
