// A database of the tests: its disk, its open store, and what is written of it.
ghost use Rattle.std.specs.Prelude.{◌≡◌, ◌≤◌, [], IfOk, OnOk};
ghost use Rattle.aria_base.specs.Schemas.{IsConsistent};
ghost use Rattle.aria_base.specs.declared.limits.TheConstants.{MOST_PERCENT};
ghost use Rattle.disk_model.specs.Recorded.{history_of};
ghost use Rattle.worked_stores.specs.Ready.{IsReady};

use crate::words::SLOT;
use aria_base::{MOST_REQUESTS, Request};
use aria_store::{Image, Store, StoreRefused};
use batch_rules::verdicts::Rule;
use dep_rules::Config;
use disk_model::MemDisk;
use image_text::{read_body, read_payload};
use proc_lang::Catalog;
use std::alloc::Global;
use std::test::Fail;
use tbl_rows::Tables;

/// How many bytes a payload of the tests has at most, and how far their logs and numbers go.
const MOST: u64 = 1000;

/// A database with an open store.
#[derive(Drop)]
pub struct Base {
    pub disk: MemDisk,
    pub store: Store,
    pub catalog: Catalog,
    pub tables: Tables,
    /// How many batches were run before its checkpoint.
    pub before: u64,
}

/// Creates a store with a checkpoint of this body, by the rule reorder and the fallback 101.
pub fn created_with(
    alloc: Global,
    mut disk: MemDisk,
    over: bool,
    body: &[u8],
) -> Result<Base, StoreRefused>
    ensures { IfOk result (λ base. IsReady (history_of base.disk) base.store base.before base.catalog base.tables) }
{
    let image = first_image(alloc, body)?;
    let store = Store::create(alloc, &mut disk, over, &image)?;
    Ok(Base {
        disk,
        store,
        catalog: image.catalog,
        tables: image.tables,
        before: 0,
    })
}

/// The first checkpoint with this body.
fn first_image(alloc: Global, body: &[u8]) -> Result<Image, StoreRefused>
    ensures format { IfOk result (λ image. image.format ≡ 2) }
    ensures generation { IfOk result (λ image. image.generation ≡ 1) }
    ensures batches { IfOk result (λ image. image.batches ≡ 0) }
    ensures requests { IfOk result (λ image. image.requests ≡ 0) }
    ensures held { IfOk result (λ image. image.held.items ≡ []) }
    ensures fallback { IfOk result (λ image. image.fallback ≤ MOST_PERCENT) }
    ensures rows { IfOk result (λ image. IsConsistent image.catalog.tables image.tables) }
{
    let Some((catalog, tables, _)) = read_body(alloc, body)? else {
        return Err(StoreRefused::NoStore);
    };
    Ok(Image {
        format: 2,
        rule: Rule::Reorder,
        fallback: 101,
        generation: 1,
        batches: 0,
        requests: 0,
        catalog,
        tables,
        held: Vec::new(alloc),
    })
}

/// A database whose store was created on empty files.
pub fn created(alloc: Global) -> Result<Base, Fail>
    ensures { IfOk result (λ base. IsReady (history_of base.disk) base.store base.before base.catalog base.tables) }
{
    let disk = MemDisk::new(alloc, 1000, 1_000_000, Vec::new(alloc))?;
    Ok(created_with(alloc, disk, false, &SLOT[40..])?)
}

impl Base {
    /// Attaches a disk.
    pub fn attached(alloc: Global, mut disk: MemDisk) -> Result<Base, StoreRefused>
        ensures { IfOk result (λ base. IsReady (history_of base.disk) base.store base.before base.catalog base.tables) }
    {
        let (store, found) = Store::attach(alloc, &mut disk)?;
        let image = found.image;
        Ok(Base {
            disk,
            store,
            catalog: image.catalog,
            tables: image.tables,
            before: image.batches,
        })
    }

    /// Adds the batch of which this is the payload.
    pub fn append(&mut self, alloc: Global, payload: &[u8]) -> Result<(), StoreRefused>
        requires { IsReady (history_of self.old.disk) self.old.store self.old.before self.old.catalog self.old.tables }
        ensures { IsReady (history_of self.new.disk) self.new.store self.new.before self.new.catalog self.new.tables }
    {
        let Some(logged) = read_payload(alloc, &self.catalog, payload)? else {
            return Err(StoreRefused::NoStore);
        };
        if payload.len() > 1000 || logged.calls.len() > MOST_REQUESTS {
            return Err(StoreRefused::NoStore);
        }
        if self.store.format() != 2 || self.store.log_len() > MOST {
            return Err(StoreRefused::NoStore);
        }
        self.store.append(
            alloc,
            &mut self.disk,
            &self.catalog,
            logged.calls.as_slice(),
            logged.rule,
            logged.fallback,
        )
    }

    /// Writes a checkpoint behind all batches, with the rows of the one before and these settings.
    pub fn rotate(
        &mut self,
        alloc: Global,
        rule: Rule,
        fallback: u32,
        requests: u64,
    ) -> Result<(), StoreRefused>
        requires ready { IsReady (history_of self.old.disk) self.old.store self.old.before self.old.catalog self.old.tables }
        requires fallback { fallback ≤ MOST_PERCENT }
        requires requests { requests ≤ 1000 }
        ensures { IsReady (history_of self.new.disk) self.new.store self.new.before self.new.catalog self.new.tables }
    {
        let added = self.store.log_batches();
        if added == 0 && self.store.format() != 1 {
            return Err(StoreRefused::NoStore);
        }
        if added > MOST || self.before > MOST {
            return Err(StoreRefused::NoStore);
        }
        let config = Config {
            rule,
            fallback,
            workers: 1,
            batons: false,
        };
        let held: [Request; 0] = [];
        let batches = self.before + added;
        self.store.rotate(
            alloc,
            &mut self.disk,
            &self.catalog,
            &self.tables,
            &held,
            batches,
            requests,
            &config,
        )?;
        self.before = batches;
        Ok(())
    }
}
