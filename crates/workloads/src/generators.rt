// Workloads of both kinds.
ghost use Rattle.std.specs.Prelude.{◌≡◌, ◌≤◌, IfOk, OnOk, All, true};
ghost use Rattle.aria_base.specs.Schemas.{IsConsistent};
ghost use Rattle.aria_base.specs.declared.limits.TheConstants.{GREATEST_NUMBER};
ghost use Rattle.proc_lang.specs.Catalogs.{takes};
ghost use Rattle.load_gen.specs.Draws.{times, IsPast};
ghost use Rattle.workloads.specs.Generators.{generator_of, orders_of, IsWithin, name_of, plan_of, rows_of, first_draws, request_of};

use aria_base::{Call, Draws, Memory};
use command_words::{Amount, Load, Stock, Workload};
use load_gen::Ycsb;
use proc_lang::Catalog;
use std::alloc::Global;
use tbl_rows::Tables;
use tpcc_load::Tpcc;

/// The stream of a number's words that requests are drawn from.
const REQUEST_STREAM: u64 = 2;

/// What a workload is drawn by: its kind, with the settings of that kind.
#[derive(Clone, Copy, Debug, PartialEq, Eq)]
pub enum Generator {
    /// Accesses to single rows.
    Ycsb(Ycsb),
    /// Order entry.
    Tpcc(Tpcc),
}

/// The settings of order entry, by what a line asks for. No memory.
pub fn orders_of(amount: Amount, stock: Stock) -> Tpcc
    ensures { result ≡ orders_of amount stock }
{
    Tpcc {
        number: amount.number,
        warehouses: stock.warehouses,
        customers: stock.customers,
        items: stock.items,
    }
}

impl Generator {
    /// The generator that the settings of a line ask for.
    pub fn of(workload: &Workload) -> Generator
        ensures { result ≡ generator_of workload.now }
    {
        let number = workload.amount.number;
        let accesses = workload.accesses;
        match workload.kind {
            Load::Ycsb => Generator::Ycsb(Ycsb {
                number,
                keys: accesses.keys,
                ops: accesses.ops,
                reads: accesses.reads,
                updates: accesses.updates,
                hot: accesses.hot,
            }),
            Load::Tpcc => Generator::Tpcc(orders_of(workload.amount, workload.stock)),
        }
    }

    /// The name of its kind, which is that of its catalogue. No memory.
    pub fn name(&self) -> &'static [u8]
        ensures { result.now ≡ name_of self.now }
    {
        match self {
            Generator::Ycsb(_) => b"ycsb",
            Generator::Tpcc(_) => b"tpcc",
        }
    }

    /// The catalogue, and the rows before the first request, each of which fits it.
    pub fn head(&self, alloc: Global) -> Result<(Catalog, Tables), Memory>
        requires { IsWithin self.now }
        ensures plan { IfOk result (λ head. head.0 ≡ plan_of self.now) }
        ensures rows { IfOk result (λ head. head.1 ≡ rows_of self.now) }
        ensures fit { IfOk result (λ head. IsConsistent head.0.tables head.1) }
    {
        match self {
            Generator::Ycsb(settings) => load_gen::head(alloc, settings),
            Generator::Tpcc(settings) => tpcc_load::head(alloc, settings),
        }
    }

    /// The words of the requests, before the first batch. No memory.
    pub fn draws(&self) -> Draws
        ensures { result ≡ first_draws self.now }
    {
        match self {
            Generator::Ycsb(settings) => Draws::of(settings.number, REQUEST_STREAM),
            Generator::Tpcc(settings) => Draws::of(settings.number, REQUEST_STREAM),
        }
    }

    /// The calls of the batch of this number, so many, which come next in the words. Behind them `draws`
    /// stands at the word that they did not use; where there was no memory, it stands some words further
    /// than before. Each call is one of a procedure of the catalogue.
    pub fn batch(
        &self,
        alloc: Global,
        draws: &mut Draws,
        number: u64,
        size: u32,
    ) -> Result<Vec<Call>, Memory>
        requires within { IsWithin self.now }
        requires number { number ≤ GREATEST_NUMBER }
        ensures calls { IfOk result (λ calls. calls.items ≡ (times size (request_of self.now number) draws.old).0) }
        ensures past { OnOk result (draws.new ≡ (times size (request_of self.now number) draws.old).1) }
        ensures fit { IfOk result (λ calls. All (λ call. takes (plan_of self.now) call ≡ true) calls.items) }
        ensures further { IsPast draws.old draws.new }
    {
        match self {
            Generator::Ycsb(settings) => load_gen::batch(alloc, settings, draws, number, size),
            Generator::Tpcc(settings) => tpcc_load::batch(alloc, settings, draws, number, size),
        }
    }
}
