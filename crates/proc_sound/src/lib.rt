//! A well-typed procedure never gets stuck.
//!
//! The meaning of procedures is total: where something is not to be had, say the value of a register that was never set, or the number
//! in a text, it goes on with a plain default. Here stands a second meaning, the careful one. It is the same language without those
//! defaults: where the first meaning would take one, a run is stuck. Two bounds are not for typing to keep and stand in both: `front`
//! takes no more bytes than a text has, and a request number from 2^63 on reads as 0.
//!
//! The law says: let a procedure be well typed, let a request's arguments fit it, and let each row of the database fit its table. Then
//! the careful run makes the very accesses of the plain run and comes to its end. So it is not stuck, and the plain run met none of
//! those defaults.
//! And each row of the database that the run leaves fits its table again, so the next run may begin there.
//!
//! Why it is true. Between any two statements every register holds a value of its kind, and those that typing counts as set are set in
//! the careful run, to the same values. So an expression comes to the same value in both runs, one of the kind that typing found; hence
//! operands are of their kinds, keys and rows fit their tables where they are written, and a row that is read, since it fits its table,
//! fits the registers that it goes to. After a loop what its block has set counts as not set, but the registers keep their kinds, so
//! the block may begin again.
//!
//! ```text
//!     Careful    the careful meaning of a procedure; an end is None where the run is stuck
//!     Laws       what is asked, and what is proved
//! ```
//!
//! The definitions stand in specs/. There is no code: each law is the contract of a function that does nothing, and a caller has the law
//! after the call.
#![tactic(auto)]

ghost use Rattle.std.specs.Prelude.{◌≡◌, ◌↔◌, List, Some, true};
ghost use Rattle.aria_base.specs.Orders.{Cells, Database};
ghost use Rattle.aria_base.specs.Schemas.{Fits, IsConsistent};
ghost use Rattle.aria_base.specs.declared.calls.Request.{Request};
ghost use Rattle.aria_base.specs.declared.keys.Key.{Key};
ghost use Rattle.aria_base.specs.declared.schemas.Table.{Table};
ghost use Rattle.proc_lang.specs.declared.procs.Proc.{Proc};
ghost use Rattle.proc_lang.specs.Catalogs.{Plan, IsCatalog, takes, run_of};
ghost use Rattle.proc_lang.specs.Meaning.{script};
ghost use Rattle.proc_sound.specs.Careful.{has_place, careful_script, careful_run};
ghost use Rattle.proc_sound.specs.Laws.{Suits, IsNeverStuck, StaysConsistent, TouchesFew};

/// On a consistent database the careful run of a well-typed procedure is the plain one, and not stuck.
pub fn never_stuck()
    ensures { (tables : List Table) (p : Proc) (request : Request) (db : Database)
        → Suits tables p request → IsConsistent tables db
        → IsNeverStuck (careful_script tables p request) (script p.body p.regs request) db }
{}

/// A well-typed procedure leaves a consistent database consistent.
pub fn stays_consistent()
    ensures { (tables : List Table) (p : Proc) (request : Request) (db : Database)
        → Suits tables p request → IsConsistent tables db
        → StaysConsistent tables (script p.body p.regs request) db }
{}

/// The run of a request that a catalogue takes is not stuck on a consistent database.
pub fn catalog_never_stuck()
    ensures { (plan : Plan) (request : Request) (db : Database)
        → IsCatalog plan → takes plan request.call ≡ true → IsConsistent plan.tables db
        → IsNeverStuck (careful_run plan request) (run_of plan request) db }
{}

/// The run of a request that a catalogue takes leaves a consistent database consistent.
pub fn catalog_stays_consistent()
    ensures { (plan : Plan) (request : Request) (db : Database)
        → IsCatalog plan → takes plan request.call ≡ true → IsConsistent plan.tables db
        → StaysConsistent plan.tables (run_of plan request) db }
{}

/// A run reads and writes no more keys than it may make accesses, whatever its procedure and rows.
pub fn touches_few()
    ensures { (plan : Plan) (request : Request) (db : Database) → TouchesFew (run_of plan request) db }
{}

/// The test by which the careful run lets a row be written is that the row fits.
pub fn has_place_for_what_fits()
    ensures { (tables : List Table) (key : Key) (row : Cells)
        → (has_place tables key (Some row) ≡ true) ↔ Fits tables key row }
{}
