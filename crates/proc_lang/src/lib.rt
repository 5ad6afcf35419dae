//! The language of stored procedures: its syntax, its meaning, and the window on a database through
//! which a run goes.
//!
//! Syntax and procedures are Rust types; contracts see expressions and blocks as plain data without
//! memory, so that equal bodies are equal. The meaning of a body (`specs/Meaning.antt`) is a tree of
//! accesses that ends in an [`End`]: statements become reads and writes, each read goes on by the row
//! that it finds.
#![tactic(auto)]

mod accesses;
mod catalogs;
mod ends;
mod expressions;
mod flaws;
mod limits;
mod operators;
mod procs;
mod statements;

pub use accesses::Access;
pub use catalogs::{Catalog, Checked, table_named};
pub use ends::{End, Gives, Trap};
pub use expressions::{Expr, Exprs};
pub use flaws::{ARGUMENT, COLUMNS, KEY_LENGTH, KIND, NESTING, REGISTER, UNKNOWN_TABLE, Wrong};
pub use limits::{
    DEEPEST_EXPR, GREATEST_CODE, MOST_ACCESSES, MOST_BLOCKS, MOST_FRONT, MOST_GIVEN, MOST_PROCS,
    MOST_REGS, MOST_STATEMENTS, MOST_TABLES,
};
pub use operators::{BinaryOp, Operand, Shape, UnaryOp};
pub use procs::{ArgKind, ArgKinds, Path, PathPart, Proc};
pub use statements::{Block, Regs, Stmt};
