//! Catalogues as JSON: the definitions, and the names of things, for those who read and who write.
//!
//! A text tells a catalogue where it is JSON of the stated form, by a walk that gives the catalogue or the
//! first place that does not have the form; and each catalogue has one JSON that is written of it. The code
//! here is names alone: what each form of expression, statement, kind and member is called, and, for all but
//! members, what has a given name.
//!
//! The walk looks at each object itself first and then at its members in their order, at arrays from
//! the front; a statement's or expression's form comes before its operands; a name that is taken is a
//! fault of the later one.
//!
//! ```text
//! Texts (what a text says)            Written (what is written)
//!    |                                   |
//! PlanWalks (tables, procedures)         |
//!    |            |                      |
//!    |        StepWalks (bodies)         |
//!    |            |                      |
//!    |        TermWalks (expressions)    |
//!    |            |        |             |
//! Members ---- Places    Shapes        Names (forms, verbs, kinds)
//! ```
//!
//! These stand in `specs/`; the code of `Members` and `Names` is in `members` and `names`. The walks
//! find forms, verbs and kinds by `Names` too. `Shapes` has what a step of the walk finds, a thing or
//! the place of the fault.
#![tactic(auto)]

mod members;
mod names;

pub use members::Member;
pub use names::{
    Form, NO_TABLE, Verb, arg_kind_name, arg_kind_named, form_named, kind_name, kind_named,
    verb_named,
};
