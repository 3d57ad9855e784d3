//! Expressions: which words of bytes they have, and which texts spell them.
//!
//! `parse` reads a text, and `print` writes the canonical one. The words stand in
//! `specs/Words.antt`, the grammar in `specs/Spelling.antt`, and what each refusal means in
//! `specs/Refusals.antt`. A word is a list of bytes by definition, also one of `??`, of a gap or of
//! a bracket, so each definition can be read alone.
#![tactic(auto)]

mod builder;
mod end;
mod error;
mod expr;
mod faults;
mod item;
mod laws;
mod lexer;
mod parser;
mod printer;
mod short;

pub use error::ExprError;
pub use expr::Expr;
pub use item::{Alternatives, Atom, Item};
pub use laws::{
    canonical_is_shortest, canonical_texts_differ, expression_is_read, faulty_text_has_first_fault,
    first_fault_is_answered, first_fault_is_outside_profile, read_is_expression, read_is_spelled,
    refusals_mean_so, spelled_is_expression, spelled_is_read, text_spells_one,
};
pub use parser::parse;
pub use printer::print;
pub use short::Short;
