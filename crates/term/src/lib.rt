// Messages, the machine's reductions and Dolev-Yao steps, over all terms, with their laws; and the tables of kinds and rules.
// Promises: every function is total, for all bytes, and its answer is the table's, as specs/ has it.
#![tactic(auto)]

pub mod kind;
pub mod rules;

pub use kind::{Kind, UnknownKind};

// What a test asks of two terms: that they are equal, or that the first is a key and the second its inverse.
#[derive(Clone, Copy, PartialEq, Eq)]
pub enum Relation {
    Equal,
    Inverse,
}
