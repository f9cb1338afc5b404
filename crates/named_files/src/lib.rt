// The files that a program's arguments name: a question, and tables in text.
#![tactic(auto)]

mod arguments;
mod failure;
mod files;
mod lent;
#[cfg(test)]
mod tests;

pub use arguments::number_and_path;
pub use failure::Failure;
pub use files::{Named, read_named};
pub use lent::{Numbered, lend};
