// What a question answers from lent tables.
#![tactic(auto)]

mod answering;
mod codes;
mod columns;
mod copies;
mod laws;
mod plan;
mod tables;

pub use answering::answer;
pub use laws::plan_answers;
pub use tables::check_tables;
