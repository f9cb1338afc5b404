// Lines of slots narrowed before the join: two lines that alone name a slot that is not shown become one line without it.
#![tactic(auto)]

mod lines;
mod merging;
mod narrowing;
mod pairs;
mod projecting;
mod rows;

pub use narrowing::narrow;
