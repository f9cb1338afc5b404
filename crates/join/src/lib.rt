// Lines of slots, joined over one sorted list of rows: the rows of all values under which every line stands, each once and in order.
#![tactic(auto)]

mod asking;
mod order;
mod output;
mod search;
mod slots;

pub use asking::{Join, Setting};
pub use order::{Row, lower, put_in_order};
pub use output::NoRoomAfter;
pub use slots::{SlotLine, Values, names, row_under};
