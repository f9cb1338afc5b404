// The fewest uses of reports that answer a question.
#![tactic(auto)]

mod fewest;
mod laws;
mod line;
mod reply;

pub use fewest::find;
pub use laws::{
    always_found, find_is_first, find_is_right, find_within_the_limits,
    more_reports_never_need_more, one_reading_decides, the_widest_tells_if_found,
    worked_fourth_holds, worked_table_holds,
};
pub use line::{FoundLine, found_line};
pub use reply::Reply;
