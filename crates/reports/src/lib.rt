// Reports: questions over them, their expansion, and the widest question over them.
#![tactic(auto)]

mod check;
mod checked;
mod expand;
mod expanded;
mod laws;
mod made;
mod numbers;
mod order;
mod put;
mod uses;
mod wide;

pub use check::check_reports;
pub use checked::Reports;
pub use expand::expand_uses;
pub use expanded::Expanded;
pub use laws::{
    expansion_is_correct, no_more_uses_than_lines, right_is_reading_both_ways,
    same_reports_for_the_same, still_right_with_more, the_widest_decides, too_wide_is_exact,
    widest_is_made,
};
pub use numbers::report_at;
pub use uses::Uses;
pub use wide::widest;
