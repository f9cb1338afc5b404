// Reading one question into another, and a question's own tables: whether one question lies within another.
#![tactic(auto)]

mod ahead;
mod answer;
mod compare;
mod fresh;
mod laws;
mod reading;
mod search;
mod shown;
mod shown_laws;

pub use answer::Containment;
pub use compare::within;
pub use laws::{
    any_naming_shows, naming_is_least, naming_is_new, naming_is_small, naming_is_the_only_one,
    search_is_exact, within_is_decided, within_is_exact, within_is_reading,
};
pub use reading::Reading;
pub use search::{first_reading, read_lines, reads_into};
pub use shown_laws::{
    numbers_answer_as_own_tables, numbers_hold_own_tables, numbers_of_own_tables_are_few,
};
