// Questions in lent numbers: what they are, whether they are sound and where they are not, and how their parts are read and written.
#![tactic(auto)]

mod check;
mod fits;
mod laws;
mod lent;
mod lines;
mod refusals;
mod terms;

pub use check::check_question;
pub use laws::{
    more_rows_more_answers, numbers_are_only_told_apart, written_is_accepted, written_reads_back,
    written_reports_read_back,
};
pub use lent::Question;
pub use lines::{Line, Lines};
pub use refusals::Refusal;
pub use terms::{NoTerm, Term, Terms};
