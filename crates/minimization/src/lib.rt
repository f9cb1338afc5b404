// The least question that says the same.
#![tactic(auto)]

mod choose;
mod chosen;
mod laws;
mod shorten;
mod test;
#[cfg(test)]
mod tests;

pub use choose::{Candidates, LentCandidates};
pub use chosen::Chosen;
pub use laws::{
    all_least_are_alike, least_has_the_fewest_lines, least_is_first_by_places, least_is_least,
    two_least_choices_and_ours,
};
pub use shorten::least;
pub use test::{PartialTest, Test};
