// A request in lent numbers.

// What is not used is 0.
#[derive(Drop)]
pub struct Request {
    // The count of the reports, then fifty numbers for each of eight.
    pub reports: [u64; 401],
    pub question: [u64; 50],
}
