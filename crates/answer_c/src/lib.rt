// Answering from tables for callers in C and in Rust: a slice crosses as a pointer and a length, the allocator as nothing.
#![tactic(auto)]

mod exported;

pub use exported::{Told, answer_c};
