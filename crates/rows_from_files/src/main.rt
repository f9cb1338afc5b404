// Answers a question that stands in a file from tables that stand in files, and prints the rows or the refusal.
#![tactic(auto)]

use named_files::{Failure, read_named};
use text::printed_text;

mod rooms;
mod text;

fn main(rt: HostRuntime) -> Result<(), Failure> {
    let named = read_named(&rt)?;
    let text = printed_text(rt.alloc(), &named.question, &named.tables)?;
    print!(rt; "{text}")?;
    Ok(())
}
