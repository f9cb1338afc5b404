// The edges of every refusal of a question: each case with what the check says of it, compared with the file stdout.
#![tactic(auto)]

mod bytes;
mod lines;
mod rows;

use std::io;

fn main(rt: HostRuntime) -> io::Result<()> {
    lines::show_all(&rt)?;
    rows::show_all(&rt)?;
    bytes::show_all(&rt)
}
