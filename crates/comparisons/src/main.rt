// Questions beside questions: what `within` and `least` say of them, compared with the file stdout.
#![tactic(auto)]

mod draft;
mod pairs;
mod shortened;

use std::io;

fn main(rt: HostRuntime) -> io::Result<()> {
    pairs::show_all(&rt)?;
    shortened::show_all(&rt)
}
