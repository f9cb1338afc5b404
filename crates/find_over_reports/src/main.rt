// Looks for a question over reports: reads a request as bytes from standard input, and prints one line.
#![tactic(auto)]

#[cfg(test)]
mod tests;

use rewriting::FoundLine;
use std::io;
use std::io::Read;
use wire::read_request;

fn main(rt: HostRuntime) -> io::Result<()> {
    let mut bytes = Vec::new(rt.alloc());
    rt.stdin().read_to_end(&mut bytes)?;
    match read_request(&bytes) {
        Ok(request) => {
            let line = FoundLine::of(&request.question, &request.reports);
            println!(rt; "{line}")
        }
        Err(refusal) => println!(rt; "{refusal}"),
    }
}
