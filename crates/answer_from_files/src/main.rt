// Answers a question that stands in a file over tables that stand in files. For now it reads them all, checks the question
// and tells how many tables and rows there are.
#![tactic(auto)]

use asked::asked;
use named_files::{Failure, Named, Numbered, lend, read_named};

mod asked;

fn main(rt: HostRuntime) -> Result<(), Failure> {
    let named = read_named(&rt)?;
    let numbers = lend(rt.alloc(), &named.tables)?;
    let count = named.tables.len();
    match asked(&named.question, count, numbers.len()) {
        Ok(_) => {
            let rows = all_rows(&named.tables);
            println!(rt; "{count} tables, {rows} rows")?;
        }
        Err(refusal) => println!(rt; "{refusal}")?,
    }
    Ok(())
}

fn all_rows(tables: &[Numbered]) -> u64 {
    tables.iter().fold(0, |rows, numbered| rows.saturating_add(numbered.table.rows))
}
