// Counts of numbers and lines, tables, and the cells of lines.
use question::check_question;
use std::io;

// Numbers with others at some places.
fn with<const N: usize>(mut numbers: [u64; N], changes: &[(usize, u64)]) -> [u64; N] {
    for (place, number) in changes {
        if let Some(old) = numbers.get_mut(*place) {
            *old = *number;
        }
    }
    numbers
}

// x0 of 7: x0
fn plain() -> [u64; 50] {
    with(
        [0; 50],
        &[(0, 1), (1, 1), (9, 1), (10, 7), (11, 1), (12, 1)],
    )
}

// A line without terms, an empty row, and numbers behind them.
fn longer() -> [u64; 60] {
    with([0; 60], &[(9, 1), (55, 5)])
}

// The plain line, n times.
fn repeated(n: u64) -> [u64; 50] {
    let mut question = [0; 50];
    question[..2].copy_from_slice(&[1, 1]);
    question[9] = n;
    // Each ten of the layout, written over.
    for line in question[10..].as_chunks_mut().0 {
        *line = [7, 1, 1, 0, 0, 0, 0, 0, 0, 0];
    }
    question
}

// The plain question with other numbers at some places.
pub fn plain_with(changes: &[(usize, u64)]) -> [u64; 50] {
    with(plain(), changes)
}

// The plain line three times, with other numbers at some places.
fn thrice_with(changes: &[(usize, u64)]) -> [u64; 50] {
    with(repeated(3), changes)
}

pub fn show(rt: &HostRuntime, name: &str, question: &[u64]) -> io::Result<()> {
    match check_question(question) {
        Ok(lines) => println!(rt; "{name}: {lines} lines"),
        Err(refusal) => println!(rt; "{name}: {refusal}"),
    }
}

// A program's list of what it shows, as `trials` has one of its own.
pub fn show_all(rt: &HostRuntime) -> io::Result<()> {
    show_counts(rt)?;
    show_cells(rt)
}

fn show_counts(rt: &HostRuntime) -> io::Result<()> {
    show(rt, "no numbers", &[])?;
    show(rt, "49 numbers", &plain()[0..49])?;
    show(rt, "50 numbers", &plain())?;
    show(rt, "60 numbers", &longer())?;
    show(rt, "no line", &repeated(0))?;
    show(rt, "one line", &repeated(1))?;
    show(rt, "four lines", &repeated(4))?;
    show(rt, "five lines", &repeated(5))?;
    show(rt, "2^64 - 1 lines", &repeated(u64::MAX))?;
    show(
        rt,
        "five lines, the third too wide",
        &with(repeated(5), &[(31, 9)]),
    )?;
    show(
        rt,
        "a table with another width at the third line",
        &thrice_with(&[(31, 0)]),
    )?;
    show(
        rt,
        "another table with another width there",
        &thrice_with(&[(30, 8)]),
    )
}

fn show_cells(rt: &HostRuntime) -> io::Result<()> {
    show(
        rt,
        "a line without terms, and x0 in the row",
        &plain_with(&[(11, 0)]),
    )?;
    show(rt, "a line of four terms", &plain_with(&[(11, 4)]))?;
    show(rt, "a line of five terms", &plain_with(&[(11, 5)]))?;
    show(rt, "table 2^32 - 1", &plain_with(&[(10, 4294967295)]))?;
    show(rt, "table 2^32", &plain_with(&[(10, 4294967296)]))?;
    show(rt, "x15 at the third line", &thrice_with(&[(33, 15)]))?;
    show(rt, "x16 at the third line", &thrice_with(&[(33, 16)]))?;
    show(
        rt,
        "2^32 - 1 at the third line",
        &thrice_with(&[(32, 0), (33, 4294967295)]),
    )?;
    show(
        rt,
        "2^32 at the third line",
        &thrice_with(&[(32, 0), (33, 4294967296)]),
    )?;
    show(
        rt,
        "a term of kind 2 at the second line",
        &thrice_with(&[(22, 2)]),
    )?;
    show(rt, "room that is not used", &plain_with(&[(14, 77)]))
}
