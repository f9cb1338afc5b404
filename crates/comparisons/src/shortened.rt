// The least question that says the same.
use super::draft::{line, row, x};
use super::pairs::fourth;
use minimization::least;
use std::io;

// What is said of a question, and the tables and terms of the lines that are left.
fn show(rt: &HostRuntime, name: &str, question: &[u64], size: usize) -> io::Result<()> {
    let mut all = [7; 52];
    match least(question, &mut all[..size.min(52)]) {
        Err(refusal) => println!(rt; "{name}: {refusal}"),
        Ok(count) => {
            print!(rt; "{name}: {count} lines,")?;
            for number in all {
                // A list with a blank before each number: no type has this as its text.
                print!(rt; " {number}")?;
            }
            println!(rt; "")
        }
    }
}

// Lines of table 3 over pairs of variables, with x0 for a row.
fn chain(pairs: &[(u8, u8)]) -> [u64; 50] {
    pairs.iter().fold(row(&[x(0)]), |question, (a, b)| {
        line(question, 3, &[x(*a), x(*b)])
    })
}

pub fn show_all(rt: &HostRuntime) -> io::Result<()> {
    show(rt, "the fourth question", &fourth(), 52)?;
    show(
        rt,
        "two least choices, at places 0 3 and 1 2",
        &chain(&[(0, 1), (0, 3), (3, 4), (1, 2)]),
        52,
    )?;
    show(rt, "a copy up to a variable", &chain(&[(0, 1), (0, 2)]), 52)?;
    let named = line(line(row(&[x(1), x(2)]), 3, &[x(0), x(1)]), 3, &[x(0), x(2)]);
    show(rt, "a copy up to a variable that the row names", &named, 52)?;
    show(
        rt,
        "a cycle of four",
        &chain(&[(0, 1), (1, 2), (2, 3), (3, 0)]),
        52,
    )?;
    show(
        rt,
        "the same line four times",
        &chain(&[(0, 1), (0, 1), (0, 1), (0, 1)]),
        52,
    )?;
    show(rt, "cut short", &fourth()[0..12], 52)?;
    show(rt, "none", &row(&[x(0)]), 3)?;
    show(rt, "49 numbers of room", &fourth(), 49)
}
