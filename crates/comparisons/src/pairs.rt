// Whether one question lies within another.
use super::draft::{line, n, row, x};
use containment::{Containment, within};
use std::io;

// What is said of two questions, and where they are apart the tables that show it.
// The size is the room's, some of whose numbers are shown.
fn show(
    rt: &HostRuntime,
    name: &str,
    first: &[u64],
    second: &[u64],
    size: usize,
) -> io::Result<()> {
    let mut all = [7; 64];
    match within(first, second, &mut all[..size.min(64)]) {
        Err(refusal) => println!(rt; "{name}: {refusal}"),
        Ok(Containment::Within) => println!(rt; "{name}: within"),
        Ok(Containment::Apart(count)) => {
            print!(rt; "{name}: apart, by the tables")?;
            for cell in all.iter().take(count as usize) {
                // A list with a blank before each number: no type has this as its text.
                print!(rt; " {cell}")?;
            }
            println!(rt; "")
        }
    }
}

// x0 of 0: x0 x1, 0: x0 x2, 1: x0 x3
pub fn fourth() -> [u64; 50] {
    let question = line(row(&[x(0)]), 0, &[x(0), x(1)]);
    line(line(question, 0, &[x(0), x(2)]), 1, &[x(0), x(3)])
}

pub fn show_all(rt: &HostRuntime) -> io::Result<()> {
    show_worked(rt)?;
    show_numbers(rt)?;
    show_widths(rt)?;
    show_refusals(rt)
}

fn show_worked(rt: &HostRuntime) -> io::Result<()> {
    let holders = line(row(&[x(0)]), 1, &[x(0), x(3)]);
    show(
        rt,
        "the fourth question and those with a holder",
        &fourth(),
        &holders,
        64,
    )?;
    show(rt, "the other way round", &holders, &fourth(), 64)?;
    show(rt, "itself", &fourth(), &fourth(), 64)
}

// It shows two questions that differ in numbers only.
fn show_numbers(rt: &HostRuntime) -> io::Result<()> {
    let any = line(row(&[]), 3, &[x(0)]);
    let five = line(row(&[]), 3, &[n(5)]);
    let one = line(row(&[]), 3, &[n(1)]);
    show(rt, "of 3: x0 and of 3: 5", &any, &five, 64)?;
    show(rt, "of 3: 5 and of 3: x0", &five, &any, 64)?;
    show(rt, "of 3: x0 and of 3: 1", &any, &one, 64)?;
    let pair = line(row(&[x(0)]), 3, &[x(0), x(0)]);
    let two = line(row(&[x(0)]), 3, &[x(0), x(1)]);
    show(rt, "a variable twice and two variables", &pair, &two, 64)?;
    show(rt, "two variables and a variable twice", &two, &pair, 64)
}

fn show_widths(rt: &HostRuntime) -> io::Result<()> {
    let narrow = line(row(&[x(0)]), 3, &[x(0)]);
    let wide = line(row(&[x(0)]), 3, &[x(0), x(0)]);
    let longer = line(row(&[x(0), x(0)]), 3, &[x(0)]);
    show(rt, "a table with two widths", &narrow, &wide, 64)?;
    show(rt, "rows of different widths", &narrow, &longer, 64)?;
    let empty = line(row(&[]), 3, &[]);
    show(
        rt,
        "an empty row and a line without terms",
        &empty,
        &empty,
        64,
    )?;
    let first = line(
        line(row(&[x(0), x(15)]), 3, &[x(0), x(1), x(2), x(3)]),
        3,
        &[x(4), x(5), x(6), x(7)],
    );
    let all = line(
        line(first, 3, &[x(8), x(9), x(10), x(11)]),
        3,
        &[x(12), x(13), x(14), x(15)],
    );
    let crossed = line(
        line(row(&[x(0), x(1)]), 3, &[x(0), x(2), x(3), x(4)]),
        3,
        &[x(5), x(6), x(7), x(1)],
    );
    show(rt, "sixteen variables and eight", &all, &crossed, 64)?;
    show(rt, "eight variables and sixteen", &crossed, &all, 64)?;
    let turned = line(
        line(row(&[x(1), x(0)]), 3, &[x(0), x(2), x(3), x(4)]),
        3,
        &[x(5), x(6), x(7), x(1)],
    );
    show(
        rt,
        "sixteen variables and the row turned",
        &all,
        &turned,
        64,
    )
}

fn show_refusals(rt: &HostRuntime) -> io::Result<()> {
    let good = fourth();
    let bad = row(&[x(0)]);
    show(rt, "the first cut short", &good[0..49], &good, 64)?;
    show(
        rt,
        "the second cut short, and the first none",
        &bad,
        &good[0..10],
        64,
    )?;
    show(rt, "the first none", &bad, &good, 64)?;
    show(rt, "the second none, and no room", &good, &bad, 3)?;
    show(rt, "63 numbers of room", &good, &good, 63)
}
