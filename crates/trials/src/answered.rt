// Questions that are answered from tables by hand: each refusal of `answer` once, and what is left in the room.
use super::draft::{n, row, x};
use super::rooms::Call;
use super::shown::Numbers;
use std::io;

// Table 0 has the rows 5 1, 4 2, 5 1 and 4 1, table 1 the row 1 9.
const TABLES: [u64; 17] = [2, 0, 4, 2, 5, 1, 4, 2, 5, 1, 4, 1, 1, 1, 2, 1, 9];

// Prints what answer tells, and what it leaves in a room of so many 7s.
fn show(
    rt: &HostRuntime,
    name: &str,
    question: &[u64],
    tables: &[u64],
    room: usize,
) -> io::Result<()> {
    let mut out = vec![in rt.alloc(); 7; room]?;
    let call = Call { question, tables };
    let told = call.told(rt.alloc(), &mut out);
    print!(rt; "{name}: ")?;
    match told {
        Ok(count) => print!(rt; "rows {count}")?,
        Err(refusal) => print!(rt; "{refusal}")?,
    }
    println!(rt; ", left{}", Numbers(&out))
}

fn show_rows(rt: &HostRuntime) -> io::Result<()> {
    let heap = rt.alloc();
    let all = row(heap, &[x(0), x(1)])?.and(0, x(0), x(1))?.lent(0);
    show(rt, "a table in order", &all, &TABLES, 8)?;
    show(rt, "no room for the third row", &all, &TABLES, 5)?;
    let first = row(heap, &[x(2), x(0)])?.and(0, x(0), x(1))?;
    let joined = first.and(1, x(1), x(2))?.lent(0);
    show(rt, "two tables", &joined, &TABLES, 5)?;
    let named = row(heap, &[n(3), x(0), x(0)])?.and(0, x(0), n(2))?.lent(0);
    let name = "a number in the row, and a variable twice";
    show(rt, name, &named, &TABLES, 4)?;
    let some = row(heap, &[])?.and(0, x(0), n(2))?.lent(0);
    show(rt, "the empty row, and no room", &some, &TABLES, 0)?;
    let none = row(heap, &[])?.and(0, x(0), x(0))?.lent(0);
    show(rt, "not the empty row", &none, &TABLES, 1)?;
    let other = row(heap, &[x(0)])?.and(2, x(0), x(1))?.lent(0);
    show(rt, "a table that isn't lent", &other, &TABLES, 1)
}

// With the later faults at hand too where they could be told instead.
fn show_refusals(rt: &HostRuntime) -> io::Result<()> {
    let heap = rt.alloc();
    let good = row(heap, &[x(0)])?.and(0, x(0), x(1))?.lent(0);
    let bad = row(heap, &[])?.lent(0);
    show(rt, "49 numbers and no tables", &good[0..49], &[], 1)?;
    show(rt, "tables cut short, and no line", &bad, &TABLES[0..16], 1)?;
    show(rt, "17 tables", &good, &[17; 500], 1)?;
    let past = [1, 0, 9223372036854775808, 2];
    show(rt, "rows by columns past 64 bits", &good, &past, 1)?;
    let large = [2, 0, 0, 2, 9, 4097, 0];
    show(rt, "no line, and a large table", &bad, &large, 1)?;
    let name = "4097 rows of a table that no line names";
    show(rt, name, &good, &large, 1)?;
    show(rt, "5 columns", &good, &[1, 0, 0, 5], 1)?;
    show(rt, "4096 rows of no columns", &good, &[1, 0, 4096, 0], 1)
}

// A program's list of what it shows, as `edges` has one of its own.
pub fn show_all(rt: &HostRuntime) -> io::Result<()> {
    show_rows(rt)?;
    show_refusals(rt)
}
