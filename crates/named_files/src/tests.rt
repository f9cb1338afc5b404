// That tables can be read and lent: the contracts say what comes of it, and not that there is memory for it.
use super::files::read_numbered;
use super::lent::{Numbered, lend};
use wire::read_table;

#[test]
fn a_table_can_be_read(rt: HostRuntime) {
    let empty = read_numbered(&rt, "3=/dev/null").expect(&rt, "a file without lines");
    assert!(rt; empty.number == 3 && empty.table.rows == 0);
}

#[test]
fn a_table_can_be_lent(rt: HostRuntime) {
    let heap = rt.alloc();
    let table = read_table(heap, b"30,1001\n").expect(&rt, "memory for a table");
    let tables = [Numbered { number: 3, table }];
    let numbers = lend(heap, &tables).expect(&rt, "memory for what is lent");
    assert!(rt; numbers.as_slice() == [1, 3, 1, 2, 30, 1001].as_slice());
}
