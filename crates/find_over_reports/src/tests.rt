// That the line of a request can be had: its contract says which bytes it has, and not that there is memory for them.
use rewriting::found_line;

// A question whose row and whose first count lines are two variables each; a line is its table and the two.
// Lines past the count stand in room that is not used, which may hold anything.
fn question(row: [u64; 2], count: u64, lines: [[u64; 3]; 3]) -> [u64; 50] {
    let mut numbers = [0; 50];
    numbers[..5].copy_from_slice(&[2, 1, row[0], 1, row[1]]);
    numbers[9] = count;
    for (place, line) in numbers[10..].as_chunks_mut().0.iter_mut().zip(&lines) {
        let [table, first, second] = *line;
        *place = [table, 2, 1, first, 1, second, 0, 0, 0, 0];
    }
    numbers
}

// Three reports: holders of ships at a berth, goods of ships that have a holder, and ships by berth.
fn reports() -> [u64; 151] {
    let reports = [
        question([0, 2], 2, [[0, 0, 1], [1, 0, 2], [0, 0, 0]]),
        question([0, 1], 2, [[2, 0, 1], [1, 0, 2], [0, 0, 0]]),
        question([1, 0], 1, [[0, 0, 1], [0, 0, 0], [0, 0, 0]]),
    ];
    let mut numbers = [0; 151];
    numbers[0] = 3;
    for (place, report) in numbers[1..].as_chunks_mut().0.iter_mut().zip(&reports) {
        *place = *report;
    }
    numbers
}

#[test]
fn a_line_can_be_had(rt: HostRuntime) {
    let reports = reports();
    let holders = question([2, 3], 3, [[0, 0, 1], [1, 0, 2], [2, 0, 3]]);
    let by_two = found_line(rt.alloc(), &holders, &reports).expect(&rt, "memory for a line");
    assert!(rt; by_two.as_str() == "by 2: R0 x0 x2, R1 x0 x3");
    let goods = question([3, 1], 2, [[0, 0, 1], [2, 0, 3], [0, 0, 0]]);
    let none = found_line(rt.alloc(), &goods, &reports).expect(&rt, "memory for a line");
    assert!(rt; none.as_str() == "none");
    let refused = found_line(rt.alloc(), &[], &reports).expect(&rt, "memory for a line");
    assert!(rt; refused.as_str() == "refused 1 at 0");
}
