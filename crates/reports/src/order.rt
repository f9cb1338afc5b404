// The order of lines as they are written: by table, then term by term, and the shorter first.
ghost use Rattle.std.specs.Prelude.{◌≡◌};
ghost use Rattle.reports.specs.Order.{written_cmp};

use std::cmp::Ordering;

// How two written lines stand to each other. Room that is left holds 0, so the counts decide only where the terms do not.
pub(crate) fn order(line: &[u64; 10], other: &[u64; 10]) -> Ordering
    ensures { result ≡ written_cmp line.now other.now }
{
    line[0]
        .cmp(&other[0])
        .then(line[2..].cmp(&other[2..]))
        .then(line[1].cmp(&other[1]))
}
