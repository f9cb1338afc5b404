// The row of a question.
use super::lines::{plain_with, show};
use std::io;

pub fn show_all(rt: &HostRuntime) -> io::Result<()> {
    show(rt, "a row without terms", &plain_with(&[(0, 0)]))?;
    show(
        rt,
        "a row and a line without terms",
        &plain_with(&[(0, 0), (11, 0)]),
    )?;
    // x0 x0 x0 x0
    show(
        rt,
        "a row of four terms",
        &plain_with(&[(0, 4), (3, 1), (5, 1), (7, 1)]),
    )?;
    show(rt, "a row of five terms", &plain_with(&[(0, 5)]))?;
    show(rt, "x1 in the row and in no line", &plain_with(&[(2, 1)]))?;
    show(rt, "x16 in the row", &plain_with(&[(2, 16)]))?;
    show(
        rt,
        "2^32 - 1 in the row",
        &plain_with(&[(1, 0), (2, 4294967295)]),
    )?;
    show(
        rt,
        "2^32 in the row",
        &plain_with(&[(1, 0), (2, 4294967296)]),
    )?;
    show(rt, "a term of kind 2 in the row", &plain_with(&[(1, 2)]))
}
