// Numbers and uses as they are printed.
use super::plain::Line;
use std::{fmt, io};

// Numbers one after another, each behind a space, as they are lent.
#[derive(Clone, Copy)]
pub struct Numbers<'a>(pub &'a [u64]);

impl fmt::Display for Numbers<'_> {
    fn fmt<W: fmt::Write>(&self, f: &mut fmt::Formatter<W>) -> fmt::Result {
        for number in self.0 {
            write!(f, " {number}")?;
        }
        Ok(())
    }
}

// A question over reports: by 2: R0 x0 x2, R1 x0 x3.
// It prints what was found, piece by piece: no type has this as its text.
pub fn show_found(rt: &HostRuntime, uses: u64, out: &[u64; 52]) -> io::Result<()> {
    print!(rt; "by {uses}:")?;
    let lines = out[10..50].as_chunks::<10>().0;
    for (i, line) in lines.iter().take(uses as usize).enumerate() {
        let comma = if i > 0 { "," } else { "" };
        let found = Line::taken_in(rt.alloc(), line)?;
        print!(rt; "{comma} {found}")?;
    }
    println!(rt; "")
}
