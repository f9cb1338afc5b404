// Random requests beside a second way that tries everything: what was compared, and how many differ.
#![tactic(auto)]

mod answered;
mod answers;
mod asked;
mod cases;
mod choices;
mod counts;
mod crowded;
mod dice;
mod draft;
mod draw;
mod large;
mod lent;
mod over_reports;
mod pairs;
mod plain;
mod questions;
mod reading;
mod requests;
mod rooms;
mod shortened;
mod shown;
mod tables;
mod turned_away;

use counts::Count;
use std::io;

fn main(rt: HostRuntime) -> io::Result<()> {
    let mut differ = Count::default();
    differ.add(cases::show_all(&rt)?);
    answered::show_all(&rt)?;
    differ.add(requests::try_all(&rt, 14000)?);
    differ.add(pairs::try_all(&rt, 4000)?);
    differ.add(shortened::try_all(&rt, 4000)?);
    differ.add(answers::try_all(&rt, 6000)?);
    differ.add(large::try_all(&rt, 24)?);
    differ.add(turned_away::try_all(&rt, 3000)?);
    println!(rt; "{differ} differ")
}
