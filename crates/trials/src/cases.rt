// Requests that are not random: the worked questions, each refusal once, and 32 and 33 uses to choose from.
use super::asked::{Request, lent_reports};
use super::dice::Dice;
use super::draft::{n, pair, row, x};
use super::plain::Plain;
use super::requests::Tally;
use super::shown::show_found;
use rewriting::{Reply, find};
use std::alloc::{AllocError, Global};
use std::io;

// Table 0 has ship and berth, table 1 ship and holder, table 2 ship and goods: holders of ships with a berth, goods of ships with a holder, and berths.
fn worked_reports(heap: Global) -> Result<Vec<Plain>, AllocError> {
    let first = row(heap, &[x(0), x(2)])?.and(0, x(0), x(1))?;
    let second = row(heap, &[x(0), x(1)])?.and(2, x(0), x(1))?;
    let third = row(heap, &[x(1), x(0)])?.and(0, x(0), x(1))?;
    let first = first.and(1, x(0), x(2))?;
    let second = second.and(1, x(0), x(2))?;
    Ok(vec![in heap; first, second, third]?)
}

// Prints what find answers, with so many numbers lent for what is found.
fn show(
    rt: &HostRuntime,
    name: &str,
    question: &[u64],
    reports: &[u64],
    room: usize,
) -> io::Result<()> {
    let mut out = [7; 52];
    let reply = find(question, reports, &mut out[0..room.min(52)]);
    print!(rt; "{name}: ")?;
    match reply {
        Reply::By(uses) => show_found(rt, uses, &out),
        Reply::Impossible => println!(rt; "none"),
        Reply::Refused(refusal) => println!(rt; "{refusal}"),
    }
}

impl Tally {
    // Prints what find answers, and compares it with the second way.
    fn show_and_try(
        &mut self,
        rt: &HostRuntime,
        name: &str,
        question: Plain,
        reports: Vec<Plain>,
    ) -> io::Result<()> {
        let heap = rt.alloc();
        let lent = lent_reports(heap, &reports, 0)?;
        show(rt, name, &question.lent(0), &lent, 52)?;
        let request = Request::new(heap, [2; 3], question, reports)?;
        let mut dice = Dice::new(362436069);
        self.try_request(rt, &mut dice, &request)
    }

    // Of the worked reports.
    fn show_worked(&mut self, rt: &HostRuntime, name: &str, question: Plain) -> io::Result<()> {
        let reports = worked_reports(rt.alloc())?;
        self.show_and_try(rt, name, question, reports)
    }

    fn show_all_worked(&mut self, rt: &HostRuntime) -> io::Result<()> {
        let heap = rt.alloc();
        let berth = row(heap, &[x(2), x(3)])?.and(0, x(0), x(1))?;
        let first = berth.and(1, x(0), x(2))?.and(2, x(0), x(3))?;
        self.show_worked(rt, "the first worked question", first)?;
        let second = row(heap, &[x(3), x(1)])?.and(0, x(0), x(1))?;
        let second = second.and(2, x(0), x(3))?;
        self.show_worked(rt, "the second worked question", second)?;
        let third = row(heap, &[x(2)])?.and(0, x(0), n(7))?;
        let third = third.and(1, x(0), x(2))?;
        self.show_worked(rt, "the third worked question", third)?;
        let twice = row(heap, &[x(0)])?.and(0, x(0), x(1))?;
        let fourth = twice.and(0, x(0), x(2))?.and(1, x(0), x(3))?;
        self.show_worked(rt, "the fourth worked question", fourth)?;
        let fifth = row(heap, &[x(0), x(2)])?.and(1, x(0), x(2))?;
        self.show_worked(rt, "the fifth worked question", fifth)?;
        let sixth = row(heap, &[x(0), x(4)])?.and(0, x(0), x(1))?;
        let sixth = sixth.and(0, x(4), x(1))?;
        self.show_worked(rt, "the sixth worked question", sixth)
    }

    // Two reports of sixteen uses each, and one of an empty row: 32 uses, and 33. More readings than uses make no difference.
    fn show_widest(&mut self, rt: &HostRuntime) -> io::Result<()> {
        let heap = rt.alloc();
        let two = row(heap, &[x(0), x(1), x(2), x(3)])?.and(0, x(0), x(1))?;
        let two = two.and(0, x(1), x(2))?;
        let question = two.and(0, x(2), x(3))?.and(0, x(3), x(0))?;
        let plain = pair(heap, &[x(0), x(1), x(2), x(3)])?;
        let turned = pair(heap, &[x(3), x(2), x(1), x(0)])?;
        let some = row(heap, &[])?.and(0, x(0), x(1))?;
        let mut reports = vec![in heap; plain.clone()?, turned]?;
        let name = "32 uses to choose from";
        self.show_and_try(rt, name, question.clone()?, reports.clone()?)?;
        reports.push(some)?;
        let name = "33 uses to choose from";
        self.show_and_try(rt, name, question.clone()?, reports)?;
        let longer = plain.clone()?.and(0, x(4), x(5))?;
        let reports = vec![in heap; plain, longer]?;
        let name = "32 uses by 80 readings";
        self.show_and_try(rt, name, question.clone()?, reports)?;
        let hidden = pair(heap, &[x(0)])?;
        let reports = vec![in heap; hidden; 3]?;
        let name = "12 uses by 48 readings, and no way";
        self.show_and_try(rt, name, question, reports)
    }

    // Two who share what the report hides: two uses of it would answer more.
    fn show_hidden(&mut self, rt: &HostRuntime) -> io::Result<()> {
        let heap = rt.alloc();
        let hides = row(heap, &[x(0)])?.and(0, x(0), x(1))?;
        let question = row(heap, &[x(0), x(2)])?.and(0, x(0), x(1))?;
        let question = question.and(0, x(2), x(1))?;
        let reports = vec![in heap; hides]?;
        self.show_and_try(rt, "a join that is hidden", question, reports)
    }
}

// The other refusals, with the later ones at hand too where they could be told instead.
fn show_refusals(rt: &HostRuntime) -> io::Result<()> {
    let heap = rt.alloc();
    let report = row(heap, &[x(0)])?.and(0, x(0), x(1))?;
    let good = report.lent(0);
    let own = lent_reports(heap, &[report.clone()?], 0)?;
    let name = "the question cut short";
    show(rt, name, &good[0..49], &own, 52)?;
    let bad = row(heap, &[])?.lent(0);
    let twice = row(heap, &[x(0), x(0)])?.and(0, x(0), x(1))?;
    let at_fault = lent_reports(heap, &[report, twice], 0)?;
    show(rt, "no line", &bad, &at_fault, 49)?;
    let name = "a variable twice in a report's row";
    show(rt, name, &good, &at_fault, 49)?;
    let name = "49 numbers for what is found";
    show(rt, name, &good, &own, 49)?;
    show(rt, "nine reports", &good, &[9; 500], 52)
}

pub fn show_all(rt: &HostRuntime) -> io::Result<u64> {
    let mut tally = Tally::default();
    tally.show_all_worked(rt)?;
    tally.show_hidden(rt)?;
    tally.show_widest(rt)?;
    show_refusals(rt)?;
    Ok(tally.differ.number())
}
