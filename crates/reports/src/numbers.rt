// The parts of lent reports: their count, then fifty numbers for each.
ghost use Rattle.std.specs.Prelude.{◌≡◌, ◌+◌, ◌*◌, ◌≤◌, length};
ghost use Rattle.reports.specs.Check.{report_part};

// The numbers of the i-th report, whether they are one or not.
pub fn report_at(reports: &[u64], i: usize) -> &[u64]
    requires { 1 + 50 * i + 50 ≤ length reports.now }
    ensures part { result.now ≡ report_part i reports.now }
    ensures fifty { length result.now ≡ 50 }
{
    &reports[1 + 50 * i..1 + 50 * i + 50]
}
