// Laws of reports: each function's contract is one of them.
ghost use Rattle.reports.specs.Laws.{ExpansionCorrect, RightExact, ByTheWidest, WidestMade, TooWideExact, FewUses, StillRight, SameReports};

pub fn expansion_is_correct()
    ensures { ExpansionCorrect }
{}

pub fn right_is_reading_both_ways()
    ensures { RightExact }
{}

pub fn the_widest_decides()
    ensures { ByTheWidest }
{}

pub fn widest_is_made()
    ensures { WidestMade }
{}

pub fn too_wide_is_exact()
    ensures { TooWideExact }
{}

pub fn no_more_uses_than_lines()
    ensures { FewUses }
{}

pub fn still_right_with_more()
    ensures { StillRight }
{}

pub fn same_reports_for_the_same()
    ensures { SameReports }
{}
