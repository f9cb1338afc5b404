// Laws of finding the fewest uses: each function's contract is one of them.
ghost use Rattle.rewriting.specs.Laws.{AlwaysFound, FindRight, FindFirst, FindAllowed, WillDoExact, FoundByWidest, MoreReports};
ghost use Rattle.rewriting.specs.Examples.{AllHold, Fourth};

pub fn always_found()
    ensures { AlwaysFound }
{}

pub fn find_is_right()
    ensures { FindRight }
{}

pub fn find_is_first()
    ensures { FindFirst }
{}

pub fn find_within_the_limits()
    ensures { FindAllowed }
{}

pub fn one_reading_decides()
    ensures { WillDoExact }
{}

pub fn the_widest_tells_if_found()
    ensures { FoundByWidest }
{}

pub fn more_reports_never_need_more()
    ensures { MoreReports }
{}

pub fn worked_table_holds()
    ensures { AllHold }
{}

pub fn worked_fourth_holds()
    ensures { Fourth }
{}
