// Laws of questions: each function's contract is one of them.
ghost use Rattle.question.specs.Laws.{MoreRows, AnyNumbers, ReadsBack, ReportsReadBack, WrittenAccepted};

#[tactic(auto, using(crate::proofs::Answering::more_rows))]
pub fn more_rows_more_answers()
    ensures { MoreRows }
{}

#[tactic(auto, using(crate::proofs::Answering::any_numbers))]
pub fn numbers_are_only_told_apart()
    ensures { AnyNumbers }
{}

#[tactic(auto, using(crate::proofs::Back::reads_back))]
pub fn written_reads_back()
    ensures { ReadsBack }
{}

#[tactic(auto, using(crate::proofs::Back::reports_read_back))]
pub fn written_reports_read_back()
    ensures { ReportsReadBack }
{}

#[tactic(auto, using(crate::proofs::Back::written_accepted))]
pub fn written_is_accepted()
    ensures { WrittenAccepted }
{}
