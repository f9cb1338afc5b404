// Laws of the byte form and of tables in text: each function's contract is one of them.
ghost use Rattle.wire.specs.Laws.{WrittenInBytes, ReadsBack, QuestionReadsBack, SameRequest, AnyCutShort, IsCutShort, QuestionCutShort, TablesReadBack};

pub fn requests_are_written_in_bytes()
    ensures { WrittenInBytes }
{}

pub fn written_requests_are_read_back()
    ensures { ReadsBack }
{}

pub fn written_questions_are_read_back()
    ensures { QuestionReadsBack }
{}

pub fn numbers_are_the_same_request()
    ensures { SameRequest }
{}

pub fn only_whole_requests_are_read()
    ensures { AnyCutShort }
{}

pub fn requests_cut_short_are_refused()
    ensures { IsCutShort }
{}

pub fn questions_cut_short_are_refused()
    ensures { QuestionCutShort }
{}

pub fn written_tables_are_read_back()
    ensures { TablesReadBack }
{}
