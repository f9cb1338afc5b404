// Laws of a question's own tables as numbers: each function's contract is one of them.
ghost use Rattle.containment.specs.ShownLaws.{NumbersHold, NumbersAnswer, NumbersFew};

pub fn numbers_hold_own_tables()
    ensures { NumbersHold }
{}

pub fn numbers_answer_as_own_tables()
    ensures { NumbersAnswer }
{}

pub fn numbers_of_own_tables_are_few()
    ensures { NumbersFew }
{}
