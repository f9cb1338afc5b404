// Laws of answering: each function's contract is one of them.
ghost use Rattle.answer.specs.Laws.{PlanAnswers};

pub fn plan_answers()
    ensures { PlanAnswers }
{}
