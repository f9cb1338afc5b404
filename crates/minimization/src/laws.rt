// Laws of least questions: each function's contract is one of them.
ghost use Rattle.minimization.specs.Laws.{LeastMade, FewestLines, LeastFirst, OneLeast, TwoWays};

pub fn least_is_least()
    ensures { LeastMade }
{}

pub fn least_has_the_fewest_lines()
    ensures { FewestLines }
{}

pub fn least_is_first_by_places()
    ensures { LeastFirst }
{}

pub fn all_least_are_alike()
    ensures { OneLeast }
{}

pub fn two_least_choices_and_ours()
    ensures { TwoWays }
{}
