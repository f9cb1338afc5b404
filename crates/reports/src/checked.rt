// Lent reports that have passed the check.
ghost use Rattle.std.specs.Prelude.{◌≡◌, ◌≤◌, true, length, MatchOption};
ghost use Rattle.std.specs.List.{list_all};
ghost use Rattle.reports.specs.Check.{is_question};

use question::Question;

// Reports (the field says: views) that are still to come, fifty lent numbers each.
#[derive(Clone, Copy)]
pub struct Reports<'a> {
    left: &'a [[u64; 50]],
    ghost checked: { list_all is_question left.now ≡ true },
    ghost few: { length left.now ≤ 8 },
}

impl<'a> Reports<'a> {
    ghost use Rattle.std.specs.Prelude.{ℕ, ◌+◌, ◌*◌, ◌<◌, take, drop, None, slice_index_or};
    ghost use Rattle.question.specs.Check.{question_refusal};
    ghost use Rattle.question.specs.Reports.{questions_in};
    ghost use Rattle.question.specs.Lent.{question_of};
    ghost use Rattle.reports.specs.Reports.{no_question};
    ghost use Rattle.reports.specs.Lent.{reports_of};

    // The reports that lie in parts which are known to be questions.
    pub(crate) fn of_parts(parts: &'a [[u64; 50]]) -> Reports<'a>
        requires { (list_all is_question parts.now ≡ true) × (length parts.now ≤ 8) }
        ensures { result.left.now ≡ parts.now }
    {
        Reports { left: parts }
    }

    // The first n of lent reports, where each of them is known to be a question.
    pub fn first_of(numbers: &'a [u64], n: usize) -> Reports<'a>
        requires each { (i : ℕ) → i < n → question_refusal (take 50 (drop (1 + 50 * i) numbers.now)) ≡ None }
        requires lent { (n ≤ 8) × (1 + 50 * n ≤ length numbers.now) }
        ensures { reports_of result ≡ questions_in n (drop 1 numbers.now) }
    {
        let (parts, _) = numbers[1..1 + 50 * n].as_chunks();
        Reports::of_parts(parts)
    }

    // How many there are.
    pub fn count_left(&self) -> usize
        ensures { result ≡ length (reports_of self.now) }
    {
        self.left.len()
    }

    // The report at a place, if there is one.
    pub fn report(&self, place: usize) -> Option<Question<'a>>
        ensures { MatchOption result
            (length (reports_of self.now) ≤ place)
            (λ r. (place < length (reports_of self.now)) × (question_of r ≡ slice_index_or (reports_of self.now) place no_question)) }
    {
        let part = self.left.get(place)?;
        Some(Question::of_checked(part))
    }
}

impl<'a> Iterator for Reports<'a> {
    type Item = Question<'a>;

    ghost use Rattle.std.specs.Iterator.{YieldsFirstBy, item_count};
    ghost use Rattle.question.specs.Lent.{question_of};
    ghost use Rattle.reports.specs.Lent.{reports_of};

    ghost next_gives = { YieldsFirstBy question_of reports_of };

    ghost remaining = { item_count reports_of };

    fn next(&mut self) -> Option<Question<'a>> {
        let (part, left) = self.left.split_first()?;
        self.left = left;
        Some(Question::of_checked(part))
    }
}
