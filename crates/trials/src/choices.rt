// All choices of some of a list's lines, by size and then in order, place by place.
use super::plain::Line;
use std::alloc::{AllocError, Global};

// The places of the lines that are taken, in order.
type Choice = Vec<usize>;

// The choices of one line more, of count lines: each goes on with every place behind its last.
// The count is that of the lines, not of the choices.
fn longer(heap: Global, choices: &[Choice], count: usize) -> Result<Vec<Choice>, AllocError> {
    let mut more = Vec::new(heap);
    for choice in choices {
        let next = match choice.last() {
            Some(last) => last.saturating_add(1),
            None => 0,
        };
        // The places by number: a choice is a list of places.
        for place in next..count {
            let mut places = choice.clone()?;
            places.push(place)?;
            more.push(places)?;
        }
    }
    Ok(more)
}

// The lines that a choice takes.
fn chosen(heap: Global, choice: &Choice, lines: &[Line]) -> Result<Vec<Line>, AllocError> {
    choice
        .iter()
        .filter_map(|place| lines.get(*place))
        .map(|line| line.clone())
        .try_collect(heap)
}

// The lines of the first choice that will do, if any does, and how many of its size will.
#[derive(Drop)]
pub struct Found {
    pub lines: Option<Vec<Line>>,
    pub equal: u64,
}

impl Found {
    fn add(&mut self, lines: Vec<Line>) {
        self.equal = self.equal.saturating_add(1);
        self.lines.get_or_insert(lines);
    }
}

// The first of the smallest choices of one to four lines that will do.
pub fn smallest<F: FnMut(&[Line]) -> Result<bool, AllocError>>(
    heap: Global,
    lines: &[Line],
    mut will_do: F,
) -> Result<Found, AllocError>
    requires { F.IsAlwaysCallable will_do }
{
    let mut found = Found {
        lines: None,
        equal: 0,
    };
    let mut choices = vec![in heap; Vec::new(heap)]?;
    // Four sizes: each is made of the one before.
    for _ in 0..4 {
        choices = longer(heap, &choices, lines.len())?;
        for choice in &choices {
            let taken = chosen(heap, choice, lines)?;
            if will_do(&taken)? {
                found.add(taken);
            }
        }
        if found.equal > 0 {
            break;
        }
    }
    Ok(found)
}

// How many choices of one to four there are.
pub fn count_choices(count: u64) -> u64 {
    let mut choices: u64 = 0;
    let mut of_size: u64 = 1;
    // Four sizes: each is counted from the one before.
    for i in 0..4u64 {
        of_size = of_size.saturating_mul(count.saturating_sub(i)) / (i + 1);
        choices = choices.saturating_add(of_size);
    }
    choices
}
