// All maps of a question's variables, one by one: which put its lines among given lines, and what they make of its row. No search, and nothing left out.
use super::plain::{Line, Plain, Term};
use std::alloc::{AllocError, Global};

// What a variable is put as. No `Option` of a term: it takes half as much memory again, and there are many maps.
#[derive(Clone, Copy)]
enum Put {
    Nothing,
    Number(u64),
    Variable(u64),
}

impl From<Term> for Put {
    fn from(term: Term) -> Self {
        match term {
            Term::Number(n) => Put::Number(n),
            Term::Variable(x) => Put::Variable(x),
        }
    }
}

// What each variable below N is put as, if it is.
#[derive(Clone, Copy)]
pub struct Map<const N: usize>([Put; N]);

impl<const N: usize> Map<N> {
    // The map that puts nothing yet.
    pub fn new() -> Self {
        Map([Put::Nothing; N])
    }

    fn get(&self, variable: u64) -> Option<Term> {
        match *self.0.get(variable as usize)? {
            Put::Nothing => None,
            Put::Number(n) => Some(Term::Number(n)),
            Put::Variable(x) => Some(Term::Variable(x)),
        }
    }

    pub fn put(&mut self, variable: u64, term: Term) {
        if let Some(place) = self.0.get_mut(variable as usize) {
            *place = Put::from(term);
        }
    }

    // The map that goes on from this one so that the terms become the others, if there is one.
    pub fn with(&self, terms: &[Term], others: &[Term]) -> Option<Self> {
        // Most others fail at a term that is put already: no map is copied for them.
        if !self.may_make(terms, others) {
            return None;
        }
        let mut map = *self;
        for (term, other) in terms.iter().zip(others) {
            if let Term::Variable(x) = *term {
                map.put(x, map.get(x).unwrap_or(*other));
            }
        }
        if map.makes(terms, others) {
            Some(map)
        } else {
            None
        }
    }

    // Whether the terms that it puts already, and numbers, become the others.
    fn may_make(&self, terms: &[Term], others: &[Term]) -> bool {
        terms.len() == others.len()
            && terms
                .iter()
                .zip(others)
                .all(|(term, other)| self.may_become(*term, *other))
    }

    fn may_become(&self, term: Term, other: Term) -> bool {
        match term {
            Term::Number(_) => term == other,
            Term::Variable(x) => self.get(x).is_none_or(|put| put == other),
        }
    }

    // What a term becomes: a number stays, and a variable that isn't put.
    pub fn image(&self, term: Term) -> Term {
        match term {
            Term::Number(_) => term,
            Term::Variable(x) => self.get(x).unwrap_or(term),
        }
    }

    // What a row's or a line's terms become.
    pub fn images(&self, heap: Global, terms: &[Term]) -> Result<Vec<Term>, AllocError> {
        terms.iter().map(|term| self.image(*term)).collect(heap)
    }

    // Whether the terms become the others.
    fn makes(&self, terms: &[Term], others: &[Term]) -> bool {
        terms.len() == others.len()
            && terms
                .iter()
                .zip(others)
                .all(|(term, other)| self.image(*term) == *other)
    }

    // Whether all lines become some of the others.
    fn fits(&self, lines: &[Line], others: &[Line]) -> bool {
        lines.iter().all(|line| {
            others.iter().any(|other| {
                line.table == other.table && self.makes(&line.terms, &other.terms)
            })
        })
    }
}

// The terms of lines, each once.
pub fn terms_of(heap: Global, lines: &[Line]) -> Result<Vec<Term>, AllocError> {
    let mut terms = Vec::new(heap);
    for term in lines.iter().flat_map(|line| line.terms.iter()) {
        if !terms.contains(term) {
            terms.push(*term)?;
        }
    }
    Ok(terms)
}

// A variable to be put, and the place of what it is put as among the terms.
#[derive(Clone, Copy)]
struct Free {
    variable: u64,
    place: usize,
}

// The variables of lines that a map doesn't put, each once, at the first of the terms.
fn free_of(heap: Global, map: &Map<80>, lines: &[Line]) -> Result<Vec<Free>, AllocError> {
    let mut free = Vec::new(heap);
    for term in terms_of(heap, lines)?.iter() {
        match *term {
            Term::Variable(variable) if map.get(variable).is_none() => {
                free.push(Free { variable, place: 0 })?;
            }
            _ => {}
        }
    }
    Ok(free)
}

// How many maps there are of some variables to some terms.
pub fn count_maps(terms: usize, variables: usize) -> u64 {
    (0..variables).fold(1, |count: u64, _| count.saturating_mul(terms as u64))
}

// The next map: the first variable goes on to its next term; from the last it goes back to the first, and the variable after it goes on.
fn step(map: &mut Map<80>, free: &mut [Free], terms: &[Term]) {
    for one in free.iter_mut() {
        let next = one.place.saturating_add(1);
        let more = next < terms.len();
        one.place = if more { next } else { 0 };
        if let Some(term) = terms.get(one.place) {
            map.put(one.variable, *term);
        }
        if more {
            return;
        }
    }
}

// Goes through all maps that go on from one and put the lines among the others, until one is enough; false where none is.
fn any_fit<F: FnMut(&Map<80>) -> Result<bool, AllocError>>(
    heap: Global,
    from: &Map<80>,
    lines: &[Line],
    others: &[Line],
    mut enough: F,
) -> Result<bool, AllocError>
    requires { F.IsAlwaysCallable enough }
{
    let terms = terms_of(heap, others)?;
    let mut free = free_of(heap, from, lines)?;
    let mut map = *from;
    if let Some(first) = terms.first() {
        for one in &free {
            map.put(one.variable, *first);
        }
    }
    // So many maps: each is counted on from the one before.
    for _ in 0..count_maps(terms.len(), free.len()) {
        if map.fits(lines, others) && enough(&map)? {
            return Ok(true);
        }
        step(&mut map, &mut free, &terms);
    }
    Ok(false)
}

// What the row becomes under every map that puts the lines among the others, each once.
pub fn images(
    heap: Global,
    question: &Plain,
    others: &[Line],
) -> Result<Vec<Vec<Term>>, AllocError> {
    let mut found = Vec::new(heap);
    any_fit(heap, &Map::new(), &question.lines, others, |map| {
        let row = map.images(heap, &question.row)?;
        if !found.contains(&row) {
            found.push(row)?;
        }
        Ok(false)
    })?;
    Ok(found)
}

// How many maps there are of one question into another that put its row as the other's.
pub fn maps_into(heap: Global, question: &Plain, other: &Plain) -> Result<u64, AllocError> {
    let Some(map) = Map::new().with(&question.row, &other.row) else {
        return Ok(0);
    };
    let free = free_of(heap, &map, &question.lines)?;
    let terms = terms_of(heap, &other.lines)?;
    Ok(count_maps(terms.len(), free.len()))
}

// Whether some map puts the lines among the other's and the row as the other's. What the row fixes is fixed; every other variable is put as each term.
pub fn reads(heap: Global, question: &Plain, other: &Plain) -> Result<bool, AllocError> {
    let Some(map) = Map::new().with(&question.row, &other.row) else {
        return Ok(false);
    };
    let lines = &question.lines;
    any_fit(heap, &map, lines, &other.lines, |_| Ok(true))
}
