// A question in lent numbers, made line by line.
use question::Term;

// The variable x0, x1 and so on.
pub fn x(i: u8) -> Term {
    Term::Variable(i)
}

pub fn n(number: u32) -> Term {
    Term::Number(number)
}

// Writes terms, as many as there is room for.
fn put(room: &mut [u64], terms: &[Term]) {
    for (place, term) in room.as_chunks_mut().0.iter_mut().zip(terms) {
        let (kind, number) = term.numbers();
        *place = [kind, number];
    }
}

// A question with a row and no line yet.
pub fn row(terms: &[Term]) -> [u64; 50] {
    let mut question = [0; 50];
    question[0] = terms.len() as u64;
    put(&mut question[1..9], terms);
    question
}

// The question with a line more.
pub fn line(mut question: [u64; 50], table: u64, terms: &[Term]) -> [u64; 50] {
    let count = question[9] as usize;
    if count < 4 {
        // The number in the layout is the count itself.
        question[9] += 1;
        let line = &mut question[10 + 10 * count..20 + 10 * count];
        line[0] = table;
        line[1] = terms.len() as u64;
        put(&mut line[2..], terms);
    }
    question
}
