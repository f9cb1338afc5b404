// The lent tables copied for the lines of a question, all in one list of rows for the join.
ghost use Rattle.std.specs.Prelude.{◌≡◌, ℕ, ◌<◌, ◌≤◌, ◌&&◌, ◌∷◌, ◌++◌, length, IfOk, OnOk, slice_index_or};
ghost use Rattle.std.proofs.Props.{props};
ghost use Rattle.question.specs.Lent.{line_of, question_of};
ghost use Rattle.answer.specs.Plan.{no_line};
ghost use Rattle.answer.specs.Columns.{order_of, orders_of};
ghost use Rattle.answer.specs.Lent.{base_of};
ghost use Rattle.answer.specs.Taking.{OrderWithin, FitsLine, one_number, takes, copy_cell, copy_row, copies_of, all_copies};

use super::columns::{Column, PlannedLine};
use super::tables::{Table, Tables};
use join::Row;
use question::{Line, Question, Term};
use std::alloc::{AllocError, Global};

// The terms of a line, read once for all rows.
fn read_terms(heap: Global, line: &Line<'_, 16>) -> Result<Vec<Term>, AllocError>
    ensures { IfOk result (λ terms. terms.items ≡ (line_of line.now).cells) }
{
    line.terms().collect(heap)
}

// Whether all cells where the terms have the variable x are the number.
fn one_number(terms: &[Term], cells: &[u64], x: u8, number: u64) -> bool
    ensures { result ≡ one_number x number terms.now cells.now }
{
    for (term, cell) in terms.iter().zip(cells) {
        if *term == Term::Variable(x) && *cell != number {
            return false;
        }
    }
    true
}

// Whether the cell may be what the term is, as far as the cells behind it tell.
fn cell_passes(term: Term, cell: u64, terms: &[Term], cells: &[u64]) -> bool
    ensures { takes (term ∷ terms.now) (cell ∷ cells.now) ≡ (result && takes terms.now cells.now) }
{
    match term {
        Term::Number(n) => cell == u64::from(n),
        Term::Variable(x) => one_number(terms, cells, x, cell),
    }
}

// Whether the row may be what the terms are under a value.
fn takes(terms: &[Term], row: &[u64]) -> bool
    ensures { result ≡ takes terms.now row.now }
{
    let mut terms = terms;
    let mut cells = row;
    // Not a zip: where the lists are not equally long the answer is no.
    while let Some((cell, cells_behind)) = cells.split_first() {
        // Not `?`: the answer is a yes or no.
        let Some((term, terms_behind)) = terms.split_first() else {
            return false;
        };
        if !cell_passes(*term, *cell, terms_behind, cells_behind) {
            return false;
        }
        terms = terms_behind;
        cells = cells_behind;
    }
    terms.is_empty()
}

// A line by its number, the table that it names, its terms, and its columns in the order of their slots.
#[derive(Clone, Copy)]
struct Copier<'a> {
    id: u64,
    table: u64,
    terms: &'a [Term],
    columns: &'a [Column],
    ghost few: { length columns.now ≤ 4 },
    ghost fits: { FitsLine terms.now columns.now } by { Prim.hlevel props },
}

impl<'a> Copier<'a> {
    ghost use Rattle.answer.specs.Lent.{held_by};

    // The c-th cell of a row's copy, and 0 behind the last.
    fn copy_cell(&self, row: &[u64], c: usize) -> u64
        requires { length row.now ≡ length self.now.terms.now }
        ensures { result ≡ copy_cell (order_of self.now.columns.now) row.now c }
    {
        match self.columns.get(c) {
            Some(&Column { place, .. }) => row[place],
            None => 0,
        }
    }

    // The copy of a row.
    fn copy(&self, row: &[u64]) -> Row
        requires { length row.now ≡ length self.now.terms.now }
        ensures { result ≡ copy_row self.now.id (order_of self.now.columns.now) row.now }
    {
        [
            self.id,
            self.copy_cell(row, 0),
            self.copy_cell(row, 1),
            self.copy_cell(row, 2),
            self.copy_cell(row, 3),
        ]
    }

    // Puts copies of the table's rows that the line takes behind the others.
    fn copy_rows(&self, table: &Table<'_>, rows: &mut Vec<Row>) -> Result<(), AllocError>
        ensures { OnOk result (rows.new.items ≡ rows.old.items ++ copies_of self.now.id (order_of self.now.columns.now) self.now.terms.now (held_by table.now)) }
    {
        // A table of another width has no row that the line takes: it is passed over whole.
        if table.columns() != self.terms.len() as u64 {
            return Ok(());
        }
        for row in table.rows() {
            if takes(self.terms, row) {
                rows.push(self.copy(row))?;
            }
        }
        Ok(())
    }

    // Puts copies of the line's table behind the other rows.
    fn copy_line(&self, tables: Tables<'_>, rows: &mut Vec<Row>) -> Result<(), AllocError>
        ensures { OnOk result (rows.new.items ≡ rows.old.items ++ copies_of self.now.id (order_of self.now.columns.now) self.now.terms.now (base_of tables.entry self.now.table)) }
    {
        for table in tables {
            if table.number() == self.table {
                self.copy_rows(&table, rows)?;
            }
        }
        Ok(())
    }
}

// The lent tables copied for each line of a question. A line's cells are copied in the order of its columns.
pub(crate) fn copy_tables(
    heap: Global,
    question: &Question<'_>,
    lines: &[PlannedLine],
    tables: Tables<'_>,
) -> Result<Vec<Row>, AllocError>
    requires orders { (i : ℕ) (d : _) → i < length (question_of question.now).lines → FitsLine (slice_index_or (question_of question.now).lines i no_line).cells (slice_index_or lines.now i d).columns.items }
    requires many { length lines.now ≡ length (question_of question.now).lines }
    ensures { IfOk result (λ rows. rows.items ≡ all_copies (base_of tables.entry) 0 (question_of question.now).lines (orders_of lines.now)) }
{
    let mut rows = Vec::new(heap);
    for (i, line) in question.lines().enumerate() {
        // The line's number is its place in the plan.
        let terms = read_terms(heap, &line)?;
        let copier = Copier {
            id: i as u64,
            table: line.table(),
            terms: &terms,
            columns: &lines[i].columns,
        };
        copier.copy_line(tables, &mut rows)?;
    }
    Ok(rows)
}
