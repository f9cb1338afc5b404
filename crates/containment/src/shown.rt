// A question's own tables, written down as numbers in the layout in which tables are lent.
ghost use Rattle.std.specs.Prelude.{◌≡◌, ◌≤◌, ◌∷◌, false, not, ◌++◌, length, drop, if◌then◌else◌, nat_eq};
ghost use Rattle.question.specs.Question.{Value};
ghost use Rattle.question.specs.Layout.{value_in};
ghost use Rattle.question.specs.Lent.{line_of, lines_of, question_of};
ghost use Rattle.containment.specs.OwnTables.{rows_of};
ghost use Rattle.containment.specs.OwnNumbers.{line_eqb, one_table, has_same, lines_once, table_heads, cells_out, table_out, each_out, tables_out};

use question::{Line, Lines, Question};

// Whether two lines are the same: of one table and with the same terms.
// Not a derived `==`: room that a line does not use may differ.
fn same_line(a: &Line<'_, 16>, b: &Line<'_, 16>) -> bool
    ensures { result ≡ line_eqb (line_of a.now) (line_of b.now) }
{
    a.table() == b.table() && a.terms().eq(b.terms())
}

// Whether one of the lines is the same as this one.
fn has_line(lines: &Lines<'_, 16>, line: &Line<'_, 16>) -> bool
    ensures { result ≡ has_same line_eqb (lines_of lines.now) (line_of line.now) }
{
    for other in *lines {
        if same_line(&other, line) {
            return true;
        }
    }
    false
}

// Whether one of the lines is of the table.
fn has_table(lines: &Lines<'_, 16>, line: &Line<'_, 16>) -> bool
    ensures { result ≡ has_same one_table (lines_of lines.now) (line_of line.now) }
{
    for other in *lines {
        if other.table() == line.table() {
            return true;
        }
    }
    false
}

// Whether a line behind some others gives the table a row: it is of the table, and none of the others is the same.
fn gives_row(before: &Lines<'_, 16>, line: &Line<'_, 16>, of: u64) -> bool
    ensures { result ≡ (if nat_eq (line_of line.now).table of then not (has_same line_eqb (lines_of before.now) (line_of line.now)) else false) }
{
    line.table() == of && !has_line(before, line)
}

// A question's own tables, to be written: its lines, and the values that name its variables.
#[derive(Clone, Copy)]
struct OwnTables<'a> {
    lines: Lines<'a, 16>,
    values: &'a [u64; 16],
    ghost few: { length (lines_of lines) ≤ 4 },
}

impl<'a> OwnTables<'a> {
    // How many rows the table has.
    fn count_rows(&self, of: u64) -> usize
        ensures { (v : Value) → result ≡ length (rows_of v of (lines_once (lines_of self.now.lines))) }
    {
        let mut count = 0;
        for (i, line) in self.lines.enumerate() {
            if gives_row(&self.lines.front(i), &line, of) {
                // The count is the answer; each line is looked at with those before it.
                count += 1;
            }
        }
        count
    }

    // How many tables the lines name.
    fn count(&self) -> usize
        ensures { result ≡ length (table_heads (lines_of self.now.lines)) }
    {
        let mut count = 0;
        for (i, line) in self.lines.enumerate() {
            if !has_table(&self.lines.front(i), &line) {
                // The count is the answer; each line is looked at with those before it.
                count += 1;
            }
        }
        count
    }

    // Writes the rows of the table, cell after cell, to the front of room: how many numbers they are.
    fn write_rows(&self, of: u64, room: &mut [u64]) -> usize
        requires { length (cells_out (rows_of (value_in self.now.values.now) of (lines_once (lines_of self.now.lines)))) ≤ length room.old }
        ensures count { result ≡ length (cells_out (rows_of (value_in self.now.values.now) of (lines_once (lines_of self.now.lines)))) }
        ensures written { room.new ≡ cells_out (rows_of (value_in self.now.values.now) of (lines_once (lines_of self.now.lines))) ++ drop result room.old }
    {
        let mut at = 0;
        for (i, line) in self.lines.enumerate() {
            if gives_row(&self.lines.front(i), &line, of) {
                line.row_under(self.values, &mut room[at..]);
                at += line.width();
            }
        }
        at
    }

    // Writes the table that a line names to the front of room: how many numbers it is.
    fn write_table(&self, head: &Line<'_, 16>, room: &mut [u64]) -> usize
        requires { length (table_out (value_in self.now.values.now) (lines_once (lines_of self.now.lines)) (line_of head.now)) ≤ length room.old }
        ensures count { result ≡ length (table_out (value_in self.now.values.now) (lines_once (lines_of self.now.lines)) (line_of head.now)) }
        ensures written { room.new ≡ table_out (value_in self.now.values.now) (lines_once (lines_of self.now.lines)) (line_of head.now) ++ drop result room.old }
    {
        let of = head.table();
        room[0] = of;
        room[1] = self.count_rows(of) as u64;
        room[2] = head.width() as u64;
        3 + self.write_rows(of, &mut room[3..])
    }

    // Writes each table to the front of room, in order of the first line that names it: how many numbers they are.
    fn write_each(&self, room: &mut [u64]) -> usize
        requires { length (each_out (value_in self.now.values.now) (lines_once (lines_of self.now.lines)) (table_heads (lines_of self.now.lines))) ≤ length room.old }
        ensures count { result ≡ length (each_out (value_in self.now.values.now) (lines_once (lines_of self.now.lines)) (table_heads (lines_of self.now.lines))) }
        ensures written { room.new ≡ each_out (value_in self.now.values.now) (lines_once (lines_of self.now.lines)) (table_heads (lines_of self.now.lines)) ++ drop result room.old }
    {
        let mut at = 0;
        for (i, line) in self.lines.enumerate() {
            if !has_table(&self.lines.front(i), &line) {
                at += self.write_table(&line, &mut room[at..]);
            }
        }
        at
    }
}

// Writes a question's own tables, its variables named by the values, to the front of room: how many numbers they are.
pub(crate) fn write_tables(question: &Question<'_>, values: &[u64; 16], room: &mut [u64]) -> usize
    requires { 64 ≤ length room.old }
    ensures count { result ≡ length (tables_out (value_in values.now) (question_of question.now)) }
    ensures written { room.new ≡ tables_out (value_in values.now) (question_of question.now) ++ drop result room.old }
{
    let tables = OwnTables {
        lines: question.lines(),
        values,
    };
    room[0] = tables.count() as u64;
    1 + tables.write_each(&mut room[1..])
}
