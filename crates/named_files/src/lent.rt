// Tables in the lent form, which answering takes.
ghost use Rattle.std.specs.Prelude.{◌≡◌, ℕ, ◌++◌, IfOk, OnOk};
ghost use Rattle.question.specs.Question.{In};
ghost use Rattle.question.specs.Tables.{tables_in};
ghost use Rattle.named_files.specs.declared.lent.Numbered.{Numbered};
ghost use Rattle.named_files.specs.Forms.{table_numbers, lent_numbers, Full, numbered_rows};

use std::alloc::{AllocError, Global};
use wire::Table;

// A table and the number that questions know it by.
#[derive(Drop)]
pub struct Numbered {
    pub number: u64,
    pub table: Table,
}

// The count of the tables, then each one's number, rows, columns and cells: what is lent holds the rows of the tables.
pub fn lend(heap: Global, tables: &[Numbered]) -> Result<Vec<u64>, AllocError>
    ensures numbers { IfOk result (λ v. v.items ≡ lent_numbers tables.now) }
    ensures held { IfOk result (λ v. ((t : Numbered) → In t tables.now → Full t) → (n : ℕ) → tables_in v.items n ≡ numbered_rows tables.now n) }
{
    let mut numbers = Vec::new(heap);
    numbers.push(tables.len() as u64)?;
    for numbered in tables {
        push_table(&mut numbers, numbered)?;
    }
    Ok(numbers)
}

fn push_table(numbers: &mut Vec<u64>, numbered: &Numbered) -> Result<(), AllocError>
    ensures { OnOk result (numbers.new.items ≡ numbers.old.items ++ table_numbers numbered.now) }
{
    let sizes = [numbered.number, numbered.table.rows, numbered.table.columns];
    numbers.extend_from_slice(&sizes)?;
    numbers.extend_from_slice(&numbered.table.cells)?;
    Ok(())
}
