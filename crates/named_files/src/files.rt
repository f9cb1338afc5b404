// Reading the files that arguments name.
ghost use Rattle.std.specs.Prelude.{ℕ, List, IfOk};
ghost use Rattle.question.specs.Question.{In};
ghost use Rattle.named_files.specs.declared.lent.Numbered.{Numbered};
ghost use Rattle.named_files.specs.Arguments.{Names};
ghost use Rattle.named_files.specs.Forms.{Full};

use super::arguments::number_and_path;
use super::failure::Failure;
use super::lent::Numbered;
use std::alloc::AllocError;
use std::{env, fs};
use wire::{TableFault, read_table};

// What stands in the files that the arguments name.
#[derive(Drop)]
pub struct Named {
    // The bytes of a question.
    pub question: Vec<u8>,
    pub tables: Vec<Numbered>,
}

// The first argument names the file of the question, each other a table as NUMBER=FILE.
pub fn read_named(rt: &HostRuntime) -> Result<Named, Failure>
    ensures { IfOk result (λ named. (t : Numbered) → In t named.tables.items → Full t) }
{
    let heap = rt.alloc();
    let mut args = env::args(rt)?;
    let _program = args.next();
    let path = args.next().try_ok_or_else(|| {
        Ok(Failure::Told(String::from_str(heap, "no file with a question is named")?))
    })?;
    let question = read_file(rt, path.as_str())?;
    let mut tables = Vec::new(heap);
    for arg in args {
        tables.push(read_numbered(rt, arg.as_str())?)?;
    }
    Ok(Named { question, tables })
}

fn read_file(rt: &HostRuntime, path: &str) -> Result<Vec<u8>, Failure> {
    fs::read(rt, path).try_map_err(|error| Ok(Failure::Told(format!(in rt.alloc();
        "{path}: {error}"
    )?)))
}

// Reads the table that an argument names.
pub(crate) fn read_numbered(rt: &HostRuntime, arg: &str) -> Result<Numbered, Failure>
    ensures { IfOk result (λ t. Full t × ((path : List ℕ) × Names arg.now t.number path)) }
{
    let heap = rt.alloc();
    let (number, path) = number_and_path(arg).try_ok_or_else(|| {
        Ok(Failure::Told(format!(in heap; "{arg}: no table as NUMBER=FILE")?))
    })?;
    let text = read_file(rt, path)?;
    let table = read_table(heap, &text).try_map_err(|fault| match fault {
        TableFault::Line(line) => Ok(Failure::Told(format!(in heap;
            "{path}: line {line}: no row of numbers"
        )?)),
        TableFault::NoMemory => Err(Failure::from(AllocError)),
    })?;
    Ok(Numbered { number, table })
}
