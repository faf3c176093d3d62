// A table, line by line.
use crate::{RowFault, TableFault};
use std::io::{BufRead, BufReader};
use std::process::ExitCode;

/// What takes the lines of a table.
pub trait Table {
    /// Takes the line of this number, counted from 1, and answers what is printed behind it.
    ///
    /// # Errors
    /// `Bad` where the line isn't well formed or can't stand here, `BadAt` where an earlier one can't.
    fn take(&mut self, number: u64, line: &str) -> Result<String, RowFault>;
}

/// Has each line of the standard input taken, and prints what is answered, each as soon as it is read. The status is 0, 1
/// where a line isn't well formed, which is told by its number, and 2 where memory, the input or the output failed.
pub fn run_table<T: Table>(rt: &HostRuntime, table: &mut T) -> ExitCode {
    match take_lines(rt, table) {
        Ok(()) => ExitCode::from(0),
        Err(TableFault::BadLine(line)) => match println!(rt; "line {line} is not well formed") {
            Ok(()) => ExitCode::from(1),
            Err(_) => ExitCode::from(2),
        },
        Err(TableFault::Memory | TableFault::Outside) => ExitCode::from(2),
    }
}

fn take_lines<T: Table>(rt: &HostRuntime, table: &mut T) -> Result<(), TableFault> {
    let alloc = rt.alloc();
    let mut number = 0u64;
    for line in BufReader::new(alloc, rt.reader())?.lines(alloc) {
        let line = line?;
        number = number.saturating_add(1);
        let text = take_line(table, number, line.as_str())?;
        if !text.is_empty() {
            print!(rt; "{text}")?;
        }
    }
    Ok(())
}

fn take_line<T: Table>(table: &mut T, number: u64, line: &str) -> Result<String, TableFault> {
    match table.take(number, line) {
        Ok(text) => Ok(text),
        Err(RowFault::Bad) => Err(TableFault::BadLine(number)),
        Err(RowFault::BadAt(line)) => Err(TableFault::BadLine(line)),
        Err(RowFault::Memory) => Err(TableFault::Memory),
    }
}
