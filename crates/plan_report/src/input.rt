// The text table: a task a line, `budget period name`.
use plan::{RowRefusal, Table};
use std::fmt;

// What is wrong with a line.
#[derive(Clone, Copy)]
pub enum Fault {
    // It does not begin with two numbers.
    Form,
    Row(RowRefusal),
}

impl From<RowRefusal> for Fault {
    fn from(refusal: RowRefusal) -> Fault {
        Fault::Row(refusal)
    }
}

// The first line that is no row, counted from 1.
#[derive(Clone, Copy)]
pub struct BadLine {
    pub line: usize,
    pub fault: Fault,
}

impl fmt::Display for BadLine {
    fn fmt<W: fmt::Write>(&self, f: &mut fmt::Formatter<W>) -> fmt::Result {
        let line = self.line;
        match self.fault {
            Fault::Form => write!(f, "line {line}: not of the form: budget period name"),
            Fault::Row(refusal) => {
                let number = refusal.number();
                write!(f, "line {line}: refused {number}: {refusal}")
            }
        }
    }
}

// The next word of a line, and what follows it from the next word on. No plainer as one with that of `file_trials`: a crate for two lines.
fn word(line: &str) -> (&str, &str) {
    let (word, rest) = line.split_once(' ').unwrap_or((line, ""));
    (word, rest.trim_start())
}

// Adds the task of one line; blank lines and comments add none.
fn add_line(table: &mut Table, line: &str) -> Result<(), Fault> {
    let line = line.trim_start();
    if line.is_empty() || line.starts_with('#') {
        return Ok(());
    }
    let (budget, rest) = word(line);
    let (period, name) = word(rest);
    let (Ok(budget), Ok(period)) = (budget.parse(), period.parse()) else {
        return Err(Fault::Form);
    };
    table.add(budget, period, name.as_bytes())?;
    Ok(())
}

// The table that a text holds.
pub(crate) fn table_of(text: &str) -> Result<Table, BadLine> {
    let mut table = Table::new();
    for (at, line) in text.lines().enumerate() {
        add_line(&mut table, line).map_err(|fault| BadLine {
            line: at.saturating_add(1),
            fault,
        })?;
    }
    Ok(table)
}
