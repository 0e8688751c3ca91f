// A plan file in the making.
use crate::bad_line::{Reason, Setting};
use crate::calls::CallBytes;
use crate::fields::{byte, field, long, number, only};
use crate::given::Given;
use plan::Table;
use planfile::writing::LONGEST_CALLS;
use planfile::{Call, write};
use std::alloc::Global;

// A header, 64 rows whose names have 16 bytes, and as many calls as can be.
const LONGEST_FILE: usize = 8 + 3 + 64 * 25 + 3 + LONGEST_CALLS;

#[derive(Drop)]
pub struct Draft {
    given: Given,
    table: Table,
    calls: CallBytes,
}

// The task that has this name, if there is one. By a loop: two of one name are a refusal, and `find` sees one.
fn named(table: &Table, name: &str) -> Result<Option<u8>, Reason> {
    let mut found = None;
    for (task, row) in (0u8..).zip(table.rows()) {
        if row.name().as_str() == name && found.replace(task).is_some() {
            return Err(Reason::SomeTasks);
        }
    }
    Ok(found)
}

impl Draft {
    pub(crate) fn new(heap: Global) -> Draft {
        Draft {
            given: Given::nothing(),
            table: Table::new(),
            calls: CallBytes::new(heap),
        }
    }

    fn set(&mut self, setting: Setting, fields: &str) -> Result<(), Reason> {
        if self.table.count() > 0 || !self.calls.as_slice().is_empty() {
            return Err(Reason::Late);
        }
        self.given.set(setting, only(fields)?)
    }

    // What follows the numbers is the name, and none is for the table to refuse.
    fn task(&mut self, fields: &str) -> Result<(), Reason> {
        if !self.calls.as_slice().is_empty() {
            return Err(Reason::Late);
        }
        let (budget, rest) = long(fields)?;
        let (period, name) = long(rest)?;
        self.table.add(budget, period, name.as_bytes())?;
        Ok(())
    }

    // A task by its name, else by its number. That no task has the number is for the runner to say.
    fn called(&self, task: &str) -> Result<u8, Reason> {
        if task.is_empty() {
            return Err(Reason::TooFew);
        }
        match named(&self.table, task)? {
            Some(number) => Ok(number),
            None => match byte(task) {
                Err(Reason::Digits) => Err(Reason::NoTask),
                number => number,
            },
        }
    }

    fn request(&mut self, task: &str) -> Result<(), Reason> {
        let task = self.called(task)?;
        self.calls.push(Call::Request { task })
    }

    fn done(&mut self, task: &str) -> Result<(), Reason> {
        let task = self.called(task)?;
        self.calls.push(Call::Done { task })
    }

    fn ticks(&mut self, fields: &str) -> Result<(), Reason> {
        let count = number(only(fields)?)?;
        self.calls.push_ticks(count)
    }

    pub(crate) fn line(&mut self, line: &str) -> Result<(), Reason> {
        let line = line.trim_ascii();
        if line.is_empty() || line.starts_with('#') {
            return Ok(());
        }
        let (word, fields) = field(line)?;
        match word {
            "processors" => self.set(Setting::Processors, fields),
            "delta" => self.set(Setting::Delta, fields),
            "layout" => self.set(Setting::Layout, fields),
            "task" => self.task(fields),
            "request" => self.request(fields),
            "done" => self.done(fields),
            "ticks" => self.ticks(fields),
            _ => Err(Reason::Word),
        }
    }

    pub(crate) fn file(&self, heap: Global) -> Result<Vec<u8>, Reason> {
        let settings = self.given.whole()?;
        let mut file = vec![in heap; 0; LONGEST_FILE]?;
        let len = write(&self.table, settings, self.calls.as_slice(), &mut file)?;
        file.truncate(len);
        Ok(file)
    }
}
