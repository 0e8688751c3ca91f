// The report of a plan, as text.
use plan::{Plan, Row};
use std::fmt;

// Cells of the bar that shows a reserve.
const CELLS: u64 = 20;

#[derive(Clone, Copy)]
pub struct Report<'a> {
    pub plan: &'a Plan,
}

// Millionths, as percent with four digits after the point.
#[derive(Clone, Copy)]
struct Percent(u32);

impl fmt::Display for Percent {
    fn fmt<W: fmt::Write>(&self, f: &mut fmt::Formatter<W>) -> fmt::Result {
        let whole = self.0 / 10_000;
        let part = self.0 % 10_000;
        write!(f, "{whole:>3}.{part:04}%")
    }
}

// A part of a whole, drawn: every cell that is begun.
#[derive(Clone, Copy)]
struct Bar {
    part: u32,
    whole: u32,
}

impl fmt::Display for Bar {
    fn fmt<W: fmt::Write>(&self, f: &mut fmt::Formatter<W>) -> fmt::Result {
        f.write_str("[")?;
        for cell in 0..CELLS {
            let begun = cell * (self.whole as u64) < CELLS * self.part as u64;
            f.write_str(if begun { "#" } else { "." })?;
        }
        f.write_str("]")
    }
}

impl Report<'_> {
    fn heading<W: fmt::Write>(&self, f: &mut fmt::Formatter<W>) -> fmt::Result {
        let processors = self.plan.processors();
        let delta = self.plan.delta();
        let number = self.plan.number();
        let shortest = self.plan.shortest();
        let slot = self.plan.slot();
        writeln!(f, "processors {processors}, delta {delta}")?;
        match self.plan.verdict() {
            Ok(()) => writeln!(f, "verdict {number}: good")?,
            Err(refusal) => writeln!(f, "verdict {number}: {refusal}")?,
        }
        writeln!(f, "shortest period {shortest}, slot {slot}")
    }

    fn tasks<W: fmt::Write>(&self, f: &mut fmt::Formatter<W>) -> fmt::Result {
        if self.plan.rows().is_empty() {
            return Ok(());
        }
        writeln!(f)?;
        writeln!(f, "task   budget   period     charge  bin  name")?;
        for (task, row) in (0u8..).zip(self.plan.rows()) {
            self.task_line(task, row, f)?;
        }
        Ok(())
    }

    fn task_line<W: fmt::Write>(
        &self,
        task: u8,
        row: &Row,
        f: &mut fmt::Formatter<W>,
    ) -> fmt::Result {
        let budget = row.budget();
        let period = row.period();
        let charge = Percent(self.plan.charge(task).unwrap_or(0));
        let name = row.name();
        write!(f, "{task:>4}  {budget:>7}  {period:>7}  {charge}")?;
        match self.plan.bin(task) {
            Some(bin) => writeln!(f, "  {bin:>3}  {name}"),
            None => writeln!(f, "    -  {name}"),
        }
    }

    fn bins<W: fmt::Write>(&self, f: &mut fmt::Formatter<W>) -> fmt::Result {
        if self.plan.packed().is_empty() {
            return Ok(());
        }
        let whole = self.plan.slot();
        writeln!(f)?;
        writeln!(f, " bin       load  reserve of the slot")?;
        for (number, bin) in self.plan.packed().iter().enumerate() {
            let load = Percent(bin.load);
            let part = bin.reserve;
            let bar = Bar { part, whole };
            writeln!(f, "{number:>4}  {load}  {part:>7}  {bar}")?;
        }
        Ok(())
    }

    fn sum<W: fmt::Write>(&self, f: &mut fmt::Formatter<W>) -> fmt::Result {
        if self.plan.packed().is_empty() {
            return Ok(());
        }
        let processors = self.plan.processors();
        let slot = self.plan.slot();
        let wanted = self.plan.reserved() as u64;
        let there = processors as u64 * slot as u64;
        writeln!(f)?;
        write!(
            f,
            "reserves {wanted} of {there} ticks (processors {processors} x slot {slot}): "
        )?;
        if wanted <= there {
            let free = there - wanted;
            writeln!(f, "{free} free")
        } else {
            let over = wanted - there;
            writeln!(f, "{over} too many")
        }
    }
}

impl fmt::Display for Report<'_> {
    fn fmt<W: fmt::Write>(&self, f: &mut fmt::Formatter<W>) -> fmt::Result {
        self.heading(f)?;
        self.tasks(f)?;
        self.bins(f)?;
        self.sum(f)
    }
}
