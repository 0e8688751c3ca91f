// Why a call is refused: each case with its number.
ghost use Rattle.std.specs.Prelude.{◌≡◌};
ghost use Rattle.runner.specs.Refusals.{call_number};

#[derive(Clone, Copy, PartialEq, Eq, Debug)]
pub enum CallRefusal {
    // The runner has no task of this number.
    NoSuchTask = 6,
    // The row area is not as long as there are processors.
    RowArea = 7,
    // There are fewer slots than unfinished jobs.
    FewSlots = 8,
    // The period since the task's last accepted request is not over.
    TooEarly = 22,
    // The task has no unfinished job.
    NoJob = 23,
    // The clock is at its end.
    ClockEnd = 24,
}

impl CallRefusal {
    pub fn number(self) -> u8
        ensures { result ≡ call_number self }
    {
        self as u8
    }
}
