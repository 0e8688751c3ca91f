// A worked run, and the promise over all runs, as proved facts about the definitions that the runner is held to.
ghost use Rattle.std.specs.Prelude.{◌≡◌, length};
ghost use Rattle.schedule.specs.Example.{calls, WorkedRun};
ghost use Rattle.schedule.specs.Promise.{Promise};

// The calls of the run that is worked out.
// No plainer as one function with those of the other crates: each contract names theorems of its own.
pub fn worked_calls() -> u8
    ensures number { result ≡ length calls }
    ensures worked { WorkedRun }
    ensures promise { Promise }
{
    9
}
