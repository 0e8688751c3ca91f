// The worked cases of plans, layouts and runs, as proved facts about the definitions that the code is held to.
ghost use Rattle.std.specs.Prelude.{◌≡◌, length};
ghost use Rattle.runner.specs.Examples.{calls, WorkedCases};

// The calls of the run that is worked out.
// No plainer as one function with those of the other crates: each contract names theorems of its own.
pub fn worked_calls() -> u8
    ensures number { result ≡ length calls }
    ensures worked { WorkedCases }
{
    11
}
