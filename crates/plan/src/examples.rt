// Worked cases, as proved facts about the definitions that closing is held to.
ghost use Rattle.std.specs.Prelude.{◌≡◌, length};
ghost use Rattle.plan.specs.Examples.{cases, Worked};

// How many cases are worked out.
// No plainer as one function with those of the other crates: each contract names theorems of its own.
pub fn worked_cases() -> u8
    ensures number { result ≡ length cases }
    ensures worked { Worked }
{
    8
}
