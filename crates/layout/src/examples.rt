// Worked cases, as proved facts about the definitions that the layouts are held to.
ghost use Rattle.std.specs.Prelude.{◌≡◌, length};
ghost use Rattle.layout.specs.Examples.{fourth_bin, WorkedLayouts};

// The ticks of the slot that is worked out.
// No plainer as one function with those of the other crates: each contract names theorems of its own.
pub fn worked_ticks() -> u8
    ensures number { result ≡ length fourth_bin }
    ensures worked { WorkedLayouts }
{
    100
}
