// Which sections may come next.

// A table section comes first; calls come at most once after it; notes come anywhere after it.
#[derive(Clone, Copy, Debug, PartialEq, Eq)]
pub enum Due {
    Table,
    Calls,
    Notes,
}
