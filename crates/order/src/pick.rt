// The least record that bears a mark.
ghost use Rattle.std.specs.Prelude.{◌≡◌, ℕ, length, Option};
ghost use Rattle.order.specs.Picks.{Picked};

use crate::ranking::{Marked, Ranked};

// The place of the least record that bears the mark, the first of equals; none where no record does.
pub fn least<T: Ranked + Marked>(records: &[T], mark: u8) -> Option<usize>
    ensures picked { Picked T.less T.marking mark records.now (length records.now) result }
    ensures only { (o : Option ℕ) → Picked T.less T.marking mark records.now (length records.now) o → o ≡ result }
{
    // A loop: a chain with closures (`enumerate`, `filter`, `reduce`, `map`) took twice the time.
    let mut best = None;
    for (place, x) in records.iter().enumerate() {
        if matches!(x.mark(), Some(own) if own == mark) {
            best = match best {
                None => Some(place),
                Some(b) => Some(if x.before(&records[b]) { place } else { b }),
            };
        }
    }
    best
}
