//! Rows that are listed one after the other.
ghost use Rattle.std.specs.Prelude.{◌≤◌, length, MatchOption};
ghost use Rattle.hours.specs.Listings.{FirstAtFault};

/// The place, from 1, of the first row that is at fault by the rows before it.
pub fn first_at_fault<R: Copy, F: Fn(&[R], R) -> bool>(rows: &[R], is_at_fault: F) -> Option<usize>
    requires { F.IsAlwaysCallable is_at_fault }
    ensures first { FirstAtFault (λ before row b. F.post is_at_fault before row b) rows.now result }
    ensures within { MatchOption result Unit (λ place. place ≤ length rows.now) }
{
    for (i, row) in rows.iter().enumerate() {
        if is_at_fault(&rows[..i], *row) {
            return Some(i + 1);
        }
    }
    None
}
