ghost use Rattle.std.specs.Prelude.{◌≡◌, ◌<◌, ◌≤◌, ℕ, true, slice_index_or, MatchOption, length};
ghost use Rattle.like_roles.specs.worker.WorkerView.{IsNextOpen};
ghost use Rattle.like_roles.specs.worker.Ranks.{IsFirstOpen};

/// The first rank at or after the cursor, in cyclic order, that has not ended.
pub(crate) fn next_open(ended: &[bool], cursor: usize) -> Option<usize>
    requires { cursor ≤ length ended.now }
    ensures { MatchOption result
        ((rank : ℕ) → rank < length ended.now → slice_index_or ended.now rank true ≡ true)
        (IsNextOpen ended.now cursor) }
{
    match first_open(ended, cursor, ended.len()) {
        Some(rank) => Some(rank),
        None => first_open(ended, 0, cursor),
    }
}

// The first rank of a range that has not ended.
fn first_open(ended: &[bool], from: usize, to: usize) -> Option<usize>
    requires { to ≤ length ended.now }
    ensures { MatchOption result
        ((rank : ℕ) → from ≤ rank → rank < to → slice_index_or ended.now rank true ≡ true)
        (IsFirstOpen ended.now from to) }
{
    for rank in from..to {
        if !ended[rank] {
            return Some(rank);
        }
    }
    None
}
