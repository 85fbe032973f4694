ghost use Rattle.std.specs.Prelude.{◌≡◌, ◌<◌, ℕ, [], All, IfOk, length, map, slice_index_or};
ghost use Rattle.like_tables.specs.Share.{dealt};

use std::alloc::{AllocError, Global};

/// Deals items, one of each submitter, to the workers: that of submitter `s` to worker `s mod N`.
pub fn deal<T: Drop>(alloc: Global, items: Vec<T>, workers: u32) -> Result<Vec<Vec<T>>, AllocError>
    requires { 0 < workers }
    ensures len { IfOk result (λ hands. length hands.items ≡ workers) }
    ensures dealt { IfOk result (λ hands. (worker : ℕ) → worker < workers
        → slice_index_or (map (λ hand. hand.items) hands.items) worker [] ≡ dealt workers worker items.items) }
{
    let mut hands = empty_hands(alloc, workers)?;
    let mut submitter = 0;
    for item in items {
        hands[submitter % workers as usize].push(item)?;
        submitter += 1;
    }
    Ok(hands)
}

// An empty hand for each worker.
fn empty_hands<T: Drop>(alloc: Global, workers: u32) -> Result<Vec<Vec<T>>, AllocError>
    ensures len { IfOk result (λ hands. length hands.items ≡ workers) }
    ensures none { IfOk result (λ hands. All (λ hand. hand.items ≡ []) hands.items) }
{
    let mut hands = Vec::new(alloc);
    for _ in 0..workers {
        hands.push(Vec::new(alloc))?;
    }
    Ok(hands)
}
