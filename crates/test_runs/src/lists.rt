//! What tests do with lists.
use std::process::Abort;

/// Puts an item at the end of others.
pub fn push<T: Drop>(rt: &impl Abort, items: &mut Vec<T>, item: T) {
    items.push(item).expect(rt, "memory");
}
