use std::collections::LinkedList;

/// What a pass or the keeper knows, as contracts see it. No value of it is made.
pub enum Known<T, C> {
    /// The keeper: the value at first, how many passes were made and how many are out, all deeds of those that are back,
    /// each with its pass's name, and the order of deeds as each of these has seen it.
    Keeper {
        first: T,
        made: u64,
        out: u64,
        told: LinkedList<(u64, C)>,
        seen: LinkedList<LinkedList<(u64, C)>>,
    },
    /// A pass that is out: the value at first, its name, the order of deeds up to its last step, and, while it has the
    /// lock, the value as it took it.
    Pass {
        first: T,
        name: u64,
        seen: LinkedList<(u64, C)>,
        taken: Option<T>,
    },
    /// A pass that is back.
    Back,
}
