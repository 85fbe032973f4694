/// The hot pages that the coordinator chose for a split phase: bit `p` of the mask is page `p`'s.
#[derive(Clone, Copy, PartialEq, Eq)]
pub struct Chosen {
    pub phase: u32,
    pub mask: u64,
}
