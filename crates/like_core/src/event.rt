/// One step of a worker or of the coordinator. Of a worker's step the first number is the worker, the second the page.
#[derive(Clone, Copy)]
pub enum Event {
    /// The worker looks at the phase word.
    Look(u32),
    /// The worker stops at the end of a joined phase, and waits.
    Acknowledge(u32),
    /// The worker, with all its slices merged, stops at the end of a split phase, and waits.
    Report(u32),
    /// The worker ends, in a joined phase.
    Retire(u32),
    /// The worker runs a like: in its slice where the page is split, else on the page's count.
    Like(u32, u32),
    /// The worker reads the count of a page that is not split.
    Read(u32, u32),
    /// The worker adds its slice of a page to the page's count.
    Merge(u32, u32),
    /// The worker, in a split phase, reads the mask of its hot pages.
    Hot(u32),
    /// The coordinator looks at the phase word.
    CoordLook,
    /// The coordinator reads the count of this page.
    CoordRead(u32),
    /// The coordinator announces the end of the phase.
    Announce,
    /// The coordinator releases the next phase with this mask of hot pages, which is 0 where that phase is joined.
    Release(u64),
}
