/// How much of a report its text has.
#[derive(Clone, Copy, PartialEq, Eq)]
pub struct Extent {
    /// Totals alone: no rows of replies.
    pub totals: bool,
    /// The rows of the places too.
    pub places: bool,
}
