/// The terms of a run, beside its settings.
#[derive(Clone, Copy)]
pub struct Terms<'a> {
    /// How many requests each submitter has.
    pub sizes: &'a [u32],
    /// Whether the workers note their additions. If they don't, these take no memory.
    pub notes: bool,
}
