/// What a worker sees by a look at the phase word.
#[derive(Clone, Copy, PartialEq, Eq)]
pub struct Sight {
    /// The present phase.
    pub number: u64,
    /// Whether its end was announced.
    pub ending: bool,
    /// Whether this worker has answered it and waits for the next.
    pub waits: bool,
}

/// What the coordinator sees by a look at the phase word.
#[derive(Clone, Copy, PartialEq, Eq)]
pub struct CoordSight {
    /// The present phase.
    pub number: u64,
    /// Whether its end was announced.
    pub ending: bool,
    /// Whether each worker has answered it or is gone.
    pub all_in: bool,
    /// Whether each worker is gone.
    pub all_gone: bool,
}
