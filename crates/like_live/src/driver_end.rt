/// Whether a turn may end the phase.
#[derive(Clone, Copy, Debug, PartialEq, Eq)]
pub enum End {
    /// It may not.
    No,
    /// It may if something is split in the phase, or would be in the next.
    IfItServes,
    /// It may in any case, as for a snapshot.
    Always,
}
