/// Calls at which a run can be watched or held back. Each of them returns.
pub trait Gate: Sync {
    /// Submitter `s` will try its request `n` for the first time.
    fn push(&self, s: u32, n: u32);

    /// Worker `w` will run request `n` of submitter `s`.
    fn run(&self, w: u32, s: u32, n: u32);

    /// Worker `w` enters phase `k`; phase 0 in its first turn.
    fn phase(&self, w: u32, k: u32);
}

/// The gate that holds nothing back.
#[derive(Clone, Copy)]
pub struct NoGate;

impl Gate for NoGate {
    fn push(&self, _s: u32, _n: u32) {}

    fn run(&self, _w: u32, _s: u32, _n: u32) {}

    fn phase(&self, _w: u32, _k: u32) {}
}
