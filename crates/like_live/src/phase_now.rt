use std::alloc::{AllocError, Global};
use std::sync::Arc;
use std::sync::atomic::{AtomicU64, Ordering};

/// The phase that a service's driver released last, for any thread to read.
///
/// The driver stores it right after each release. No proof rests on it: contracts speak of the `phase` of a driver or a
/// seat.
#[derive(Drop)]
pub struct PhaseNow {
    phase: Arc<AtomicU64, Global>,
}

impl PhaseNow {
    /// The phase of a new service: 0.
    pub(crate) fn new(alloc: Global) -> Result<PhaseNow, AllocError> {
        Ok(PhaseNow {
            phase: Arc::new(alloc, AtomicU64::new(0))?,
        })
    }

    /// Another owner of this number. It takes no memory, and is refused only where there are too many owners.
    pub fn share(&self) -> Result<PhaseNow, AllocError> {
        Ok(PhaseNow {
            phase: Arc::try_clone(&self.phase)?,
        })
    }

    /// The phase, by one load.
    pub fn get(&self) -> u64 {
        self.phase.load(Ordering::SeqCst)
    }

    /// Tells this phase from now on.
    pub(crate) fn set(&self, phase: u64) {
        self.phase.store(phase, Ordering::SeqCst);
    }
}
