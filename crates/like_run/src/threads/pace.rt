use like_queue::Parkers;
use std::sync::Wait;

// How many turns are counted before the first pause of a phase, and at most between two pauses.
const SHORT: u32 = 32;

const LONG: u32 = 256;

// How many microseconds a pause has for each turn that was counted before it.
const FOR_TURN: u64 = 3;

/// When the coordinator pauses: the longer a phase lasts, the more seldom and the longer. A pause takes the processor
/// from a worker when it ends, so few long ones cost less than many short ones.
#[derive(Drop)]
pub struct Pace {
    // How many turns are counted from one pause to the next, and how many were since the last one.
    stretch: u32,
    counted: u32,
}

impl Pace {
    /// That of a new phase.
    pub fn new() -> Pace {
        Pace {
            stretch: SHORT,
            counted: 0,
        }
    }

    /// Counts a turn, and pauses at the end of a stretch.
    pub fn count<R: Wait>(&mut self, rt: &R, parkers: &Parkers) {
        self.counted = self.counted.saturating_add(1);
        if self.counted >= self.stretch {
            parkers.pause(rt, u64::from(self.stretch) * FOR_TURN);
            self.stretch = self.stretch.saturating_mul(2).min(LONG);
            self.counted = 0;
        }
    }

    /// A phase ends. Turns that were counted since the last pause count for the next one, so that short phases have
    /// pauses too.
    pub fn begin(&mut self) {
        self.stretch = SHORT;
    }
}
