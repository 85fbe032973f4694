ghost use Rattle.std.specs.Prelude.{◌≡◌, false};

use std::alloc::{AllocError, Global};
use std::marker::Model;
use std::sync::Arc;
use std::sync::atomic::{AtomicU64, Ordering};

/// A request to end the phase soon, which a service's seats share with its driver. A seat asks when the looks that wait
/// there take half of its room. Found looks don't count, since the end of a phase frees none of their room.
///
/// It only makes the driver end a split phase earlier.
#[derive(Drop)]
pub(crate) struct Hint {
    asked: Arc<AtomicU64, Global>,
}

impl Hint {
    /// A new one: nobody has asked.
    pub fn new(alloc: Global) -> Result<Hint, AllocError> {
        Ok(Hint {
            asked: Arc::new(alloc, AtomicU64::new(0))?,
        })
    }

    /// Another owner of this hint.
    pub fn share(&self) -> Result<Hint, AllocError> {
        Ok(Hint {
            asked: Arc::try_clone(&self.asked)?,
        })
    }

    /// Whether both are owners of one hint: whether there is one owner more of the other while this has one more. So the
    /// kit compares two `Rc`s, since pointers to two blocks can't be compared. No clause says what the answer means.
    pub fn is_same(&self, other: &Hint) -> bool {
        let owners = Arc::strong_count(&other.asked);
        match Arc::try_clone(&self.asked) {
            Ok(_one_more) => Arc::strong_count(&other.asked) != owners,
            Err(AllocError) => false,
        }
    }

    /// Asks for the end of the phase.
    pub fn ask(&self) {
        self.asked.store(1, Ordering::SeqCst);
    }

    /// Whether someone asked since it was cleared.
    pub fn is_asked(&self) -> bool {
        self.asked.load(Ordering::SeqCst) != 0
    }

    /// Forgets that someone asked.
    pub fn clear(&self) {
        self.asked.store(0, Ordering::SeqCst);
    }
}

/// A hint as a driver hears it: with what it told last, since no clause can say what an atomic holds.
#[derive(Drop)]
pub(crate) struct HeardHint {
    hint: Hint,
    was_asked: bool,
}

impl Model for HeardHint {
    ghost use Rattle.std.specs.Prelude.{Bool};

    ghost Value = { Bool };

    ghost view = { λ h. h.was_asked };
}

impl HeardHint {
    /// One that wasn't heard yet.
    pub fn new(hint: Hint) -> HeardHint
        ensures { result ≡ false }
    {
        HeardHint {
            hint,
            was_asked: false,
        }
    }

    /// Whether it is heard from this one (see `Hint::is_same`).
    pub fn is_from(&self, hint: &Hint) -> bool {
        self.hint.is_same(hint)
    }

    /// Whether someone asked since it was cleared, by one load.
    pub fn hear(&mut self) -> bool
        ensures { result ≡ self.new }
    {
        self.was_asked = self.hint.is_asked();
        self.was_asked
    }

    /// Forgets that someone asked.
    pub fn clear(&mut self)
        ensures { self.new ≡ false }
    {
        self.hint.clear();
        self.was_asked = false;
    }
}
