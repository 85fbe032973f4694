ghost use Rattle.std.specs.Prelude.{◌≡◌, ◌≢◌, ◌↔◌, IsTrue, MatchOption, Option, Some, None};
ghost use Rattle.std.specs.Borrow.{sem};
ghost use Rattle.std.specs.Coded.{coded_option};
ghost use Rattle.like_c.specs.declared.opened.BoxedSeat.{BoxedSeat};
ghost use Rattle.like_c.specs.contracts.opened.BoxedSeat.{the_row};
ghost use Rattle.like_c.specs.Handle.{handle_owns};

use crate::opened::BoxedSeat;
use crate::parts::Parts;
use std::alloc::Global;
use std::marker::Model;

/// A seat behind a pointer, or none behind the null pointer, as C holds it. It is not `Drop`, so no code can lose a
/// seat.
#[repr(C)]
pub struct SeatHandle {
    at: *mut u8,
    pub ghost home: { Option BoxedSeat } by { coded_option the_row.coded },
}

const _: () = prove!(size_of::<SeatHandle>() == 8);

impl Model for SeatHandle {
    ghost also_owns = { λ h. handle_owns the_row h.at h.home };
}

impl SeatHandle {
    ghost use Rattle.like_c.specs.contracts.seat_handle.SeatHandle as Handle;
    ghost use Rattle.std.specs.Borrow.{LendsIf};

    /// The seat, if there is one. The pointer stays as it is.
    #[inline(always)]
    pub(crate) fn get(&mut self) -> Option<&mut BoxedSeat>
        ensures* lends { sem 𝓛 (LendsIf Handle.the_row the_row self.entry result
            (λ seat. record { at = self.entry.now.at; home = Some seat }) self.entry.now) }
        ensures seat { MatchOption result (self.old.home ≡ None)
            (λ seat. self.old.home ≡ Some seat.now) }
    {
        if self.at.is_null() {
            return None;
        }
        unsafe { Some(&mut *(self.at as *mut BoxedSeat)) }
    }

    /// Whether there is one.
    #[inline(always)]
    pub(crate) fn is_full(&mut self) -> bool
        ensures full { IsTrue result ↔ (self.old.home ≢ None) }
        ensures same { self.new.home ≡ self.old.home }
    {
        match self.get() {
            Some(_seat) => true,
            None => false,
        }
    }

    /// Puts a seat into an empty handle.
    pub(crate) fn put(&mut self, seat: Box<BoxedSeat, Global>)
        requires { self.old.home ≡ None }
        ensures { self.new.home ≡ Some seat.value }
    {
        self.put_parts(Parts::of(seat));
    }

    /// Takes the seat out, if there is one.
    pub(crate) fn take(&mut self, alloc: Global) -> Option<Box<BoxedSeat, Global>>
        ensures taken { MatchOption result (self.old.home ≡ None)
            (λ seat. self.old.home ≡ Some seat.value) }
        ensures left { self.new.home ≡ None }
    {
        if !self.is_full() {
            return None;
        }
        Some(self.take_parts(alloc).into_box())
    }

    fn put_parts(&mut self, parts: Parts<BoxedSeat, Global>)
        requires { self.old.home ≡ None }
        ensures { self.new.home ≡ Some parts.value }
    {
        let Parts { ptr, alloc: _ } = parts;
        self.at = ptr as *mut u8;
    }

    fn take_parts(&mut self, alloc: Global) -> Parts<BoxedSeat, Global>
        requires some { self.old.home ≢ None }
        ensures taken { Some result.value ≡ self.old.home }
        ensures left { self.new.home ≡ None }
    {
        let ptr = self.at as *mut BoxedSeat;
        self.at = std::ptr::null_mut();
        Parts { ptr, alloc }
    }
}

unsafe impl Send for SeatHandle {}
