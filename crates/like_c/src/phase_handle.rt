ghost use Rattle.std.specs.Prelude.{◌≡◌, ◌≢◌, ◌↔◌, IsTrue, MatchOption, Option, Some, None};
ghost use Rattle.std.specs.Borrow.{sem};
ghost use Rattle.std.specs.Coded.{coded_option};
ghost use Rattle.like_c.specs.declared.opened.BoxedPhase.{BoxedPhase};
ghost use Rattle.like_c.specs.contracts.opened.BoxedPhase.{the_row};
ghost use Rattle.like_c.specs.Handle.{handle_owns};

use crate::opened::BoxedPhase;
use crate::parts::Parts;
use std::alloc::Global;
use std::marker::Model;

/// A phase behind a pointer, or none behind the null pointer, as C holds it. It is not `Drop`, so no code can lose a
/// phase.
#[repr(C)]
pub struct PhaseHandle {
    at: *mut u8,
    pub ghost home: { Option BoxedPhase } by { coded_option the_row.coded },
}

const _: () = prove!(size_of::<PhaseHandle>() == 8);

impl Model for PhaseHandle {
    ghost also_owns = { λ h. handle_owns the_row h.at h.home };
}

impl PhaseHandle {
    ghost use Rattle.like_c.specs.contracts.phase_handle.PhaseHandle as Handle;
    ghost use Rattle.std.specs.Borrow.{LendsIf};

    /// The phase, if there is one. The pointer stays as it is.
    #[inline(always)]
    pub(crate) fn get(&mut self) -> Option<&mut BoxedPhase>
        ensures* lends { sem 𝓛 (LendsIf Handle.the_row the_row self.entry result
            (λ phase. record { at = self.entry.now.at; home = Some phase }) self.entry.now) }
        ensures phase { MatchOption result (self.old.home ≡ None)
            (λ phase. self.old.home ≡ Some phase.now) }
    {
        if self.at.is_null() {
            return None;
        }
        unsafe { Some(&mut *(self.at as *mut BoxedPhase)) }
    }

    /// Whether there is one.
    #[inline(always)]
    pub(crate) fn is_full(&mut self) -> bool
        ensures full { IsTrue result ↔ (self.old.home ≢ None) }
        ensures same { self.new.home ≡ self.old.home }
    {
        match self.get() {
            Some(_phase) => true,
            None => false,
        }
    }

    /// Puts a phase into an empty handle.
    pub(crate) fn put(&mut self, phase: Box<BoxedPhase, Global>)
        requires { self.old.home ≡ None }
        ensures { self.new.home ≡ Some phase.value }
    {
        self.put_parts(Parts::of(phase));
    }

    /// Takes the phase out, if there is one.
    pub(crate) fn take(&mut self, alloc: Global) -> Option<Box<BoxedPhase, Global>>
        ensures taken { MatchOption result (self.old.home ≡ None)
            (λ phase. self.old.home ≡ Some phase.value) }
        ensures left { self.new.home ≡ None }
    {
        if !self.is_full() {
            return None;
        }
        Some(self.take_parts(alloc).into_box())
    }

    fn put_parts(&mut self, parts: Parts<BoxedPhase, Global>)
        requires { self.old.home ≡ None }
        ensures { self.new.home ≡ Some parts.value }
    {
        let Parts { ptr, alloc: _ } = parts;
        self.at = ptr as *mut u8;
    }

    fn take_parts(&mut self, alloc: Global) -> Parts<BoxedPhase, Global>
        requires some { self.old.home ≢ None }
        ensures taken { Some result.value ≡ self.old.home }
        ensures left { self.new.home ≡ None }
    {
        let ptr = self.at as *mut BoxedPhase;
        self.at = std::ptr::null_mut();
        Parts { ptr, alloc }
    }
}

unsafe impl Send for PhaseHandle {}
