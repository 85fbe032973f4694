ghost use Rattle.std.specs.Prelude.{◌≡◌, ◌≢◌, ◌↔◌, IsTrue, MatchOption, Option, Some, None};
ghost use Rattle.std.specs.Borrow.{sem};
ghost use Rattle.std.specs.Coded.{coded_option};
ghost use Rattle.like_c.specs.declared.boxed_shared.BoxedShared.{BoxedShared};
ghost use Rattle.like_c.specs.contracts.boxed_shared.BoxedShared.{the_row};
ghost use Rattle.like_c.specs.Handle.{handle_owns};

use crate::boxed_shared::BoxedShared;
use crate::parts::Parts;
use std::alloc::Global;
use std::marker::Model;

/// A shared service behind a pointer, or none behind the null pointer, as C holds it. It is not `Drop`, so no code can
/// lose a service.
#[repr(C)]
pub struct SharedHandle {
    at: *mut u8,
    pub ghost home: { Option BoxedShared } by { coded_option the_row.coded },
}

const _: () = prove!(size_of::<SharedHandle>() == 8);

impl Model for SharedHandle {
    ghost also_owns = { λ h. handle_owns the_row h.at h.home };
}

impl SharedHandle {
    ghost use Rattle.like_c.specs.contracts.shared_handle.SharedHandle as Handle;
    ghost use Rattle.std.specs.Borrow.{LendsIf};

    /// The service, if there is one. The pointer stays as it is.
    #[inline(always)]
    pub(crate) fn get(&mut self) -> Option<&mut BoxedShared>
        ensures* lends { sem 𝓛 (LendsIf Handle.the_row the_row self.entry result
            (λ service. record { at = self.entry.now.at; home = Some service }) self.entry.now) }
        ensures service { MatchOption result (self.old.home ≡ None)
            (λ service. self.old.home ≡ Some service.now) }
    {
        if self.at.is_null() {
            return None;
        }
        unsafe { Some(&mut *(self.at as *mut BoxedShared)) }
    }

    /// Whether there is one.
    #[inline(always)]
    pub(crate) fn is_full(&mut self) -> bool
        ensures full { IsTrue result ↔ (self.old.home ≢ None) }
        ensures same { self.new.home ≡ self.old.home }
    {
        match self.get() {
            Some(_service) => true,
            None => false,
        }
    }

    /// Puts a service into an empty handle.
    pub(crate) fn put(&mut self, service: Box<BoxedShared, Global>)
        requires { self.old.home ≡ None }
        ensures { self.new.home ≡ Some service.value }
    {
        self.put_parts(Parts::of(service));
    }

    /// Takes the service out, if there is one.
    pub(crate) fn take(&mut self, alloc: Global) -> Option<Box<BoxedShared, Global>>
        ensures taken { MatchOption result (self.old.home ≡ None)
            (λ service. self.old.home ≡ Some service.value) }
        ensures left { self.new.home ≡ None }
    {
        if !self.is_full() {
            return None;
        }
        Some(self.take_parts(alloc).into_box())
    }

    fn put_parts(&mut self, parts: Parts<BoxedShared, Global>)
        requires { self.old.home ≡ None }
        ensures { self.new.home ≡ Some parts.value }
    {
        let Parts { ptr, alloc: _ } = parts;
        self.at = ptr as *mut u8;
    }

    fn take_parts(&mut self, alloc: Global) -> Parts<BoxedShared, Global>
        requires some { self.old.home ≢ None }
        ensures taken { Some result.value ≡ self.old.home }
        ensures left { self.new.home ≡ None }
    {
        let ptr = self.at as *mut BoxedShared;
        self.at = std::ptr::null_mut();
        Parts { ptr, alloc }
    }
}

unsafe impl Send for SharedHandle {}
