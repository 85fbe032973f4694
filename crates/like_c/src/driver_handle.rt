ghost use Rattle.std.specs.Prelude.{◌≡◌, ◌≢◌, ◌↔◌, IsTrue, MatchOption, Option, Some, None};
ghost use Rattle.std.specs.Borrow.{sem};
ghost use Rattle.std.specs.Coded.{coded_option};
ghost use Rattle.like_c.specs.declared.opened.Opened.{Opened};
ghost use Rattle.like_c.specs.contracts.opened.Opened.{the_row};
ghost use Rattle.like_c.specs.Handle.{handle_owns};

use crate::opened::Opened;
use crate::parts::Parts;
use std::alloc::Global;
use std::marker::Model;

/// A driver behind a pointer, or none behind the null pointer, as C holds it. It is not `Drop`, so no code can lose a
/// driver.
#[repr(C)]
pub struct DriverHandle {
    at: *mut u8,
    pub ghost home: { Option Opened } by { coded_option the_row.coded },
}

const _: () = prove!(size_of::<DriverHandle>() == 8);

impl Model for DriverHandle {
    ghost also_owns = { λ h. handle_owns the_row h.at h.home };
}

impl DriverHandle {
    ghost use Rattle.like_c.specs.contracts.driver_handle.DriverHandle as Handle;
    ghost use Rattle.std.specs.Borrow.{LendsIf};

    /// The driver, if there is one. The pointer stays as it is.
    #[inline(always)]
    pub(crate) fn get(&mut self) -> Option<&mut Opened>
        ensures* lends { sem 𝓛 (LendsIf Handle.the_row the_row self.entry result
            (λ driver. record { at = self.entry.now.at; home = Some driver }) self.entry.now) }
        ensures driver { MatchOption result (self.old.home ≡ None)
            (λ driver. self.old.home ≡ Some driver.now) }
    {
        if self.at.is_null() {
            return None;
        }
        unsafe { Some(&mut *(self.at as *mut Opened)) }
    }

    /// Whether there is one.
    #[inline(always)]
    pub(crate) fn is_full(&mut self) -> bool
        ensures full { IsTrue result ↔ (self.old.home ≢ None) }
        ensures same { self.new.home ≡ self.old.home }
    {
        match self.get() {
            Some(_driver) => true,
            None => false,
        }
    }

    /// Puts a driver into an empty handle.
    pub(crate) fn put(&mut self, driver: Box<Opened, Global>)
        requires { self.old.home ≡ None }
        ensures { self.new.home ≡ Some driver.value }
    {
        self.put_parts(Parts::of(driver));
    }

    /// Takes the driver out, if there is one.
    pub(crate) fn take(&mut self, alloc: Global) -> Option<Box<Opened, Global>>
        ensures taken { MatchOption result (self.old.home ≡ None)
            (λ driver. self.old.home ≡ Some driver.value) }
        ensures left { self.new.home ≡ None }
    {
        if !self.is_full() {
            return None;
        }
        Some(self.take_parts(alloc).into_box())
    }

    fn put_parts(&mut self, parts: Parts<Opened, Global>)
        requires { self.old.home ≡ None }
        ensures { self.new.home ≡ Some parts.value }
    {
        let Parts { ptr, alloc: _ } = parts;
        self.at = ptr as *mut u8;
    }

    fn take_parts(&mut self, alloc: Global) -> Parts<Opened, Global>
        requires some { self.old.home ≢ None }
        ensures taken { Some result.value ≡ self.old.home }
        ensures left { self.new.home ≡ None }
    {
        let ptr = self.at as *mut Opened;
        self.at = std::ptr::null_mut();
        Parts { ptr, alloc }
    }
}

unsafe impl Send for DriverHandle {}
