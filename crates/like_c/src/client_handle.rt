ghost use Rattle.std.specs.Prelude.{◌≡◌, ◌≢◌, ◌↔◌, IsTrue, MatchOption, Option, Some, None};
ghost use Rattle.std.specs.Borrow.{sem};
ghost use Rattle.std.specs.Coded.{coded_option};
ghost use Rattle.like_c.specs.declared.boxed_client.BoxedClient.{BoxedClient};
ghost use Rattle.like_c.specs.contracts.boxed_client.BoxedClient.{the_row};
ghost use Rattle.like_c.specs.Handle.{handle_owns};

use crate::boxed_client::BoxedClient;
use crate::parts::Parts;
use std::alloc::Global;
use std::marker::Model;

/// A client behind a pointer, or none behind the null pointer, as C holds it. It is not `Drop`, so no code can lose a
/// client.
#[repr(C)]
pub struct ClientHandle {
    at: *mut u8,
    pub ghost home: { Option BoxedClient } by { coded_option the_row.coded },
}

const _: () = prove!(size_of::<ClientHandle>() == 8);

impl Model for ClientHandle {
    ghost also_owns = { λ h. handle_owns the_row h.at h.home };
}

impl ClientHandle {
    ghost use Rattle.like_c.specs.contracts.client_handle.ClientHandle as Handle;
    ghost use Rattle.std.specs.Borrow.{LendsIf};

    /// The client, if there is one. The pointer stays as it is.
    #[inline(always)]
    pub(crate) fn get(&mut self) -> Option<&mut BoxedClient>
        ensures* lends { sem 𝓛 (LendsIf Handle.the_row the_row self.entry result
            (λ client. record { at = self.entry.now.at; home = Some client }) self.entry.now) }
        ensures client { MatchOption result (self.old.home ≡ None)
            (λ client. self.old.home ≡ Some client.now) }
    {
        if self.at.is_null() {
            return None;
        }
        unsafe { Some(&mut *(self.at as *mut BoxedClient)) }
    }

    /// Whether there is one.
    #[inline(always)]
    pub(crate) fn is_full(&mut self) -> bool
        ensures full { IsTrue result ↔ (self.old.home ≢ None) }
        ensures same { self.new.home ≡ self.old.home }
    {
        match self.get() {
            Some(_client) => true,
            None => false,
        }
    }

    /// Puts a client into an empty handle.
    pub(crate) fn put(&mut self, client: Box<BoxedClient, Global>)
        requires { self.old.home ≡ None }
        ensures { self.new.home ≡ Some client.value }
    {
        self.put_parts(Parts::of(client));
    }

    /// Takes the client out, if there is one.
    pub(crate) fn take(&mut self, alloc: Global) -> Option<Box<BoxedClient, Global>>
        ensures taken { MatchOption result (self.old.home ≡ None)
            (λ client. self.old.home ≡ Some client.value) }
        ensures left { self.new.home ≡ None }
    {
        if !self.is_full() {
            return None;
        }
        Some(self.take_parts(alloc).into_box())
    }

    fn put_parts(&mut self, parts: Parts<BoxedClient, Global>)
        requires { self.old.home ≡ None }
        ensures { self.new.home ≡ Some parts.value }
    {
        let Parts { ptr, alloc: _ } = parts;
        self.at = ptr as *mut u8;
    }

    fn take_parts(&mut self, alloc: Global) -> Parts<BoxedClient, Global>
        requires some { self.old.home ≢ None }
        ensures taken { Some result.value ≡ self.old.home }
        ensures left { self.new.home ≡ None }
    {
        let ptr = self.at as *mut BoxedClient;
        self.at = std::ptr::null_mut();
        Parts { ptr, alloc }
    }
}

unsafe impl Send for ClientHandle {}
