//! The calls of a service that threads share, for C: it is opened, gives clients and its phase, and is closed.
ghost use Rattle.std.specs.Prelude.{◌≡◌, None};
ghost use Rattle.like_c.specs.Asks.{HandsOut};
ghost use Rattle.like_c.specs.Held.{TakesPhase};
ghost use Rattle.like_c.specs.Opened.{OpensAt};
ghost use Rattle.like_c.specs.Sharing.{ClosesShared, IsSharedAs, MakesClient};

use crate::boxed_shared::BoxedShared;
use crate::client_handle::ClientHandle;
use crate::phase_handle::PhaseHandle;
use crate::rows::Options;
use crate::shared_handle::SharedHandle;
use crate::status;
use std::alloc::Global;

/// Opens a service that threads share. Its handle has to be empty, and is full after `OK`.
#[unsafe(no_mangle)]
pub extern "C" fn likes_proved_shared_open(
    alloc: Global,
    options: &Options,
    counts: &[u64],
    marks: &[u32],
    lasts: &[u32],
    shared: &mut SharedHandle,
) -> u32
    ensures { OpensAt IsSharedAs options.now counts.now marks.now lasts.now shared.old.home result shared.new.home }
{
    if shared.is_full() {
        return status::IN_USE;
    }
    if !options.is_unreserved() {
        return status::WRONG_RESERVED;
    }
    match BoxedShared::new(alloc, options, counts, marks, lasts) {
        Ok(opened) => {
            shared.put(opened);
            status::OK
        }
        Err(error) => status::of_open(error),
    }
}

/// Hands out the phase, once.
#[unsafe(no_mangle)]
pub extern "C" fn likes_shared_take_phase(shared: &mut SharedHandle, phase: &mut PhaseHandle) -> u32
    ensures { HandsOut (λ told b d. TakesPhase told b.phase d.phase × (d.hub ≡ b.hub) × (d.cards ≡ b.cards))
        shared.old.home phase.old.home result shared.new.home phase.new.home }
{
    if phase.is_full() {
        return status::IN_USE;
    }
    let Some(boxed) = shared.get() else {
        return status::EMPTY;
    };
    match boxed.take_phase() {
        Some(taken) => {
            phase.put(taken);
            status::OK
        }
        None => status::ALL_TAKEN,
    }
}

/// Makes a client. Its handle has to be empty, and is full after `OK`.
#[unsafe(no_mangle)]
pub extern "C" fn likes_proved_client_open(
    alloc: Global,
    shared: &mut SharedHandle,
    client: &mut ClientHandle,
) -> u32
    ensures { HandsOut MakesClient shared.old.home client.old.home result shared.new.home client.new.home }
{
    if client.is_full() {
        return status::IN_USE;
    }
    let Some(boxed) = shared.get() else {
        return status::EMPTY;
    };
    match boxed.new_client(alloc) {
        Ok(made) => {
            client.put(made);
            status::OK
        }
        Err(refused) => refused,
    }
}

/// Ends a service, once all clients are closed and all seats are gone, and writes each page's last count. Its handle is
/// empty then.
#[unsafe(no_mangle)]
pub extern "C" fn likes_proved_shared_close(
    alloc: Global,
    shared: &mut SharedHandle,
    counts: &mut [u64],
) -> u32
    ensures { ClosesShared shared.old.home counts.old result counts.new shared.new.home }
{
    let Some(boxed) = shared.get() else {
        return status::EMPTY;
    };
    if counts.len() != boxed.pages() {
        return status::WRONG_PAGES;
    }
    if let Err(refused) = boxed.check_end(alloc) {
        return refused;
    }
    match shared.take(alloc) {
        Some(boxed) => match Box::into_inner(boxed).end(counts) {
            Ok(()) => status::COUNTED,
            Err(refused) => refused,
        },
        None => unreachable!(),
    }
}

#[unsafe(no_mangle)]
pub extern "C" fn likes_proved_shared_free(alloc: Global, shared: &mut SharedHandle)
    ensures { shared.new.home ≡ None }
{
    drop(shared.take(alloc));
}
