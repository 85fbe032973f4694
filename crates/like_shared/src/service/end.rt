//! The end of a shared service.
ghost use Rattle.std.specs.Prelude.{◌≡◌, ◌≤◌, [], All, IfErr, MatchBool, OnOk, length, map, vec_capacity};
ghost use Rattle.std.specs.List.{AllZip};
ghost use Rattle.told_lock.specs.Rights.{IsKeeper, first_of, seens_of, told_of};
ghost use Rattle.like_shared.specs.Closed.{AreEndsOf, IsClosedShared, IsNotClosed};
ghost use Rattle.like_shared.specs.Shared.{IsServiceKeeper, first_driver};

use super::{NotClosed, SeatKeeper, ServiceKeeper, SharedService};
use crate::laws::shared_services_are_strict;
use crate::seat_call::SeatLock;
use like_board::SharedPost;
use like_live::{LiveSeat, NotAllGone, Service, calls_keep_seats};

impl SharedService {
    /// Ends the service, once all clients are back and all its seats are gone, and writes each page's last count.
    pub fn close(self, keeper: ServiceKeeper, counts: &mut [u64]) -> Result<(), NotClosed>
        requires keeper { IsServiceKeeper self keeper }
        requires places { length counts.old ≡ length (first_driver self).lead.seat.opening.counts }
        ensures closed { OnOk result (IsClosedShared self keeper counts.new) }
        ensures not { IfErr result (IsNotClosed self keeper) }
        ensures unchanged { IfErr result (λ _. counts.new ≡ counts.old) }
    {
        if keeper.driver.out > 0 {
            return Err(NotClosed::ClientOut {
                service: self,
                keeper,
            });
        }
        calls_keep_seats();
        shared_services_are_strict();
        let SharedService {
            seats,
            driver,
            phase: _,
        } = self;
        let ServiceKeeper {
            seats: keepers,
            driver: driver_keeper,
            mut back,
        } = keeper;
        close_all(seats, keepers, &mut back);
        let driver = driver.close(driver_keeper);
        let service = Service {
            driver,
            seats: back,
        };
        match service.close(counts) {
            Ok(()) => Ok(()),
            Err(NotAllGone { service }) => Err(NotClosed::SeatNotGone { service }),
        }
    }
}

// The seats, once all their passes are back.
fn close_all(locks: Vec<SeatLock>, keepers: Vec<SeatKeeper>, back: &mut Vec<LiveSeat<SharedPost>>)
    requires keepers { AllZip IsKeeper locks.items keepers.items }
    requires passes { All (λ k. k.out ≡ 0) keepers.items }
    requires none { back.old.items ≡ [] }
    requires room { length locks.items ≤ vec_capacity back.old }
    ensures { AreEndsOf (map first_of locks.items) (map told_of keepers.items) (map seens_of keepers.items)
        back.new.items }
{
    for (lock, keeper) in locks.into_iter().zip(keepers) {
        back.push_reserved(lock.close(keeper));
    }
}
