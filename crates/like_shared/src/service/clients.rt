//! Clients of a shared service are made, and come back.
ghost use Rattle.std.specs.Prelude.{◌≡◌, ◌++◌, ◌+◌, ◌-◌, ◌<◌, ◌≤◌, ◌^◌, [], ◌∷◌, All, IfOk, MatchResult, false, length, map, replicate, vec_capacity};
ghost use Rattle.std.specs.List.{AllZip};
ghost use Rattle.told_lock.specs.Deeds.{named};
ghost use Rattle.told_lock.specs.Rights.{IsKeeper, name_of, seen_of, seens_of, told_of};
ghost use Rattle.like_shared.specs.Passes.{IsReady, log_at, seen_at};
ghost use Rattle.like_shared.specs.Shared.{IsClient, IsServiceKeeper, clients_out, driver_log, held_by, seat_logs, seats_of, seats_seen, seats_told, with_logs, with_seen};

use super::{SeatKeeper, ServiceKeeper, SharedService};
use crate::client::Client;
use crate::seat_call::{SeatLock, SeatPass};
use crate::seat_lock::free;
use std::alloc::{AllocError, Global};

impl SharedService {
    /// Another client. `Err`: there is no memory, or 2^64 - 1 clients are out.
    pub fn new_client(
        &self,
        alloc: Global,
        keeper: &mut ServiceKeeper,
    ) -> Result<Client, AllocError>
        requires { IsServiceKeeper self.now keeper.old }
        ensures keeper { IsServiceKeeper self.now keeper.new }
        ensures out { MatchResult result (λ _. clients_out keeper.new ≡ clients_out keeper.old + 1)
            (λ _. keeper.new ≡ keeper.old) }
        ensures told { seats_told keeper.new ≡ seats_told keeper.old }
        ensures driver_told { told_of keeper.new.driver ≡ told_of keeper.old.driver }
        ensures seen { seats_seen keeper.new ≡ seats_seen keeper.old }
        ensures driver_seen { seens_of keeper.new.driver ≡ seens_of keeper.old.driver }
        ensures client { IfOk result (λ client. IsClient self.now client) }
        ensures logs { IfOk result (λ client. seat_logs client ≡ replicate (seats_of self.now) []) }
        ensures driver_log { IfOk result (λ client. driver_log client ≡ []) }
        ensures held { IfOk result (λ client. held_by client ≡ replicate (seats_of self.now) false) }
    {
        let out = keeper.driver.out;
        if out == u64::MAX {
            return Err(AllocError);
        }
        let seats = Vec::with_capacity(alloc, self.seats.len())?;
        let seats = new_passes(&self.seats, &mut keeper.seats, out, seats);
        let driver = self.driver.new_pass(&mut keeper.driver);
        Ok(Client { seats, driver })
    }

    /// Takes a client back, any of those that are out. Seats that it holds are given back.
    pub fn take_back(&self, keeper: &mut ServiceKeeper, client: Client)
        requires keeper { IsServiceKeeper self.now keeper.old }
        requires client { IsClient self.now client }
        ensures keeper { IsServiceKeeper self.now keeper.new }
        ensures out { clients_out keeper.new ≡ clients_out keeper.old - 1 }
        ensures told { seats_told keeper.new ≡ with_logs (seats_told keeper.old) client.seats.items }
        ensures driver_told { told_of keeper.new.driver
            ≡ told_of keeper.old.driver ++ named (name_of client.driver) (driver_log client) }
        ensures seen { seats_seen keeper.new ≡ with_seen (seats_seen keeper.old) client.seats.items }
        ensures driver_seen { seens_of keeper.new.driver ≡ seens_of keeper.old.driver ++ seen_of client.driver ∷ [] }
    {
        let Client { seats, driver } = client;
        let out = keeper.driver.out;
        take_passes(&self.seats, &mut keeper.seats, out, seats);
        self.driver.take_back(&mut keeper.driver, driver);
    }
}

// A pass of each seat, in order. So many are out.
fn new_passes(
    locks: &[SeatLock],
    keepers: &mut [SeatKeeper],
    _out: u64,
    mut passes: Vec<SeatPass>,
) -> Vec<SeatPass>
    requires keepers { AllZip IsKeeper locks.now keepers.old }
    requires out { All (λ k. k.out ≡ _out) keepers.old }
    requires room { _out + 1 < 2 ^ 64 }
    requires none { passes.items ≡ [] }
    requires places { length locks.now ≤ vec_capacity passes }
    ensures keepers { AllZip IsKeeper locks.now keepers.new }
    ensures out { All (λ k. k.out ≡ _out + 1) keepers.new }
    ensures told { map told_of keepers.new ≡ map told_of keepers.old }
    ensures seen { map seens_of keepers.new ≡ map seens_of keepers.old }
    ensures passes { AllZip IsReady locks.now result.items }
    ensures logs { map log_at result.items ≡ replicate (length locks.now) [] }
    ensures held { map (λ p. p.is_held) result.items ≡ replicate (length locks.now) false }
{
    for seat in 0..locks.len() {
        passes.push_reserved(SeatPass {
            pass: locks[seat].new_pass(&mut keepers[seat]),
            is_held: false,
        });
    }
    passes
}

// Takes a pass of each seat back, in order. So many are out.
fn take_passes(locks: &[SeatLock], keepers: &mut [SeatKeeper], _out: u64, passes: Vec<SeatPass>)
    requires keepers { AllZip IsKeeper locks.now keepers.old }
    requires out { All (λ k. k.out ≡ _out) keepers.old }
    requires passes { AllZip IsReady locks.now passes.items }
    ensures keepers { AllZip IsKeeper locks.now keepers.new }
    ensures out { All (λ k. k.out ≡ _out - 1) keepers.new }
    ensures told { map told_of keepers.new ≡ with_logs (map told_of keepers.old) passes.items }
    ensures seen { map seens_of keepers.new ≡ with_seen (map seens_of keepers.old) passes.items }
{
    let mut seat = 0;
    for pass in passes {
        take_pass(&locks[seat], &mut keepers[seat], pass);
        seat += 1;
    }
}

// Takes a pass of a seat back.
fn take_pass(lock: &SeatLock, keeper: &mut SeatKeeper, pass: SeatPass)
    requires keeper { IsKeeper lock.now keeper.old }
    requires ready { IsReady lock.now pass }
    ensures keeper { IsKeeper lock.now keeper.new }
    ensures out { keeper.new.out ≡ keeper.old.out - 1 }
    ensures told { told_of keeper.new ≡ told_of keeper.old ++ named (name_of pass.pass) (log_at pass) }
    ensures seen { seens_of keeper.new ≡ seens_of keeper.old ++ seen_at pass ∷ [] }
{
    lock.take_back(keeper, free(lock, pass));
}
