//! A service that any thread can call for any user. Each seat and the driver lie behind a lock that is tried and never
//! waited for, and each thread has a client.
#![tactic(auto)]

mod client;
mod deed;
mod desk;
mod driver;
mod driver_calls;
mod hub;
mod laws;
mod seat_call;
mod seat_calls;
mod seat_lock;
mod seat_row;
mod seat_rows;
mod service;

pub use client::Client;
pub use deed::{DriverDeed, DriverDeeds, SeatDeed, SeatDeeds};
pub use desk::{Card, Cards, Desk, DeskDeed, DeskDeeds};
pub use driver::{DriverCall, DriverLock, DriverPass, try_drive};
pub use driver_calls::{DriverTurnCall, LastCountsCall, ProposeCall, SnapshotCall, SplitPagesCall};
pub use hub::{Hub, HubNotClosed, NoClient};
pub use laws::{batches_are_calls, counts_stay, same_stays, shared_services_are_strict};
pub use seat_call::{Busy, SeatCall, SeatLock, SeatPass, try_call};
pub use seat_calls::{
    ComeBackCall, GlanceCall, LastCall, LikeCall, LookCall, RetireCall, TakeFoundCall, TurnCall,
};
pub use seat_lock::{try_lock, unlock};
pub use seat_row::{SeatRow, try_row};
pub use seat_rows::{CallRow, LastsRow, LikeRow};
pub use service::{NotClosed, ServiceKeeper, SharedService};
