//! The desk of a shared service, at which clients are made and parked: the service's keeper, behind a lock of its own.
ghost use Rattle.like_shared.specs.Desk.{DeskDoes};

use crate::client::Client;
use crate::service::ServiceKeeper;
use told_lock::{Deeds, Keeper, Lock, Pass};

/// What is done at a desk, as contracts see it. No value of it is made.
pub enum DeskDeed {
    /// A client was made.
    Made,
    /// This client was parked.
    Parked { client: Client },
}

/// What that does to the keeper.
pub struct DeskDeeds;

impl Deeds<ServiceKeeper, DeskDeed> for DeskDeeds {
    ghost does = { DeskDoes };
}

/// The keeper of a service, behind its lock.
pub type Desk = Lock<ServiceKeeper, DeskDeed, DeskDeeds>;

/// The right of one thread to go to the desk.
pub type Card = Pass<ServiceKeeper, DeskDeed>;

/// The right to make cards.
pub type Cards = Keeper<ServiceKeeper, DeskDeed>;
