ghost use Rattle.std.specs.Prelude.{◌≡◌};
ghost use Rattle.like_roles.specs.coordinator.CoordTurns.{HasEndedJoined};
ghost use Rattle.like_crew.specs.Ended.{IsCoordinatorOf};

use crate::crew::CoordinatorAt;
use like_board::{CoordSeat, WorkerSeat};
use like_promises::{Chosen, WorkerLog};

/// What a crew leaves when its run has ended.
#[derive(Drop)]
pub struct Ended {
    pub(crate) logs: Vec<WorkerLog>,
    pub(crate) seats: Vec<WorkerSeat>,
    /// The phase in which it ended.
    pub(crate) phases: u32,
    pub(crate) coord: CoordSeat,
    /// The phases with hot pages, as the coordinator chose them.
    pub(crate) chosen: Vec<Chosen>,
}

impl Ended {
    /// What a coordinator leaves, with the logs and the seats of the workers.
    pub fn new(done: CoordinatorAt<'_>, logs: Vec<WorkerLog>, seats: Vec<WorkerSeat>) -> Ended
        requires { HasEndedJoined done }
        ensures coordinator { IsCoordinatorOf done.entry result }
        ensures logs { result.logs ≡ logs }
        ensures seats { result.seats ≡ seats }
    {
        let coordinator = done.coordinator;
        let phases = coordinator.phase();
        let (coord, chosen) = coordinator.finish();
        Ended {
            logs,
            seats,
            phases,
            coord,
            chosen,
        }
    }
}
