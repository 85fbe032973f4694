//! The laws of rounds and of fair schedules. Each is the contract of a function that does nothing.
ghost use Rattle.like_ending.specs.Example.{OneRequestLasts};
ghost use Rattle.like_ending.specs.Laws.{StaysInPhase, RoundsLower, RoundsEnd, FairRoundsEnd, FairStretchesLower, FairSchedulesEnd, AllCanTurn};

/// At its start a crew is in phase. Each turn keeps it so, and no turn of anybody raises what is left.
pub fn stays_in_phase()
    ensures { StaysInPhase }
{}

/// Each round lowers what is left of the crew and of the phase, taken together (`measure`).
pub fn rounds_lower()
    ensures { RoundsLower }
{}

/// Rounds end: after so many of them all workers are gone.
pub fn rounds_end()
    ensures { RoundsEnd }
{}

/// Fair rounds end: if each worker has a turn between any two of the coordinator's, in any order and number, the
/// coordinator finds all workers gone after as many turns as `rounds_end` has rounds.
pub fn fair_rounds_end()
    ensures { FairRoundsEnd }
{}

/// Each stretch of a schedule in which everybody has a turn lowers the distance to the end.
pub fn fair_stretches_lower()
    ensures { FairStretchesLower }
{}

/// So any schedule ends in which everybody has a turn again and again: in each state before the end there is somebody
/// whose turn changes something.
pub fn fair_schedules_end()
    ensures { FairSchedulesEnd }
{}

/// Nobody is ever stuck: everybody can have a turn.
pub fn all_can_turn()
    ensures { AllCanTurn }
{}

/// An example: a crew of one worker with one request may last nine rounds, and its bound is 15.
pub fn one_request_lasts()
    ensures { OneRequestLasts }
{}
