//! The live core: a service that a host embeds. Its threads hold seats and call them, and a driver ends and releases
//! phases, for ever and in bounded memory.
//!
//! Once a service is open, no call takes memory, waits, sleeps or locks.
#![tactic(auto)]

mod answer;
mod asked;
mod call;
mod driver;
mod driver_answer;
mod driver_end;
mod hint;
mod laws;
mod like_pair;
mod live_seat;
mod look_room;
mod open_error;
mod opening;
mod phase_now;
mod row;
mod service;
mod signals;

pub use answer::{GlanceAnswer, LikeAnswer, LookAnswer, TurnAnswer};
pub use asked::{Asked, Found};
pub use call::{Answer, Call};
pub use driver::Driver;
pub use driver_answer::DriverAnswer;
pub use driver_end::End;
pub use laws::{
    answers_are_bounded, answers_are_reads, crossed_looks_are_not_serial, deeds_fit_earlier,
    deeds_have_entries, deeds_show_lasts, found_are_taken, histories_are_counted,
    last_counts_are_tallies, last_counts_stay, marked_keep_slots, moments_are_strict,
    moments_fit_earlier, none_waits_once_gone, rows_are_likes, seats_are_exclusive, seats_rise,
    services_are_strict, split_pages_are_slots,
};
pub use like_pair::{LikePair, RowAnswer};
pub use like_tables::NO_PAGE;
pub use live_seat::LiveSeat;
pub use open_error::OpenError;
pub use opening::{MAX_MARKS, Opening};
pub use phase_now::PhaseNow;
pub use row::Row;
pub use service::{NotAllGone, Service, calls_keep_seats};
pub use signals::MAX_LIKES;
