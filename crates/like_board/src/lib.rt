//! The board of the like service: the phase word, the pages' counts, the mask of hot pages and their slots, as words
//! that change in single atomic steps. The coordinator and each worker step on them with a seat.
#![tactic(auto)]

mod answer;
mod board;
mod closed_board;
mod coord_seat;
mod first_pages;
mod holder;
mod key;
mod layout;
mod led_board;
mod new_seats;
mod own_board;
mod plays;
mod post;
mod rule;
mod worker_seat;

pub use board::Board;
pub use coord_seat::CoordSeat;
pub use holder::HoldsBoard;
pub use led_board::{LeadSeat, LeadsAt};
pub use own_board::{LentPost, OwnBoard, OwnCoordSeat, OwnWorkerSeat};
pub use post::{BoardPost, PostAt, SharedPost};
pub use worker_seat::WorkerSeat;
