//! Which pages get slots in the split phases of a service: the slots with the pages in them (`Slots`), what proposes
//! pages for them (`Choice`), and a service's own choice, by samples of what its seats do (`Samples`).
#![tactic(auto)]

mod bits;
mod choice;
mod guided;
mod proposal;
mod proposed;
mod samples;
mod slots;

pub use choice::Choice;
pub use guided::Guided;
pub use proposal::Proposal;
pub use proposed::{NoProposal, Proposed};
pub use samples::Samples;
pub use samples::sample::Kind;
pub use samples::sampler::Sampler;
pub use slots::Slots;
