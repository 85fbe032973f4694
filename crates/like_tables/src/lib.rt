//! The tables of one worker: its slice of the likes of a split phase, its stash of requests that wait for the next
//! joined phase, and the last likes of its users.
#![tactic(auto)]

mod bucket_counts;
mod buckets;
mod counts;
mod held;
mod home;
mod last_like;
mod page_set;
mod ranked;
mod share;
mod slice;
mod split_pages;
mod split_slice;
mod stash;
mod users;

pub use bucket_counts::BucketCounts;
pub use buckets::{BUCKETS, factor_for};
pub use counts::Counts;
pub use held::Held;
pub use home::Home;
pub use last_like::NO_PAGE;
pub use ranked::Ranked;
pub use slice::Slice;
pub use split_pages::SplitPages;
pub use split_slice::SplitSlice;
pub use stash::Stash;
pub use users::Users;
