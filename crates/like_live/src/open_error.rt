use thiserror::Error;

/// Why a service was not opened. Of several wrong numbers the first is told, in this order.
#[derive(Clone, Copy, Debug, PartialEq, Eq, Error)]
pub enum OpenError {
    #[error("between 1 and 16,777,216 pages")]
    Pages,
    #[error("at most 64 marks, each a page, no two alike")]
    Marks,
    #[error("first counts of at most 10^18")]
    Counts,
    #[error("between 1 and 64 seats")]
    Seats,
    #[error("at least one user")]
    Users,
    #[error("no last likes, or one for each user: a page or none")]
    Lasts,
    #[error("room for 1 to 4,096 looks")]
    Room,
    #[error("1 to 1,000,000 likes that make a page hot")]
    Hot,
    #[error("out of memory")]
    Memory,
}
