use crate::known::Known;
use atomic_table::Seat;

/// The right to make passes of a lock, to take them back, and to close it.
#[derive(Drop)]
pub struct Keeper<T, C> {
    pub(crate) seat: Seat<T, Known<T, C>>,
    /// How many passes are out.
    pub out: u64,
}
