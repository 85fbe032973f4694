//! Laws of orders: the contracts of functions that do nothing.
ghost use Rattle.told_lock.specs.Deeds.{LogsWeighAll};
ghost use Rattle.told_lock.specs.Rule.{HoldersSeeAll};

use crate::deeds::Deeds;

/// Whatever weight deeds have, those of an order weigh together what all passes told.
pub fn logs_weigh_all<T, C, D: Deeds<T, C>>()
    ensures { LogsWeighAll D.does }
{}

/// Who has the lock has seen all that any pass has seen: so if one holder gave it back before another took it, the deeds
/// of the one stand before those of the other.
pub fn holders_see_all<T, C, D: Deeds<T, C>>()
    ensures { HoldersSeeAll D.does }
{}
