ghost use Rattle.std.specs.Prelude.{◌≡◌, ◌↔◌, IsOk, OnOk, IfErr, fold, take};
ghost use Rattle.like_core.specs.Functions.{MayAll};
ghost use Rattle.like_core.specs.core.Table.{IsWrong, Permits, next};
ghost use Rattle.like_core.specs.core.Core.{numbers_of, TakesStates, KeepsReachable, IsCoreExclusive};

use super::{Core, Wrong};
use crate::event::Event;

/// Makes the events in order, up to the first that may not happen. The core is then as after the events before it.
pub fn check_events(core: &mut Core, events: &[Event]) -> Result<(), Wrong>
    ensures permitted { IsOk result ↔ MayAll next Permits (numbers_of core.old) events.now }
    ensures next { OnOk result (numbers_of core.new ≡ fold next (numbers_of core.old) events.now) }
    ensures states { OnOk result (TakesStates core.old core.new events.now) }

    ensures wrong { IfErr result (IsWrong (numbers_of core.old) events.now) }
    ensures before { IfErr result (λ wrong.
        numbers_of core.new ≡ fold next (numbers_of core.old) (take wrong.index events.now)) }
    ensures states_before { IfErr result (λ wrong.
        TakesStates core.old core.new (take wrong.index events.now)) }

    ensures reachable { KeepsReachable core.old core.new }
    ensures exclusive { IsCoreExclusive core.new }
{
    for (index, event) in events.iter().enumerate() {
        if let Err(reason) = core.step(*event) {
            return Err(Wrong { index, reason });
        }
    }
    Ok(())
}
