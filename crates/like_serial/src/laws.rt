//! The laws of one order. Each is the contract of a function that does nothing.
ghost use Rattle.like_serial.specs.Example.{CrossedLooksHaveNoOrder, OrderedLooksFit};
ghost use Rattle.like_serial.specs.Laws.{GrowthIsLikes, OneThreadIsRight, OneThreadIsSerial, RightIsOneThread, RunsAreSerial, SerialIsBetween};
ghost use Rattle.like_serial.specs.OneSees.{OneSeesTheOther};

/// Of two workers that each add to a page and then read the other's page, one at least reads the other's likes.
pub fn one_sees_the_other()
    ensures { OneSeesTheOther }
{}

/// Where one order of page steps fits the run lists, there is a list of their entries that is the run of one thread.
pub fn runs_are_serial()
    ensures { RunsAreSerial }
{}

/// Where the replies of a list are the store's, each answer is right after the entries before it, and counts are exact.
pub fn one_thread_is_serial()
    ensures { OneThreadIsSerial }
{}

/// A report that is right end to end is that of one thread, which has a store.
pub fn right_is_one_thread()
    ensures { RightIsOneThread }
{}

/// And the report of one thread is right end to end: run order in one list, hot pages by the likes of run lists, each
/// answer by its worker's entries before it, and the bounds of each count follow from it.
pub fn one_thread_is_right()
    ensures { OneThreadIsRight }
{}

/// A page is hot by how much its count grew in the two phases before: by as many likes of it as ran in them. Before phase
/// 1 there is one phase.
pub fn growth_is_likes()
    ensures { GrowthIsLikes }
{}

/// Each count in the run lists has the bounds of its phase.
pub fn serial_is_between()
    ensures { SerialIsBetween }
{}

/// An example: two workers like a page each, and then each looks at the other's page and sees 0. Each count is between
/// its bounds, and yet no order gives these replies.
pub fn crossed_looks_have_no_order()
    ensures { CrossedLooksHaveNoOrder }
{}

/// If the second of the looks shows 1, there are page steps that fit the run lists.
pub fn ordered_looks_fit()
    ensures { OrderedLooksFit }
{}
