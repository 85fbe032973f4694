//! Laws of the core's states, of the views of seats and of the places of a board's words. Each is the contract of a
//! function that does nothing.
ghost use Rattle.like_core.specs.declared.form.Form.TheVariants.{Bits, Counts};
ghost use Rattle.like_core.specs.core.Exclusive.{AreExclusive};
ghost use Rattle.like_core.specs.Slots.{SlotsTell};
ghost use Rattle.like_core.specs.core.Likes.{LikesStay, NoneHoldsWhileJoined};
ghost use Rattle.like_core.specs.core.Moves.{AllInStays, AllStayIn, NobodyReturns, Reached};
ghost use Rattle.like_core.specs.core.Reachable.{Reachable};
ghost use Rattle.like_core.specs.views.Layout.{WordsStandApart};
ghost use Rattle.like_core.specs.views.Shows.{CountsAreOfOneMoment, MomentsAreReachable};
ghost use Rattle.like_core.specs.views.SplitPages.{SlotsAreExact, SplitPagesAgree};
ghost use Rattle.like_core.specs.views.Serves.{AllGoneCounts, AllInCounts, AnswersOne, FormServes, RetiresOne, ReturnsOne, WordTellsPhase};
ghost use Rattle.like_core.specs.word.KindTells.{KindTellsPhase};
ghost use Rattle.like_core.specs.views.Clock.{LaterOrdersContinue, NumbersRise, PhasesKeepTime, SeatsFixOrder};
ghost use Rattle.like_core.specs.views.Order.{JoinKeepsOrder, LookKeepsOrder, NewSeatKeepsOrder, OrderGivesLabels, OtherStepKeepsOrder, PageStepKeepsOrder};
ghost use Rattle.like_core.specs.views.PostOrder.{MomentsAreOrdered, OrderGivesBounds, OrderGivesPast, OrderGivesPlaces};

/// No worker runs joined work while another has unmerged likes, after any list of events.
pub fn reachable_is_exclusive()
    ensures { AreExclusive Reachable }
{}

/// The likes that workers keep in their own slices lead to no state that could not be reached: so what holds of every
/// state that can be reached holds of the board's state and all slices together.
pub fn likes_stay_reachable()
    ensures { LikesStay Reachable }
{}

/// In every interleaving, no worker runs joined work while another holds an unmerged slice: the two laws above, together.
pub fn none_holds_while_joined()
    ensures { NoneHoldsWhileJoined }
{}

/// No worker runs joined work while another has unmerged likes, after any list of moves: also where seats of a service
/// that were gone come back.
pub fn reached_is_exclusive()
    ensures { AreExclusive Reached }
{}

/// The likes that workers of a service keep in their own slices lead to no state that no moves reach.
pub fn likes_stay_reached()
    ensures { LikesStay Reached }
{}

/// In a run no seat comes back: moves reach the states that events reach, and no other.
pub fn nobody_returns()
    ensures { NobodyReturns }
{}

/// In every interleaving of a run, once all workers are in they are so until the release, ending or not. In a service
/// they are so once it is ending.
pub fn all_stay_in()
    ensures { AllStayIn }
{}

/// At each moment of a run's board, events alone lead to the state that it shows, since nobody comes back there and a
/// glance changes no state.
pub fn moments_are_reachable()
    ensures { MomentsAreReachable }
{}

/// In every interleaving, once all workers are in at the end of a phase, nothing changes the state before the next is
/// released: no look does, and no seat comes back.
pub fn all_in_stays()
    ensures { AllInStays }
{}

/// A worker that has answered phase j tells j from j + 1 by the kind of the phase word. It is in no other phase.
pub fn kind_tells_phase()
    ensures { KindTellsPhase }
{}

/// A step at a page by a worker with one seat keeps the order of all that was done at pages, and comes last: it finds the
/// page's count, and no step is of a later phase. An addition is of some likes.
pub fn page_step_keeps_order()
    ensures { PageStepKeepsOrder }
{}

/// A worker's look keeps the order, too, and comes last: so does a return, which sees the phase that the worker then runs.
pub fn look_keeps_order()
    ensures { LookKeepsOrder }
{}

/// Each other step of a seat leaves the order as it is. A release raises the phase, and no step is of a later one then.
pub fn other_step_keeps_order()
    ensures { OtherStepKeepsOrder }
{}

/// A worker's seat that is given back leaves the order as it is: the coordinator's view then has what it did.
pub fn join_keeps_order()
    ensures { JoinKeepsOrder }
{}

/// A new seat leaves the order as it is: its worker had none, so the order has no step of it.
pub fn new_seat_keeps_order()
    ensures { NewSeatKeepsOrder }
{}

/// At each moment, all that was done at pages up to it has one order.
pub fn moments_are_ordered()
    ensures { MomentsAreOrdered }
{}

/// Each count that a worker read or glanced at has all additions of earlier phases and those that the worker made before
/// it in its phase, and none of a later phase: that follows from the order. Each addition's stretch lies between, too.
pub fn order_gives_bounds()
    ensures { OrderGivesBounds }
{}

/// The stretches of all additions tile each page's counts, each count that was read is the one at the start or the end of
/// a stretch, and each worker's calls are in order: that follows, too.
pub fn order_gives_places()
    ensures { OrderGivesPlaces }
{}

/// And nothing is added in a later phase than the last step's.
pub fn order_gives_past()
    ensures { OrderGivesPast }
{}

/// A look, a return or a step at a page gets a number above all that any seat had at its moment, also of those that were
/// given back. So the numbers of the log are a clock.
pub fn numbers_rise()
    ensures { NumbersRise }
{}

/// The log of a later moment, or of a closed board, continues that of an earlier one.
pub fn later_orders_continue()
    ensures { LaterOrdersContinue }
{}

/// There is one log: what the seats know of their own entries and numbers fixes it.
pub fn seats_fix_order()
    ensures { SeatsFixOrder }
{}

/// Of two entries in the log, that of the earlier phase has the lesser number.
pub fn phases_keep_time()
    ensures { PhasesKeepTime }
{}

/// The likes that have a worker's label of a phase are as many as its seat added to the page then: that follows from the
/// order, since the likes applied to a page are a function of the log.
pub fn order_gives_labels()
    ensures { OrderGivesLabels }
{}

/// The counts that the coordinator read at the end of a phase are of one moment: each has all that was added by then.
/// So a page that is read twice there has the same count twice.
pub fn counts_are_of_one_moment()
    ensures { CountsAreOfOneMoment }
{}

/// No two pages have the same word on a board, and none has the phase word, the mask word or a slot's word. The phase
/// word, the mask word and the words of the first 64 pages have 128 bytes each to themselves, so no two of them share a
/// cache line of 64 or 128 bytes.
pub fn words_stand_apart()
    ensures { WordsStandApart }
{}

/// A mask of slots has the bit of a page just where a slot in use holds the page.
pub fn slots_tell()
    ensures { SlotsTell }
{}

/// In a split phase of a service the split pages are those in the slots in use. These are pages of the service, and no
/// two are alike or share a bucket.
pub fn slots_are_exact()
    ensures { SlotsAreExact }
{}

/// What a worker slices in a phase that it runs is what is split in it.
pub fn split_pages_agree()
    ensures { SplitPagesAgree }
{}

/// The word of a program serves: it has a place for each phase and two bits for each worker.
pub fn bits_serve()
    ensures { FormServes Bits }
{}

/// The word of a service serves: a worker that answers adds 1 to a count, and no count carries into its neighbour.
pub fn counts_serve()
    ensures { FormServes Counts }
{}

/// An answer raises the count of those that have answered by one, and no other.
pub fn answers_one()
    ensures { AnswersOne }
{}

/// A retirement raises the count of those gone by one, and no other.
pub fn retires_one()
    ensures { RetiresOne }
{}

/// A return lowers the count of those gone by one, and no other.
pub fn returns_one()
    ensures { ReturnsOne }
{}

/// All are in just where those that have answered and those gone are together all workers.
pub fn all_in_counts()
    ensures { AllInCounts }
{}

/// All are gone just where those gone are all workers.
pub fn all_gone_counts()
    ensures { AllGoneCounts }
{}

/// No two phases have the same phase word.
pub fn word_tells_phase()
    ensures { WordTellsPhase }
{}
