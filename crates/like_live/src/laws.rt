//! The laws of a live seat's histories and answers, and of a service's seats at a moment of their board. Each is the
//! contract of a function that does nothing.
ghost use Rattle.like_live.specs.Answers.{AnswersAreBounded, AnswersAreReads};
ghost use Rattle.like_live.specs.CrossedLooks.{CrossedLooksAreNotSerial};
ghost use Rattle.like_live.specs.DeedStore.{DeedsShowLasts};
ghost use Rattle.like_live.specs.Deeds.{DeedsHaveEntries, FoundAreTaken};
ghost use Rattle.like_live.specs.Driver.{LastCountsStay};
ghost use Rattle.like_live.specs.History.{HistoriesAreCounted, NoneWaitsOnceGone};
ghost use Rattle.like_live.specs.LikeRow.{RowsAreLikes};
ghost use Rattle.like_live.specs.StrictService.{DeedsFitEarlier, MomentsAreStrict, MomentsFitEarlier, SeatsRise, ServicesAreStrict};
ghost use Rattle.like_live.specs.Moments.{LastCountsAreTallies, MarkedKeepSlots, SeatsAreExclusive, SplitPagesAreSlots};

/// Whatever calls a fresh seat is asked, it has counted what they were told (`HistoryIsCounted`): likes, last likes,
/// and looks that wait.
pub fn histories_are_counted()
    ensures { HistoriesAreCounted }
{}

/// A row of likes does what a turn does, and then each of its counted likes, in their order. These are calls of a
/// history, so each law of histories and of services speaks of rows, too.
pub fn rows_are_likes()
    ensures { RowsAreLikes }
{}

/// Nothing waits at a seat that is gone. So once its found looks are taken too, each look that was told `Waits` was
/// taken.
pub fn none_waits_once_gone()
    ensures { NoneWaitsOnceGone }
{}

/// At each moment of their board, between any two steps: while one seat of a service runs a joined phase, no seat runs
/// a split one, and none has a like in its slice.
pub fn seats_are_exclusive()
    ensures { SeatsAreExclusive }
{}

/// At each moment, a seat that runs a split phase slices exactly the pages in its driver's slots, with which the phase
/// was released.
pub fn split_pages_are_slots()
    ensures { SplitPagesAreSlots }
{}

/// Whatever calls a driver was asked, each marked page is in a slot in use.
pub fn marked_keep_slots()
    ensures { MarkedKeepSlots }
{}

/// At a moment at which all seats are gone, each page's count is its first count and the tallies of all seats.
pub fn last_counts_are_tallies()
    ensures { LastCountsAreTallies }
{}

/// Whatever calls a fresh seat is asked: each count that a look is told, at once or with a found look that is taken, is
/// one that the seat read of its page, in the phase in which the look ran. So is each count of a glance that is told
/// `Seen`. One that is told `Glimpsed` is a count at which the seat glanced plus the seat's slice of the page. The seat
/// adds these likes in that phase, or has them in its slice still.
pub fn answers_are_reads()
    ensures { AnswersAreReads }
{}

/// Each count that a call of a closed service was told is within its bounds (`IsWithinAdded`). (A found look runs
/// before its seat counts a like in the phase.)
pub fn answers_are_bounded()
    ensures { AnswersAreBounded }
{}

/// Once last counts were written, they are written whenever they are asked for, and a page has the same count each
/// time.
pub fn last_counts_stay()
    ensures { LastCountsStay }
{}

/// Whatever calls a fresh seat is asked: each of its deeds fits the store after the deeds before it, for some counts in
/// that store. So each look and each glance shows the page of its user's last like before it, or that with which the
/// seat was opened. A look that waited shows it as it is where it ran.
pub fn deeds_show_lasts()
    ensures { DeedsShowLasts }
{}

/// Whatever calls a fresh seat is asked: the found looks that were taken, with what they were shown, and then those
/// that are left, are those that the calls found, each once and in order. These are the seat's deeds where they ran.
pub fn found_are_taken()
    ensures { FoundAreTaken }
{}

/// A call goes on from what its seat had made before. Each of its deeds has the number of an entry that it made in the
/// board's log, or, as a like of a row, that of the latest entry that its seat had made.
pub fn deeds_have_entries()
    ensures { DeedsHaveEntries }
{}

/// Of a closed service there is a strict list of all deeds of its seats (`IsStrictService`): one thread could have done
/// them, one after the other. A snapshot shows its store at the end of the snapshot's phase, and the last counts and
/// the last likes that seats tell are its store's at the end.
pub fn services_are_strict()
    ensures { ServicesAreStrict }
{}

/// In a strict service each look shows what all deeds with lesser numbers leave, of whichever seats, but for what is
/// glimpsed.
pub fn deeds_fit_earlier()
    ensures { DeedsFitEarlier }
{}

/// In a strict service a seat's phases never fall, also where it came back.
pub fn seats_rise()
    ensures { SeatsRise }
{}

/// An example: two seats like a page each, and then each looks at the page that the other liked. If both looks show 0,
/// no one thread has done this, whatever their numbers. If the second shows 1, one has: user 0 comes first. And if user
/// 0 comes first by the numbers, none has done it the other way round.
pub fn crossed_looks_are_not_serial()
    ensures { CrossedLooksAreNotSerial }
{}

/// While a service still runs, there is such a list at each moment, of all that its seats have done so far, likes in
/// slices included, and the last likes that seats tell are its store's.
pub fn moments_are_strict()
    ensures { MomentsAreStrict }
{}

/// While a service still runs, each look shows at each moment what all deeds so far with lesser numbers leave, but for
/// what is glimpsed.
pub fn moments_fit_earlier()
    ensures { MomentsFitEarlier }
{}
