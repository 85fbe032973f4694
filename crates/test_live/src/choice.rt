//! Which pages get slots: what is proposed, and what is found by samples. No contract says which pages are popular.
use crate::asserts::{At, assert_at, assert_same};
use like_choice::{Choice, Kind, NoProposal, Proposal, Proposed, Sampler, Samples, Slots};
use std::alloc::AllocError;
use std::process::Abort;

// How many pages the drawn services have.
const PAGES: u32 = 1_000_000;

// How many requests there are between two choices.
const REQUESTS: u32 = 120_000;

// Likes at Zipf 1.4: of 2^32 draws, those below each number are of one of the first pages by popularity: of the first
// one, two and so on to 64, and then of the first 128, 256 and so on.
static ZIPF: [u32; 78] = [
    1_387_445_015,
    1_913_188_363,
    2_211_208_784,
    2_410_428_260,
    2_556_194_776,
    2_669_123_399,
    2_760_131_180,
    2_835_621_244,
    2_899_635_436,
    2_954_870_617,
    3_003_206_096,
    3_045_998_042,
    3_084_253_648,
    3_118_739_148,
    3_150_049_505,
    3_178_654_891,
    3_204_932_587,
    3_229_189_430,
    3_251_677_943,
    3_272_608_162,
    3_292_156_452,
    3_310_472_174,
    3_327_682_805,
    3_343_897_921,
    3_359_212_313,
    3_373_708_477,
    3_387_458_598,
    3_400_526_159,
    3_412_967_253,
    3_424_831_660,
    3_436_163_734,
    3_447_003_148,
    3_457_385_512,
    3_467_342_897,
    3_476_904_276,
    3_486_095_901,
    3_494_941_624,
    3_503_463_177,
    3_511_680_405,
    3_519_611_475,
    3_527_273_056,
    3_534_680_473,
    3_541_847_845,
    3_548_788_205,
    3_555_513_607,
    3_562_035_217,
    3_568_363_397,
    3_574_507_776,
    3_580_477_322,
    3_586_280_391,
    3_591_924_788,
    3_597_417_807,
    3_602_766_277,
    3_607_976_598,
    3_613_054_778,
    3_618_006_457,
    3_622_836_945,
    3_627_551_238,
    3_632_154_047,
    3_636_649_817,
    3_641_042_744,
    3_645_336_797,
    3_649_535_731,
    3_653_643_101,
    3_811_504_182,
    3_931_620_378,
    4_022_833_922,
    4_092_030_137,
    4_144_497_335,
    4_184_269_995,
    4_214_415_811,
    4_237_263_498,
    4_254_579_348,
    4_267_702_515,
    4_277_648_093,
    4_285_185_461,
    4_290_897_729,
    4_294_967_295,
];

// A fixed generator.
#[derive(Drop)]
struct Drawn {
    state: u64,
}

impl Drawn {
    fn next(&mut self) -> u32 {
        self.state = self
            .state
            .wrapping_mul(6_364_136_223_846_793_005)
            .wrapping_add(1_442_695_040_888_963_407);
        (self.state >> 32) as u32
    }

    /// How many pages are more popular than the one that is liked next.
    fn rank(&mut self) -> u32 {
        let drawn = self.next();
        let part = ZIPF.iter().position(|above| drawn < *above).unwrap_or(77) as u32;
        if part < 64 {
            part
        } else {
            let first = 64 << part.min(77).saturating_sub(64);
            (first + self.next() % (first.max(1))).min(PAGES - 1)
        }
    }
}

// The page with this rank by popularity, from 0 on. Every page has one rank.
fn page_at(rank: u32) -> u32 {
    (u64::from(rank) * 611_953 % 1_000_000) as u32
}

// Whether a page is in a slot.
fn is_in(slots: &Slots, page: u32) -> bool {
    let bits = slots.bits();
    for slot in 0..64u32 {
        if bits >> slot & 1 == 1 && slots.page(slot) == page {
            return true;
        }
    }
    false
}

// Asserts that the first slots have these pages, and that these slots are in use.
fn assert_slots(rt: &impl Abort, name: &str, slots: &Slots, pages: &[u32], bits: u64) {
    for (step, page) in pages.iter().enumerate() {
        let came = slots.pages().get(step).copied();
        let at = At {
            name,
            part: 0,
            step,
        };
        assert_at(rt, at, came, Some(*page));
    }
    assert_same(rt, name, slots.bits(), bits);
}

#[test]
fn slots_of_a_proposal(rt: HostRuntime) {
    // The factor is that of buckets by the page modulo 1,024.
    let mut slots = Slots::new(1 << 22, 5_000, &[7]);
    assert_slots(&rt, "a marked page", &slots, &[7], 1);
    // 1,031 has the bucket of 7, 1,034 that of 10, and there are no pages from 5,000 on.
    slots.choose(&[10, 1_031, 1_034, 5_000, 20, 10]);
    assert_slots(&rt, "the first choice", &slots, &[7, 10, 20], 7);
    slots.choose(&[30, 20]);
    assert_slots(&rt, "the second choice", &slots, &[7, 30, 20], 7);
    slots.choose(&[]);
    assert_same(&rt, "a choice of no page", slots.bits(), 1);
}

#[test]
fn proposals_that_are_set(rt: HostRuntime) {
    let slots = Slots::new(1 << 22, 100, &[]);
    let mut proposal = Proposal::new();
    let mut proposed = Proposed::new();
    proposed.set(&[3, 1, 2]);
    proposed.propose(&slots, &mut proposal);
    let wanted = [3, 1, 2];
    assert_same(&rt, "what was set", proposal.pages(), wanted.as_slice());
    NoProposal.propose(&slots, &mut proposal);
    assert_same(&rt, "pages of no proposal", proposal.pages().len(), 0);
}

// A seat that only samples its likes.
#[derive(Drop)]
struct Sampled {
    sampler: Sampler,
    // How many likes go by before the next sample.
    left: u32,
}

impl Sampled {
    fn new(mut sampler: Sampler) -> Sampled {
        let left = sampler.gap();
        Sampled { sampler, left }
    }

    fn likes(&mut self, page: u32) {
        if self.left > 0 {
            self.left -= 1;
            return;
        }
        self.sampler.note(page, Kind::Like);
        self.left = self.sampler.gap();
    }
}

// Of the likes so far, how many were of the 64 most popular pages, and how many of pages in slots.
#[derive(Drop)]
struct Counted {
    best: u64,
    sliced: u64,
}

impl Counted {
    // Counts a like of the page with this rank.
    fn add(&mut self, slots: &Slots, rank: u32, page: u32) {
        self.best = self.best.wrapping_add(u64::from(rank < 64));
        self.sliced = self.sliced.wrapping_add(u64::from(is_in(slots, page)));
    }
}

// Two seats, which like in turn.
#[derive(Drop)]
struct TwoSeats {
    first: Sampled,
    second: Sampled,
}

impl TwoSeats {
    fn new(samples: &Samples) -> Result<TwoSeats, AllocError> {
        Ok(TwoSeats {
            first: Sampled::new(samples.sampler(0)?),
            second: Sampled::new(samples.sampler(1)?),
        })
    }

    fn likes(&mut self, request: u32, page: u32) {
        if request % 2 == 0 {
            self.first.likes(page);
        } else {
            self.second.likes(page);
        }
    }
}

// The likes between two choices, which are counted or not.
fn likes_by_two(
    drawn: &mut Drawn,
    seats: &mut TwoSeats,
    slots: &Slots,
    counted: &mut Counted,
    counts: bool,
) {
    for request in 0..REQUESTS {
        let rank = drawn.rank();
        let page = page_at(rank);
        seats.likes(request, page);
        if counts {
            counted.add(slots, rank, page);
        }
    }
}

// The likes of the last two of twelve choices.
fn last_likes(samples: &mut Samples, seats: &mut TwoSeats) -> Counted {
    let mut drawn = Drawn { state: 1 };
    let mut slots = Slots::new(0x9e37_79b1, PAGES, &[]);
    let mut proposal = Proposal::new();
    let mut counted = Counted { best: 0, sliced: 0 };
    for choice in 0..12u32 {
        likes_by_two(&mut drawn, seats, &slots, &mut counted, choice >= 10);
        samples.propose(&slots, &mut proposal);
        slots.choose(proposal.pages());
    }
    counted
}

#[test]
fn popular_pages_are_found(rt: HostRuntime) -> Result<(), AllocError> {
    let mut samples = Samples::new(rt.alloc(), 2, 512)?;
    let mut seats = TwoSeats::new(&samples)?;
    let Counted { best, sliced } = last_likes(&mut samples, &mut seats);
    assert!(rt; sliced / 95 >= best / 100, "{sliced} of {best}");
    Ok(())
}

// Likes of pages that are alike.
fn likes_any(drawn: &mut Drawn, seat: &mut Sampled) {
    for _ in 0..REQUESTS {
        seat.likes(drawn.next() % PAGES);
    }
}

// The first of twelve choices in which a page is proposed, and the page, if there is one.
fn first_proposed(samples: &mut Samples, seat: &mut Sampled) -> Option<(u32, u32)> {
    let mut drawn = Drawn { state: 2 };
    let slots = Slots::new(1 << 22, PAGES, &[]);
    let mut proposal = Proposal::new();
    for choice in 0..12u32 {
        likes_any(&mut drawn, seat);
        samples.propose(&slots, &mut proposal);
        if let Some(page) = proposal.pages().first() {
            return Some((choice, *page));
        }
    }
    None
}

#[test]
fn pages_that_are_alike_are_not_popular(rt: HostRuntime) -> Result<(), AllocError> {
    let mut samples = Samples::new(rt.alloc(), 1, 1)?;
    let mut seat = Sampled::new(samples.sampler(0)?);
    let proposed = first_proposed(&mut samples, &mut seat);
    assert_same(&rt, "pages that are alike", proposed, None);
    Ok(())
}

// In 40 choices four samples of each of 2,500 pages, more than are remembered. Ten choices later none is popular.
fn samples_many(samples: &mut Samples, sampler: &mut Sampler, slots: &Slots) {
    let mut proposal = Proposal::new();
    for sample in 0..10_000u32 {
        sampler.note(1_000 + sample / 4, Kind::Like);
        if sample % 250 == 249 {
            samples.propose(slots, &mut proposal);
        }
    }
    for _ in 0..10 {
        samples.propose(slots, &mut proposal);
    }
}

// The proposal after 12 samples of each of the pages 0 to 19.
fn proposed_then(samples: &mut Samples, sampler: &mut Sampler, slots: &Slots) -> Proposal {
    let mut proposal = Proposal::new();
    for sample in 0..240u32 {
        sampler.note(sample % 20, Kind::Like);
    }
    samples.propose(slots, &mut proposal);
    proposal
}

// Pages that are no longer popular make room for others that get popular.
#[test]
fn new_pages_find_room(rt: HostRuntime) -> Result<(), AllocError> {
    let mut samples = Samples::new(rt.alloc(), 1, 512)?;
    let mut sampler = samples.sampler(0)?;
    let slots = Slots::new(1 << 22, PAGES, &[]);
    samples_many(&mut samples, &mut sampler, &slots);
    let proposal = proposed_then(&mut samples, &mut sampler, &slots);
    assert_same(&rt, "pages found", proposal.pages().len(), 20);
    let other = proposal.pages().iter().position(|page| *page >= 20);
    assert_same(&rt, "a page without 12 samples", other, None);
    Ok(())
}
