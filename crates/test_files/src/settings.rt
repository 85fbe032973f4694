//! Settings and what is said of them, scripts that fit a run, and the verdict of a request.
use crate::files::{assert_same, assert_step, one_page, push, requests};
use SettingsFault::{Hot, Plan, Stash, Submitters, Turns, Users, Workers};
use Verdict::{Accepted, OtherHome, UnknownPage, UnknownUser};
use like_requests::{
    Op, PageRef, Request, SettingsFault, Setup, Turned, Verdict, check_script, check_setup, judge,
};
use std::alloc::Global;
use std::process::Abort;

// The likes of the submitters, `each` of each one. Submitter n likes page `first` + n.
fn likes(rt: &impl Abort, alloc: Global, numbers: &[u32; 3]) -> Vec<Vec<Request>> {
    let [submitters, each, first] = *numbers;
    let mut plans = Vec::new(alloc);
    for submitter in 0..submitters {
        let like = like_of(first.saturating_add(submitter));
        let plan = vec![in alloc; like; each as usize].expect(rt, "memory");
        push(rt, &mut plans, plan);
    }
    plans
}

fn like_of(page: u32) -> Request {
    Request {
        op: Op::Like,
        user: 0,
        page: PageRef::Known(page),
    }
}

// Workers, users, places of the stash and turns; likes of a hot page, if pages are chosen; submitters, how many likes
// each of these has, and the page that submitter 0 likes; and the answer. There is one page, so a like of another is at
// fault.
type Case = ([u32; 4], Option<u32>, [u32; 3], Result<(), SettingsFault>);

const SETTINGS: &[Case] = &[
    ([1, 2, 256, 1_000], None, [1, 1, 0], Ok(())),
    (
        [1, 2, 256, 1_000],
        None,
        [2, 1, 0],
        Err(Plan { submitter: 1 }),
    ),
    (
        [1, 2, 256, 1_000],
        None,
        [1, 1, 1],
        Err(Plan { submitter: 0 }),
    ),
    ([1, 1, 1, 0], None, [64, 0, 0], Ok(())),
    ([16, 1_000_000, 4_096, 1_000_000], None, [64, 0, 0], Ok(())),
    ([0, 1, 1, 0], None, [64, 0, 0], Err(Workers)),
    ([17, 1, 1, 0], None, [64, 0, 0], Err(Workers)),
    ([1, 0, 1, 0], None, [64, 0, 0], Err(Users)),
    ([1, 1_000_001, 1, 0], None, [64, 0, 0], Err(Users)),
    ([1, 1, 0, 0], None, [64, 0, 0], Err(Stash)),
    ([1, 1, 4_097, 0], None, [64, 0, 0], Err(Stash)),
    ([1, 1, 1, 1_000_001], None, [64, 0, 0], Err(Turns)),
    ([1, 1, 1, 0], Some(0), [1, 0, 0], Err(Hot)),
    ([1, 1, 1, 0], Some(1), [1, 0, 0], Ok(())),
    ([1, 1, 1, 0], Some(1_000_000), [1, 0, 0], Ok(())),
    ([1, 1, 1, 0], Some(1_000_001), [1, 0, 0], Err(Hot)),
    ([1, 1, 1, 0], None, [0, 0, 0], Err(Submitters)),
    ([1, 1, 1, 0], None, [1, 0, 0], Ok(())),
    ([1, 1, 1, 0], None, [65, 0, 0], Err(Submitters)),
    ([1, 1, 1, 0], None, [1, 1_000_000, 0], Ok(())),
    (
        [1, 1, 1, 0],
        None,
        [1, 1_000_001, 0],
        Err(Plan { submitter: 0 }),
    ),
];

// A test that takes them from here has none of them in its proof, as it would with a constant.
fn all_settings() -> &'static [Case] {
    SETTINGS
}

// The settings of a case.
fn setup(rt: &impl Abort, alloc: Global, numbers: &[u32; 4], hot: Option<u32>) -> Setup {
    let [workers, users, stash, turns] = *numbers;
    Setup {
        workers,
        users,
        stash,
        turns,
        hot,
        pages: one_page(rt, alloc),
    }
}

// Asserts that the settings of a case, which has this number, are answered as is wanted.
fn assert_answered(rt: &impl Abort, alloc: Global, number: usize, case: &Case) {
    let (numbers, hot, submitters, wanted) = case;
    let setup = setup(rt, alloc, numbers, *hot);
    let plans = likes(rt, alloc, submitters);
    let came = check_setup(&setup, &plans);
    drop(plans);
    drop(setup);
    assert_step(rt, "settings", number, came, *wanted);
}

#[test]
fn checks_the_settings(rt: HostRuntime) {
    for (number, case) in all_settings().iter().enumerate() {
        assert_answered(&rt, rt.alloc(), number, case);
    }
}

fn judged_text() -> &'static [u8] {
    b"op,user,page\nlike,2,a\nlook,1,a\nlike,0,zz\nlike,3,zz\nlike,0,a\n"
}

fn judged(rt: &impl Abort, alloc: Global) -> Vec<Request> {
    requests(rt, alloc, judged_text()).expect(rt, "requests")
}

// Asserts that requests of submitter 0, one of two, are judged so, where there are two users.
fn assert_judged(rt: &impl Abort, requests: &[Request], verdicts: &[Verdict]) {
    assert_same(rt, "requests", requests.len(), verdicts.len());
    for (number, (request, verdict)) in requests.iter().zip(verdicts).enumerate() {
        let came = judge(request, 0, 2, 2);
        assert_step(rt, "verdicts", number, came, *verdict);
    }
}

#[test]
fn judges_in_order(rt: HostRuntime) {
    let verdicts = [UnknownUser, OtherHome, UnknownPage, UnknownUser, Accepted];
    assert_judged(&rt, &judged(&rt, rt.alloc()), &verdicts);
}

#[test]
fn names_the_first_entry_that_is_away(rt: HostRuntime) {
    let script = [Turned::OpenOne(4), Turned::Worker(2), Turned::Coordinator];
    let none = check_script(&script, 3, 5).err();
    assert_same(&rt, "three workers, five lists", none, None);
    let second = check_script(&script, 2, 5).err();
    let wanted = Some(SettingsFault::Script { at: 1 });
    assert_same(&rt, "two workers", second, wanted);
    let first = check_script(&script, 3, 4).err();
    let wanted = Some(SettingsFault::Script { at: 0 });
    assert_same(&rt, "four lists", first, wanted);
}
