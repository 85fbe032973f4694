//! Cases of the worked examples.
use super::lists::push;
use like_replies::Report;
use like_requests::{Op, PageRef, Pages, Request, Setup, read_pages, read_requests};
use like_roles::Gate;
use like_run::{MAX_ENTRIES, ReplayFault, RunFault, Turned, replay, run};
use std::alloc::Global;
use std::process::Abort;
use std::sync::Wait;
use std::thread::Threads;

/// A replay: its settings, its files without their headers, and its script as words of two letters.
#[derive(Clone, Copy)]
pub struct Case {
    pub workers: u32,
    pub users: u32,
    pub stash: u32,
    pub turns: u32,
    pub hot: Option<u32>,
    pub pages: &'static str,
    pub requests: &'static [&'static str],
    pub script: &'static str,
}

impl Case {
    pub fn setup(&self, rt: &impl Abort, alloc: Global) -> Setup {
        Setup {
            workers: self.workers,
            users: self.users,
            stash: self.stash,
            turns: self.turns,
            hot: self.hot,
            pages: pages_of(rt, alloc, self.pages),
        }
    }

    /// Its requests, of these pages.
    pub fn plans(&self, rt: &impl Abort, alloc: Global, pages: &Pages) -> Vec<Vec<Request>> {
        let mut plans = Vec::new(alloc);
        for requests in self.requests {
            push(rt, &mut plans, plan_of(rt, alloc, requests, pages));
        }
        plans
    }

    /// What a replay of the case's own requests ends in.
    pub fn replay(&self, rt: &impl Abort, alloc: Global) -> Result<Report, ReplayFault> {
        let setup = self.setup(rt, alloc);
        let plans = self.plans(rt, alloc, &setup.pages);
        replayed(rt, alloc, setup, plans, turns(rt, alloc, self.script))
    }

    /// What a replay of these plans ends in, where the case has no script.
    pub fn replay_plans(
        &self,
        rt: &impl Abort,
        alloc: Global,
        plans: Vec<Vec<Request>>,
    ) -> Result<Report, ReplayFault> {
        replayed(rt, alloc, self.setup(rt, alloc), plans, Vec::new(alloc))
    }

    /// What a run of these plans on threads ends in.
    pub fn run(
        &self,
        rt: &(impl Abort + Threads + Wait + Sync),
        alloc: Global,
        plans: Vec<Vec<Request>>,
        gate: &impl Gate,
    ) -> Result<Report, RunFault> {
        let setup = self.setup(rt, alloc);
        let ran = run(rt, alloc, &setup, plans, gate);
        drop(setup);
        ran
    }

    /// The report of a run of these plans on threads.
    pub fn report(
        &self,
        rt: &(impl Abort + Threads + Wait + Sync),
        alloc: Global,
        plans: Vec<Vec<Request>>,
        gate: &impl Gate,
    ) -> Report {
        self.run(rt, alloc, plans, gate).expect(rt, "a report")
    }
}

/// What a replay of these plans by a script ends in. It takes its settings and its script, so that no caller has to
/// drop them: each would prove once more how each of their parts is dropped.
pub fn replayed(
    rt: &impl Abort,
    alloc: Global,
    setup: Setup,
    plans: Vec<Vec<Request>>,
    script: Vec<Turned>,
) -> Result<Report, ReplayFault> {
    assert!(rt; script.len() <= MAX_ENTRIES as usize);
    let replayed = replay(alloc, &setup, plans, &script);
    drop(script);
    drop(setup);
    replayed
}

// A file of this header and these rows.
fn file_of(rt: &impl Abort, alloc: Global, header: &str, rows: &str) -> String {
    format!(in alloc; "{header}\n{rows}").expect(rt, "memory")
}

/// The pages of a file, without its header.
pub fn pages_of(rt: &impl Abort, alloc: Global, pages: &str) -> Pages {
    let text = file_of(rt, alloc, "name,count,split", pages);
    read_pages(alloc, text.as_bytes()).expect(rt, "pages")
}

fn plan_of(rt: &impl Abort, alloc: Global, requests: &str, pages: &Pages) -> Vec<Request> {
    let text = file_of(rt, alloc, "op,user,page", requests);
    read_requests(alloc, text.as_bytes(), pages).expect(rt, "requests")
}

// The byte of a word at a place.
fn byte(rt: &impl Abort, word: &[u8], place: usize) -> u8 {
    *word.get(place).expect(rt, "a word")
}

// The entry of a script that a letter and an index stand for.
fn turned(letter: u8, index: u32) -> Turned {
    match letter {
        b'o' => Turned::OpenOne(index),
        b'w' => Turned::Worker(index),
        _ => Turned::Coordinator,
    }
}

// The entry of a script that a word stands for.
fn turned_by(rt: &impl Abort, word: &[u8]) -> Turned {
    let digit = byte(rt, word, 1).saturating_sub(b'0');
    turned(byte(rt, word, 0), u32::from(digit))
}

/// The entries of a script whose words are `o0` for an open, `w0` for a worker's turn, `c0` for the coordinator's.
pub fn turns(rt: &impl Abort, alloc: Global, script: &str) -> Vec<Turned> {
    let mut turns = Vec::new(alloc);
    for word in script.as_bytes().chunks(3) {
        push(rt, &mut turns, turned_by(rt, word));
    }
    turns
}

// This many requests of page 0 by a user.
fn plan_of_one(rt: &impl Abort, alloc: Global, op: Op, user: u32, each: usize) -> Vec<Request> {
    let page = PageRef::Known(0);
    vec![in alloc; Request { op, user, page }; each].expect(rt, "memory")
}

/// For each submitter, this many requests of page 0 by the user of its number.
pub fn requests(
    rt: &impl Abort,
    alloc: Global,
    op: Op,
    submitters: u32,
    each: usize,
) -> Vec<Vec<Request>> {
    let mut plans = Vec::new(alloc);
    for user in 0..submitters {
        push(rt, &mut plans, plan_of_one(rt, alloc, op, user, each));
    }
    plans
}

/// For each submitter, this many likes of page 0 by the user of its number.
pub fn likes(rt: &impl Abort, alloc: Global, submitters: u32, each: usize) -> Vec<Vec<Request>> {
    requests(rt, alloc, Op::Like, submitters, each)
}

/// One worker, whose phases end as soon as they may, one user, and one page that is split.
pub const SMALL: Case = Case {
    workers: 1,
    users: 1,
    stash: 256,
    turns: 0,
    hot: None,
    pages: "a,0,yes\n",
    requests: &[],
    script: "",
};

/// One page that is split, whose requests are given by `requests`. A function that takes a case from here has none of its
/// texts in its proof, as it would with a constant.
pub fn one_page(workers: u32, users: u32, turns: u32) -> Case {
    Case {
        workers,
        users,
        turns,
        ..SMALL
    }
}

/// The case of `plain-likes`.
pub fn plain_likes() -> &'static Case {
    &PLAIN_LIKES
}

pub const PLAIN_LIKES: Case = Case {
    users: 2,
    turns: 1_000,
    pages: "a,10,no\n",
    requests: &["like,0,a\nlike,1,a\nlike,0,a\n"],
    ..SMALL
};

pub const SPLIT_AND_STASH: Case = Case {
    users: 2,
    pages: "a,10,yes\n",
    requests: &["like,0,a\nlook,0,a\n"],
    script: "o0 o0 c0 w0 c0 w0 w0 c0 w0 c0 w0",
    ..SMALL
};

pub const LATE_WORKER: Case = Case {
    workers: 2,
    users: 2,
    requests: &["", "look,1,a\nlook,1,a\n"],
    script: "o1 o1 c0 w0 w1 c0 w1 w1 c0 w0 w1 c0 c0 w1 w1 w1",
    ..SMALL
};

pub const STASH_THEN_LIKE: Case = Case {
    pages: "a,5,yes\nb,0,no\n",
    requests: &["look,0,a\nlike,0,b\n"],
    script: "o0 o0 c0 w0 c0 w0 w0 c0 w0 c0 w0",
    ..SMALL
};

pub const FULL_STASH: Case = Case {
    stash: 1,
    requests: &["look,0,a\nlook,0,a\n"],
    script: "o0 o0 c0 w0 c0 w0 w0 c0 w0 c0 w0 w0",
    ..SMALL
};

pub const UNSPLIT: Case = Case {
    pages: "a,7,no\n",
    requests: &["like,0,a\nlook,0,a\n"],
    script: "o0 o0 c0 w0 c0 w0 w0",
    ..SMALL
};

pub const TWO_SLICES: Case = Case {
    workers: 2,
    users: 2,
    pages: "a,100,yes\n",
    requests: &["like,0,a\nlook,0,a\n", "like,1,a\n"],
    script: "o0 o0 o1 c0 w0 w1 c0 w0 w1 w0 c0 w0 c0 w0 w1 c0 w0",
    ..SMALL
};

pub const IDLE_WORKERS: Case = Case {
    workers: 4,
    requests: &["like,0,a\n"],
    ..SMALL
};
