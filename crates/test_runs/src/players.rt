//! Runs played by the tables of turns over the pure core, with plain lists for all that a worker keeps. Of a replay's
//! workers, coordinator and lists nothing is used here but the types of their entries.
//!
//! A play that can't go on is stuck.
ghost use Rattle.std.specs.Prelude.{◌≤◌};

use super::lists::push;
use like_core::{Core, Event, Shown, Sight};
use like_requests::{Op, PageRef, Request, Setup, Taken, Verdict};
use like_roles::{Chosen, Ran, Reply, Took};
use like_run::{MAX_ROUNDS, Turned};
use like_tables::Held;
use std::alloc::Global;
use std::collections::VecDeque;
use std::mem::swap;
use std::process::Abort;

mod shared;

use shared::{List, Shared, is_joined, open_all, phase_of};

/// A worker, with what it took and ran so far.
#[derive(Drop)]
pub struct Player {
    worker: u32,
    phase: u32,
    answered: bool,
    gone: bool,
    // Whether memory ran out, or a user is unknown.
    stuck: bool,
    // Those of its submitters whose end mark was not taken, from the cursor on.
    submitters: VecDeque<u32>,
    stash: VecDeque<Held>,
    backlog: VecDeque<Held>,
    // By user, of whom there are 12.
    last: [Option<u32>; 12],
    pub taken: Vec<Took>,
    pub ran: Vec<Ran>,
}

impl Player {
    // A worker with these submitters.
    fn new(alloc: Global, worker: u32, submitters: VecDeque<u32>) -> Player {
        Player {
            worker,
            phase: 0,
            answered: false,
            gone: false,
            stuck: false,
            submitters,
            stash: VecDeque::new(alloc),
            backlog: VecDeque::new(alloc),
            last: [None; 12],
            taken: Vec::new(alloc),
            ran: Vec::new(alloc),
        }
    }

    fn turn(&mut self, shared: &mut Shared<'_>) {
        if !self.gone {
            if let Shown::Seen(sight) = shared.step(Event::Look(self.worker)) {
                self.turn_at(shared, sight);
            }
        }
    }

    // A turn with this look. It does nothing in a phase that it has answered.
    fn turn_at(&mut self, shared: &mut Shared<'_>, sight: Sight) {
        let phase = phase_of(sight.number);
        if !self.answered || phase != self.phase {
            self.enter(phase);
            if is_joined(self.phase) {
                self.joined_turn(shared, sight.ending);
            } else {
                self.split_turn(shared, sight.ending);
            }
        }
    }

    // What waited becomes the backlog of a joined phase that begins for this worker.
    fn enter(&mut self, phase: u32) {
        if self.answered && is_joined(phase) {
            swap(&mut self.stash, &mut self.backlog);
        }
        self.answered = false;
        self.phase = phase;
    }

    fn joined_turn(&mut self, shared: &mut Shared<'_>, ending: bool) {
        if let Some(held) = self.backlog.pop_front() {
            self.run(shared, &held, true);
        } else if self.submitters.is_empty() {
            shared.step(Event::Retire(self.worker));
            self.gone = true;
        } else if ending {
            shared.step(Event::Acknowledge(self.worker));
            self.answered = true;
        } else {
            self.try_one(shared);
        }
    }

    fn split_turn(&mut self, shared: &mut Shared<'_>, ending: bool) {
        if ending {
            shared.merge_and_report(self.worker, self.phase);
            self.answered = true;
        } else if self.stash.len() < shared.stash as usize {
            self.try_one(shared);
        }
    }

    fn try_one(&mut self, shared: &mut Shared<'_>) {
        if let Some(submitter) = self.submitters.pop_front() {
            let taken = shared.take(submitter);
            if taken != Taken::End {
                self.put_back(submitter);
            }
            if let Taken::Ask(ask) = taken {
                self.give(shared, &Held { submitter, ask });
            }
        }
    }

    // A submitter whose turn it is again behind the others.
    fn put_back(&mut self, submitter: u32) {
        self.stuck |= self.submitters.push_back(submitter).is_err();
    }

    fn give(&mut self, shared: &mut Shared<'_>, held: &Held) {
        self.note_taken(held);
        if shared.waits(held, self.phase) {
            self.stuck |= self.stash.push_back(*held).is_err();
        } else {
            self.run(shared, held, false);
        }
    }

    fn note_taken(&mut self, held: &Held) {
        let took = Took {
            phase: self.phase,
            submitter: held.submitter,
            number: held.ask.number,
        };
        self.stuck |= self.taken.push(took).is_err();
    }

    fn run(&mut self, shared: &mut Shared<'_>, held: &Held, stashed: bool) {
        let reply = self.reply(shared, held);
        let ran = Ran {
            phase: self.phase,
            submitter: held.submitter,
            number: held.ask.number,
            stashed,
            reply,
        };
        self.stuck |= self.ran.push(ran).is_err();
    }

    fn reply(&mut self, shared: &mut Shared<'_>, held: &Held) -> Reply {
        let request = held.ask.request;
        match (shared.verdict(held), request.op, request.page) {
            (Verdict::Accepted, Op::Like, PageRef::Known(page)) => {
                self.like(shared, request.user, page)
            }
            (Verdict::Accepted, Op::Look, PageRef::Known(page)) => {
                self.see(shared, request.user, page)
            }
            (verdict, _, _) => Reply::Refused(verdict),
        }
    }

    fn like(&mut self, shared: &mut Shared<'_>, user: u32, page: u32) -> Reply {
        shared.step(Event::Like(self.worker, page));
        match self.last.get_mut(user as usize) {
            Some(last) => *last = Some(page),
            None => self.stuck = true,
        }
        Reply::Liked
    }

    fn see(&mut self, shared: &mut Shared<'_>, user: u32, page: u32) -> Reply {
        let count = shared.count(Event::Read(self.worker, page));
        Reply::Seen {
            last: self.last.get(user as usize).copied().flatten(),
            count,
        }
    }
}

// Makes the entries of a script.
fn follow(shared: &mut Shared<'_>, players: &mut [Player], script: &[Turned]) {
    for turned in script {
        match *turned {
            Turned::OpenOne(submitter) => shared.open_one(submitter),
            Turned::Worker(worker) => turn_of(shared, players, worker),
            Turned::Coordinator => {
                shared.lead();
            }
        }
    }
}

fn turn_of(shared: &mut Shared<'_>, players: &mut [Player], worker: u32) {
    match players.get_mut(worker as usize) {
        Some(player) => player.turn(shared),
        None => shared.stuck = true,
    }
}

// One turn of the coordinator, and one of each worker.
fn round(shared: &mut Shared<'_>, players: &mut [Player]) -> Option<u32> {
    let ended = shared.lead();
    for player in players {
        player.turn(shared);
    }
    ended
}

// Rounds with all lists open. Gives the phase in which the run ended, if it did.
fn rounds(shared: &mut Shared<'_>, players: &mut [Player]) -> Option<u32> {
    open_all(&mut shared.lists);
    for _ in 0..MAX_ROUNDS {
        let ended = round(shared, players);
        if ended.is_some() {
            return ended;
        }
    }
    None
}

// The submitters of a worker.
fn submitters_of(
    rt: &impl Abort,
    alloc: Global,
    worker: u32,
    workers: u32,
    submitters: u32,
) -> VecDeque<u32>
    requires { 1 ≤ workers }
{
    let mut own = VecDeque::new(alloc);
    for submitter in (worker..submitters).step_by(workers as usize) {
        own.push_back(submitter).expect(rt, "memory");
    }
    own
}

// The players of this many workers.
fn players_of(rt: &impl Abort, alloc: Global, workers: u32, submitters: u32) -> Vec<Player>
    requires { 1 ≤ workers }
{
    let mut players = Vec::new(alloc);
    for worker in 0..workers {
        let own = submitters_of(rt, alloc, worker, workers, submitters);
        push(rt, &mut players, Player::new(alloc, worker, own));
    }
    players
}

// A core of this many workers, with four pages, these of them split.
fn core_of(rt: &impl Abort, alloc: Global, workers: u32, split: &[bool; 4]) -> Core
    requires some { 1 ≤ workers }
    requires few { workers ≤ 16 }
{
    Core::new(alloc, workers, &[10, 20, 30, 40], split).expect(rt, "memory")
}

// Lists with no open item.
fn closed_lists(rt: &impl Abort, alloc: Global, submitters: usize) -> Vec<List> {
    vec![in alloc; List { open: 0, taken: 0 }; submitters].expect(rt, "memory")
}

// What a run has beside its workers at its start.
fn shared_of<'a>(
    rt: &impl Abort,
    alloc: Global,
    setup: &Setup,
    split: [bool; 4],
    plans: &'a [Vec<Request>],
) -> Shared<'a>
    requires some { 1 ≤ setup.now.workers }
    requires few { setup.now.workers ≤ 16 }
{
    Shared {
        users: setup.users,
        stash: setup.stash,
        turns: setup.turns,
        hot: setup.hot,
        submitters: u32::try_from(plans.len()).unwrap_or(u32::MAX),
        split,
        core: core_of(rt, alloc, setup.workers, &split),
        turns_left: setup.turns,
        counts: [10, 20, 30, 40],
        chosen: Vec::new(alloc),
        plans,
        lists: closed_lists(rt, alloc, plans.len()),
        stuck: false,
    }
}

/// A run as it was played.
#[derive(Drop)]
pub struct Played {
    pub players: Vec<Player>,
    /// The phase in which it ended, if it did.
    pub phases: Option<u32>,
    /// The choices of hot pages.
    pub chosen: Vec<Chosen>,
    stuck: bool,
}

impl Played {
    /// Whether it was played to its end, with memory for all of it and no event that the core refuses.
    pub fn is_whole(&self) -> bool {
        for player in &self.players {
            if player.stuck {
                return false;
            }
        }
        !self.stuck && self.phases.is_some()
    }
}

/// Plays a script, and then rounds, with four pages of 10, 20, 30 and 40 likes, these of them split.
pub fn play(
    rt: &impl Abort,
    alloc: Global,
    setup: &Setup,
    split: [bool; 4],
    plans: &[Vec<Request>],
    script: &[Turned],
) -> Played
    requires some { 1 ≤ setup.now.workers }
    requires few { setup.now.workers ≤ 16 }
{
    let mut shared = shared_of(rt, alloc, setup, split, plans);
    let mut players = players_of(rt, alloc, setup.workers, shared.submitters);
    follow(&mut shared, &mut players, script);
    let phases = rounds(&mut shared, &mut players);
    Played {
        players,
        phases,
        chosen: shared.chosen,
        stuck: shared.stuck,
    }
}
