ghost use Rattle.std.specs.Prelude.{◌≡◌, ◌^◌, ◌≤◌, length};
ghost use Rattle.like_tables.specs.Share.{share_of};
ghost use Rattle.like_tables.specs.SplitSlice.{no_slice};

mod calls;

use crate::asserts::{assert_named, assert_part, assert_same, assert_step};
use calls::{
    OnSlice, OnSplits, OnStash, OnUsers, held_of, of_a_million, of_five, slices, splits, stashes,
};
use like_requests::{Op, PageRef, Request, Verdict};
use like_tables::{Counts, Held, Slice, SplitPages, SplitSlice, Stash, Users, factor_for};
use std::alloc::{AllocError, Global};
use std::process::Abort;
use std::test::Fail;

// Makes a call of a table of split pages, and gives it with the answer that came. None if it may not be made.
fn made_of_splits(splits: &mut SplitPages, call: OnSplits) -> Option<OnSplits> {
    match call {
        OnSplits::Put(page) => {
            if splits.page_in(splits.bucket(page)).is_some() {
                return None;
            }
            splits.put(page);
            Some(call)
        }
        OnSplits::Has(page, _) => Some(OnSplits::Has(page, splits.has(page))),
        OnSplits::Bucket(page, _) => Some(OnSplits::Bucket(page, splits.bucket(page))),
        OnSplits::PageIn(place, _) => {
            if place >= 1_024 {
                return None;
            }
            Some(OnSplits::PageIn(place, splits.page_in(place)))
        }
        OnSplits::Next(from, _) => Some(OnSplits::Next(from, splits.next(from))),
        OnSplits::Clear => {
            splits.clear();
            Some(call)
        }
    }
}

// Makes the calls of a new table of split pages, and asserts their answers.
fn call_splits(
    rt: &impl Abort,
    alloc: Global,
    factor: u32,
    calls: &[OnSplits],
) -> Result<(), AllocError>
    requires { 2 ^ 22 ≤ factor }
{
    let mut splits = SplitPages::new(alloc, factor)?;
    for at in 0..calls.len() {
        let call = calls[at];
        let made = made_of_splits(&mut splits, call);
        assert_part(
            rt,
            "split pages by a factor",
            factor as usize,
            at,
            made,
            Some(call),
        );
    }
    Ok(())
}

#[test]
fn a_page_is_split_that_was_put(rt: HostRuntime) -> Result<(), Fail> {
    for (factor, calls) in splits() {
        assert_named(&rt, *factor >= 1 << 22, "a factor");
        call_splits(&rt, rt.alloc(), *factor, calls)?;
    }
    Ok(())
}

// The pages 0 and 610 share a bucket by the first factor.
#[test]
fn a_factor_parts_pages(rt: HostRuntime) {
    let first = factor_for(&[0, 1, 2]);
    assert_same(&rt, "the first factor", first, Some(2_654_435_769));
    let later = factor_for(&[0, 610]);
    assert_same(&rt, "a later factor", later, Some(2_656_076_303));
    assert_same(&rt, "no factor", factor_for(&[7, 7]), None);
}

// Makes a call of a slice of this many pages, and gives it with the answer that came. None if it may not be made.
fn made_of_slice(slice: &mut Slice, pages: u32, call: OnSlice) -> Option<OnSlice>
    requires { length slice.old ≡ pages }
    ensures { length slice.new ≡ pages }
{
    match call {
        OnSlice::Add(page) => {
            if page >= pages || slice.total() >= 64 {
                return None;
            }
            slice.add(page);
            Some(call)
        }
        OnSlice::Likes(page, _) if page < pages => Some(OnSlice::Likes(page, slice.likes(page))),
        OnSlice::Take(page, _) if page < pages => Some(OnSlice::Take(page, slice.take(page))),
        OnSlice::Next(from, _) if from <= pages => Some(OnSlice::Next(from, slice.next(from))),
        OnSlice::Total(_) => Some(OnSlice::Total(slice.total())),
        OnSlice::IsEmpty(_) => Some(OnSlice::IsEmpty(slice.is_empty())),
        _ => None,
    }
}

// Makes the calls of a slice of this many pages, and asserts their answers.
fn call_slice(rt: &impl Abort, slice: &mut Slice, pages: u32, calls: &[OnSlice])
    requires { length slice.old ≡ pages }
{
    for at in 0..calls.len() {
        let call = calls[at];
        let made = made_of_slice(slice, pages, call);
        assert_part(
            rt,
            "a slice by its pages",
            pages as usize,
            at,
            made,
            Some(call),
        );
    }
}

#[test]
fn a_slice_gives_what_was_added(rt: HostRuntime) -> Result<(), Fail> {
    for (pages, calls) in slices() {
        let mut slice = Slice::new(rt.alloc(), *pages)?;
        call_slice(&rt, &mut slice, *pages, calls);
        drop(slice);
    }
    Ok(())
}

// Two likes of page 64 come out of a slice in which no page is split.
fn gives_two_likes<C: Counts>(rt: &impl Abort, case: &str, slice: &mut SplitSlice<C>)
    requires { slice.old ≡ no_slice (2 ^ 22) 1_024 }
{
    slice.put(64);
    slice.add(64);
    slice.add(64);
    assert_named(rt, slice.has(64), "page 64 is split");
    assert_same(rt, case, slice.has(65), false);
    assert_same(rt, case, (slice.bucket(64), slice.likes(64)), (64, 2));
    assert_same(rt, case, (slice.next(64), slice.next(65)), (Some(64), None));
    assert_same(rt, case, (slice.take(64), slice.next(0)), (2, None));
}

#[test]
fn a_slice_of_split_pages_gives_what_was_added(rt: HostRuntime) -> Result<(), Fail> {
    let mut slice = SplitSlice::of_run(rt.alloc(), 1_024)?;
    gives_two_likes(&rt, "a run's", &mut slice);
    drop(slice);
    let mut slice = SplitSlice::of_service(rt.alloc(), 1 << 22)?;
    gives_two_likes(&rt, "a service's", &mut slice);
    drop(slice);
    Ok(())
}

// Pushes this many looks, and tells whether there is room for them.
fn fills(stash: &mut Stash<Held>, looks: u32) -> bool {
    for _ in 0..looks {
        if stash.is_full() {
            return false;
        }
        stash.push(held_of(0));
    }
    true
}

// Makes a call of a stash, and gives it with the answer that came. None if it may not be made, or if what comes out was
// not pushed so.
fn made_of_stash(stash: &mut Stash<Held>, call: OnStash) -> Option<OnStash> {
    match call {
        OnStash::Push(submitter) => {
            if stash.is_full() {
                return None;
            }
            stash.push(held_of(submitter));
            Some(call)
        }
        OnStash::Fill(looks) => {
            if fills(stash, looks) {
                Some(call)
            } else {
                None
            }
        }
        OnStash::Pop(_) => match stash.pop_front() {
            Some(held) if held != held_of(held.submitter) => None,
            Some(held) => Some(OnStash::Pop(Some(held.submitter))),
            None => Some(OnStash::Pop(None)),
        },
        OnStash::IsFull(_) => Some(OnStash::IsFull(stash.is_full())),
        OnStash::Len(_) => Some(OnStash::Len(stash.len())),
    }
}

// Makes the calls of a stash with room for this many looks, and asserts their answers.
fn call_stash(rt: &impl Abort, stash: &mut Stash<Held>, capacity: usize, calls: &[OnStash]) {
    for at in 0..calls.len() {
        let call = calls[at];
        let made = made_of_stash(stash, call);
        assert_part(rt, "a stash by its room", capacity, at, made, Some(call));
    }
}

#[test]
fn a_stash_gives_what_was_pushed(rt: HostRuntime) -> Result<(), Fail> {
    for (capacity, calls) in stashes() {
        assert!(rt; *capacity >= 1 && *capacity <= 4_096);
        let mut stash = Stash::new(rt.alloc(), *capacity)?;
        call_stash(&rt, &mut stash, *capacity as usize, calls);
        drop(stash);
    }
    Ok(())
}

// Makes a call of a table of users, and gives it with the answer that came. None if it may not be made.
fn made_of_users(users: &mut Users, call: OnUsers) -> Option<OnUsers>
    ensures { users.new.share ≡ users.old.share }
{
    match call {
        OnUsers::Owns(user, _) => Some(OnUsers::Owns(user, users.owns(user))),
        OnUsers::Last(user, _) => {
            if !users.owns(user) {
                return None;
            }
            Some(OnUsers::Last(user, users.last(user)))
        }
        OnUsers::Set(user, page) => {
            if !users.owns(user) || page >= 1_024 {
                return None;
            }
            users.set(user, page);
            Some(call)
        }
    }
}

// Makes the calls of a table of users, and asserts their answers.
fn call_users(rt: &impl Abort, users: &mut Users, calls: &[OnUsers])
    ensures { users.new.share ≡ users.old.share }
{
    for at in 0..calls.len() {
        let call = calls[at];
        let made = made_of_users(users, call);
        assert_step(rt, "users", at, made, Some(call));
    }
}

// The last likes of five users, of whom 1 and 3 are the worker's.
fn last_likes(users: &Users) -> [Option<u32>; 5]
    requires { users.now.share.users ≡ 5 }
{
    let mut last = [Some(9); 5];
    users.give_to(&mut last);
    last
}

// A table of five users is worker 1's, of two workers. It judges a request of user 3 for a page that is unknown.
fn is_worker_one(rt: &impl Abort, users: &Users)
    requires { users.now.share.users ≡ 5 }
{
    assert_same(rt, "the worker", users.worker(), 1);
    let last = [Some(9), None, Some(9), Some(7), Some(9)];
    assert_same(rt, "last likes", last_likes(users), last);
    let home = Request {
        op: Op::Like,
        user: 3,
        page: PageRef::Unknown,
    };
    let verdict = users.judge(1, &home);
    assert_same(rt, "an unknown page", verdict, Verdict::UnknownPage);
}

#[test]
fn users_are_those_of_the_worker(rt: HostRuntime) -> Result<(), Fail> {
    let mut users = Users::new(rt.alloc(), 5, 2, 2, 1)?;
    call_users(&rt, &mut users, of_five());
    is_worker_one(&rt, &users);
    assert_same(&rt, "its submitter", users.submitter_at(0), 1);
    drop(users);
    Ok(())
}

// The user and the rank that a seat finds, if it does.
fn found(users: &Users, user: u32) -> Option<(u32, u32)>
    requires { users.now.share ≡ share_of 23 6 6 4 }
{
    let home = users.home();
    let Some(ranked) = users.find(&home, user) else {
        return None;
    };
    Some((ranked.user, ranked.rank))
}

// Of 23 users at six seats, those of seat 4 are 4, 10, 16 and 22.
#[test]
fn a_user_is_found_at_its_home(rt: HostRuntime) -> Result<(), Fail> {
    let users = Users::new(rt.alloc(), 23, 6, 6, 4)?;
    assert_same(&rt, "user 16", found(&users, 16), Some((16, 2)));
    assert_same(&rt, "user 15", found(&users, 15), None);
    assert_same(&rt, "user 28", found(&users, 28), None);
    drop(users);
    Ok(())
}

// The most users, of the only worker.
#[test]
fn users_are_a_million(rt: HostRuntime) -> Result<(), Fail> {
    let mut users = Users::new(rt.alloc(), 1_000_000, 1, 1, 0)?;
    call_users(&rt, &mut users, of_a_million());
    drop(users);
    Ok(())
}
