ghost use Rattle.std.specs.Prelude.{◌≡◌, ◌≤◌, true};
ghost use Rattle.like_requests.specs.Verdict.{is_known, verdict_of};

use crate::request::{PageRef, Request};

/// Whether a request is accepted, and else the first test that it fails.
#[derive(Clone, Copy, Debug, PartialEq, Eq)]
pub enum Verdict {
    Accepted,
    /// The user's number is not below the number of users.
    UnknownUser,
    /// The user's home is another submitter, or in a service another seat.
    OtherHome,
    /// There is no such page.
    UnknownPage,
}

/// Judges a user who asks `submitter`, one of `submitters`, where `users` users are served.
#[inline(always)]
pub fn judge_user(user: u32, submitter: u32, submitters: u32, users: u32) -> Verdict
    requires { 1 ≤ submitters }
    ensures { result ≡ verdict_of users submitters submitter user true }
{
    if user >= users {
        return Verdict::UnknownUser;
    }
    if user % submitters != submitter {
        return Verdict::OtherHome;
    }
    Verdict::Accepted
}

/// Judges a request of `submitter`, one of `submitters`, where `users` users are served.
pub fn judge(request: &Request, submitter: u32, submitters: u32, users: u32) -> Verdict
    requires { 1 ≤ submitters }
    ensures { result
        ≡ verdict_of users submitters submitter request.now.user (is_known request.now.page) }
{
    match judge_user(request.user, submitter, submitters, users) {
        Verdict::Accepted if request.page == PageRef::Unknown => Verdict::UnknownPage,
        verdict => verdict,
    }
}
