//! The line on refused requests.
use crate::files::assert_bytes;
use like_replies::{Notice, Summary};

const LINE: &[u8] =
    b"likes: refused 2948303 of 2968476 requests: 2948303 unknown-user, 0 other-home, 0 unknown-page\n";

// A test that takes it from here has none of its text in its proof.
fn line() -> &'static [u8] {
    LINE
}

#[test]
fn refused_requests(rt: HostRuntime) {
    let summary = Summary {
        requests: 2_968_476,
        refused: 2_948_303,
        liked: 20_173,
        seen: 0,
        unknown_user: 2_948_303,
        other_home: 0,
        unknown_page: 0,
        phases: 1,
        hot_phases: 0,
        hot_pages: 0,
    };
    let mut out = Vec::new(rt.alloc());
    Notice::Refused(summary)
        .write(&mut out)
        .expect(&rt, "memory");
    assert_bytes(&rt, out, line());
}
