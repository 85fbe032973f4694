//! The last likes that a service tells at its end, and another service that goes on from them and from its counts.
use crate::scenes::{ends_of_three, ends_the_first, goes_on};
use crate::services::{Numbers, PLAIN, plays_with};
use like_live::NO_PAGE;
use std::test::Fail;

// Users 0 to 2 of two seats, and no page is marked.
const OF_THREE: Numbers = Numbers {
    marks: &[],
    users: 3,
    ..PLAIN
};

// A test that takes them from here has none of them in its proof.
fn of_three() -> &'static Numbers {
    &OF_THREE
}

// What it ends with: user 0 has liked pages 1 and 0, and user 2 page 1.
const GOING_ON: Numbers = Numbers {
    counts: &[11, 22],
    lasts: &[0, NO_PAGE, 1],
    ..OF_THREE
};

fn going_on() -> &'static Numbers {
    &GOING_ON
}

#[test]
fn live_again(rt: HostRuntime) -> Result<(), Fail> {
    plays_with(&rt, rt.alloc(), of_three(), ends_of_three())?;
    plays_with(&rt, rt.alloc(), going_on(), goes_on())
}

#[test]
fn ends_in_any_case(rt: HostRuntime) -> Result<(), Fail> {
    plays_with(&rt, rt.alloc(), of_three(), ends_the_first())
}
