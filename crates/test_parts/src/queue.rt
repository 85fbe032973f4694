mod lines;
mod lists;

use like_requests::{Op, PageRef, Request};

// A request like any other.
const LIKE: Request = Request {
    op: Op::Like,
    user: 0,
    page: PageRef::Known(0),
};
