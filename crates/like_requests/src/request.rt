/// What a request asks for: the two transactions of the LIKE workload (OSDI 2014).
#[derive(Clone, Copy, Debug, PartialEq, Eq)]
pub enum Op {
    /// The update: records the user's like of the page and adds one to the page's count.
    Like,
    /// The read: the user's last like and the page's count.
    Look,
}

/// The page of a request: its number in the pages file, from 0, or a page that doesn't exist.
#[derive(Clone, Copy, Debug, PartialEq, Eq)]
pub enum PageRef {
    Known(u32),
    Unknown,
}

/// One request of a submitter.
#[derive(Clone, Copy, Debug, PartialEq, Eq)]
pub struct Request {
    pub op: Op,
    pub user: u32,
    pub page: PageRef,
}

/// A request with its number among its submitter's, from 1.
#[derive(Clone, Copy, PartialEq, Eq)]
pub struct Numbered {
    pub number: u32,
    pub request: Request,
}

/// What a worker takes from a submitter's inbox.
#[derive(Clone, Copy, PartialEq, Eq)]
pub enum Taken {
    /// The next request.
    Ask(Numbered),
    /// The end mark, which comes after the last request.
    End,
    /// Nothing was there to be taken.
    Nothing,
}
