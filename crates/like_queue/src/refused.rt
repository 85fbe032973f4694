use like_requests::Request;

/// Why a request was not pushed. The request comes back.
#[derive(Clone, Copy, PartialEq, Eq)]
pub enum PushRefused {
    /// The queue was full at some moment of the call.
    Full(Request),
    /// The end mark was pushed before.
    Ended(Request),
}

/// Why the end mark was not pushed.
#[derive(Clone, Copy, PartialEq, Eq)]
pub enum EndRefused {
    /// The queue was full at some moment of the call.
    Full,
    /// The end mark was pushed before.
    Ended,
}
