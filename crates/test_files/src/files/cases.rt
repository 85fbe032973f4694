//! Files as data, each with what it is read as.
use Kind::{Pages, Requests, Script};

/// What kind of file it is.
#[derive(Clone, Copy)]
pub enum Kind {
    Pages,
    Requests,
    Script,
}

/// A file, and what it is read as.
pub type Case = (Kind, &'static [u8], &'static str);

/// Whole pages files, a line for each: the file, with `/` for LF, `~` for CR and `?` for a byte that is no text, and what
/// it is read as. Limits are among them: a count of 10^18, a name of 64 bytes. A test that takes the cases from here has
/// none of them in its proof.
pub fn pages_files() -> &'static str {
    PAGES_FILES
}

const PAGES_FILES: &str = "\
name,count,split~/\"x,\"\"y\"\"\",0,no~/b,0001000000000000000,yes|[x,\"y\" 0 false][b 1000000000000000 true]
|Err(Header)
name,count/|Err(Header)
name,count,split/|Err(Empty)
name,count,split/a,1,no/a,2,no/|Err(Duplicate { row: 2 })
name,count,split/a,+1,no/|Err(Count { row: 1 })
name,count,split/a,1/|Err(Fields { row: 1 })
name,count,split/a,1,maybe/|Err(Split { row: 1 })
name,count,split/,1,no/|Err(Name { row: 1 })
name,count,split/?,1,no/|Err(Name { row: 1 })
name,count,split/a,1000000000000000000,no/|[a 1000000000000000000 false]
name,count,split/a,1000000000000000001,no/|Err(Count { row: 1 })
name,count,split/0123456789abcdef0123456789abcdef0123456789abcdef0123456789abcdef,0,no/|\
[0123456789abcdef0123456789abcdef0123456789abcdef0123456789abcdef 0 false]
name,count,split/0123456789abcdef0123456789abcdef0123456789abcdef0123456789abcdefg,0,no/|Err(Name { row: 1 })";

/// Whole request files. The greatest user is among them.
pub fn request_files() -> &'static str {
    REQUEST_FILES
}

const REQUEST_FILES: &str = "\
|Err(Header)
op,user,page/|Ok([])
op,user,page/like,0,a/\"look\",0004294967,zz/|\
Ok([Request { op: Like, user: 0, page: Known(0) }, Request { op: Look, user: 4294967, page: Unknown }])
op,user,page/like,0,a/like,0/|Err(Fields { row: 2 })
op,user,page/push,0,a/|Err(Op { row: 1 })
op,user,page/like,-1,a/|Err(User { row: 1 })
op,user,page/like,4294967295,a/|Ok([Request { op: Like, user: 4294967295, page: Known(0) }])
op,user,page/like,4294967296,a/|Err(User { row: 1 })
op,user,page/like,0,?/|Ok([Request { op: Like, user: 0, page: Unknown }])";

/// Whole scripts.
pub fn scripts() -> &'static str {
    SCRIPTS
}

const SCRIPTS: &str = "\
|Err(Line { row: 0 })
turn,index/|Ok([])
turn,index~/open,0~/worker,0004294967/coordinator,0//open,4294967295|\
Ok([OpenOne(0), Worker(4294967), Coordinator, OpenOne(4294967295)])
turn,place/open,0/|Err(Line { row: 0 })
turn/|Err(Line { row: 0 })
turn,index/worker,0/fly,1/|Err(Line { row: 2 })
turn,index/open/|Err(Line { row: 1 })
turn,index/open,0,0/|Err(Line { row: 1 })
turn,index/open,0/worker,0/worker,-1/|Err(Line { row: 3 })
turn,index/open,4294967296/|Err(Line { row: 1 })
turn,index/open,/|Err(Line { row: 1 })
turn,index/coordinator,1/|Err(Line { row: 1 })
turn,index/coordinator,00/|Err(Line { row: 1 })";

/// Files that end after 0, 1, 2 .. bytes. Each answer that differs from the one before has its number before it.
pub fn prefixes() -> &'static [Case] {
    PREFIXES
}

const PREFIXES: &[Case] = &[
    (
        Pages,
        b"name,count,split\na,10,yes\n",
        "0: Err(Header) 16: Err(Empty) 18: Err(Fields { row: 1 }) 22: Err(Split { row: 1 }) 25: [a 10 true]",
    ),
    (
        Requests,
        b"op,user,page\nlike,0,a\n",
        "0: Err(Header) 12: Ok([]) 14: Err(Fields { row: 1 }) 20: Ok([Request { op: Like, user: 0, page: Unknown }]) \
         21: Ok([Request { op: Like, user: 0, page: Known(0) }])",
    ),
    (
        Script,
        b"turn,index\nworker,0\nfly,1\n",
        "0: Err(Line { row: 0 }) 10: Ok([]) 12: Err(Line { row: 1 }) 19: Ok([Worker(0)]) 21: Err(Line { row: 2 })",
    ),
];

/// Files that fail after 0, 1, 2 .. reads.
pub fn reads() -> &'static [Case] {
    READS
}

const READS: &[Case] = &[
    (
        Pages,
        b"name,count,split\r\n\"x,\"\"y\"\"\",0,no\r\n",
        "0: Err(Read) 35: [x,\"y\" 0 false]",
    ),
    (
        Requests,
        b"op,user,page\r\nlike,0,\"x,\"\"y\"\"\"\r\n",
        "0: Err(Read) 33: Ok([Request { op: Like, user: 0, page: Unknown }])",
    ),
    (
        Script,
        b"turn,index\nworker,0\nfly,1\n",
        "0: Err(Read) 26: Err(Line { row: 2 })",
    ),
];

/// Files with one byte changed.
pub fn changed() -> &'static [Case] {
    CHANGED
}

const CHANGED: &[Case] = &[
    (Pages, b"name,count,split\n\"a\",10,yes\n", "[a 10 true]"),
    (
        Requests,
        b"op,user,page\nlike,0,\"a\"\n",
        "Ok([Request { op: Like, user: 0, page: Known(0) }])",
    ),
    (
        Script,
        b"turn,index\nworker,0\nopen,1\n",
        "Ok([Worker(0), OpenOne(1)])",
    ),
];

/// Files that are read where memory may run out.
pub fn good() -> &'static [Case] {
    GOOD
}

const GOOD: &[Case] = &[
    (
        Pages,
        b"name,count,split\na,10,yes\nb,7,no\n",
        "[a 10 true][b 7 false]",
    ),
    (
        Requests,
        b"op,user,page\nlike,0,a\n",
        "Ok([Request { op: Like, user: 0, page: Known(0) }])",
    ),
    (Script, b"turn,index\nworker,1\n", "Ok([Worker(1)])"),
];
