//! Pages, requests, their verdicts, the settings of a run, the script of a replay, and the gate at which a run is watched.
#![tactic(auto)]

mod entries;
mod gate;
mod pages;
mod pages_file;
mod request;
mod requests_file;
mod script;
mod script_file;
mod setup;
mod verdict;

pub use gate::{Gate, NoGate};
pub use pages::{MAX_COUNT, MAX_NAME, MAX_PAGES, Pages};
pub use pages_file::{PagesFault, read_pages};
pub use request::{Numbered, Op, PageRef, Request, Taken};
pub use requests_file::{MAX_USER, RequestsFault, read_requests};
pub use script::{Turned, check_script};
pub use script_file::{MAX_ENTRIES, MAX_INDEX, ScriptFault, read_script};
pub use setup::{
    MAX_HOT, MAX_REQUESTS, MAX_STASH, MAX_SUBMITTERS, MAX_TURNS, MAX_USERS, MAX_WORKERS,
    SettingsFault, Setup, check_setup, is_hot_limit,
};
pub use verdict::{Verdict, judge, judge_user};
