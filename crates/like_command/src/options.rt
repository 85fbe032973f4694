/// What the command line asks of a run.
#[derive(Debug, Drop)]
pub struct Options {
    pub workers: u32,
    pub users: u32,
    pub stash: u32,
    pub turns: u32,
    /// How many likes make a page hot, where the coordinator is to choose hot pages.
    pub hot: Option<u32>,
    /// Whether the report's places are written after it.
    pub places: bool,
    /// Whether the report has no rows of replies.
    pub totals: bool,
    /// Whether a summary of the report is written on standard error.
    pub summary: bool,
    /// Whether long work writes a line on standard error after each part.
    pub progress: bool,
    /// The name of the pages file.
    pub pages: String,
    /// The names of the request files, by submitter.
    pub requests: Vec<String>,
    /// The name of the script file.
    pub script: Option<String>,
}
