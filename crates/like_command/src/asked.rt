use crate::options::Options;

/// What the words of the command line ask for.
#[derive(Debug, Drop)]
pub enum Asked {
    /// A run on threads with these options, which name no script.
    Run(Options),
    /// A replay with these options.
    Replay(Options),
    /// Help, with its text.
    Help(String),
}
