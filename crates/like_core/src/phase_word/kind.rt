ghost use Rattle.std.specs.Prelude.{◌≡◌, ◌/◌, ◌%◌, ◌↔◌, ◌<◌, IsTrue};
ghost use Rattle.like_core.specs.word.Kind.{code_of};

/// The kind of a phase: joined or split, and running or ending.
#[derive(Clone, Copy, PartialEq, Eq)]
pub enum Kind {
    JoinedRunning,
    JoinedEnding,
    SplitRunning,
    SplitEnding,
}

impl Kind {
    /// The kind's two bits in a phase word.
    pub fn code(self) -> u8
        ensures { result ≡ code_of self }
    {
        match self {
            Kind::JoinedRunning => 0,
            Kind::JoinedEnding => 1,
            Kind::SplitRunning => 2,
            Kind::SplitEnding => 3,
        }
    }

    /// The kind with these two bits.
    pub fn from_code(code: u8) -> Kind
        requires { code < 4 }
        ensures { code_of result ≡ code }
    {
        match code {
            0 => Kind::JoinedRunning,
            1 => Kind::JoinedEnding,
            2 => Kind::SplitRunning,
            _ => Kind::SplitEnding,
        }
    }

    /// Whether split pages have slices in such a phase.
    pub fn is_split(self) -> bool
        ensures { IsTrue result ↔ (code_of self / 2 ≡ 1) }
    {
        matches!(self, Kind::SplitRunning | Kind::SplitEnding)
    }

    /// Whether the end of the phase was announced.
    pub fn is_ending(self) -> bool
        ensures { IsTrue result ↔ (code_of self % 2 ≡ 1) }
    {
        matches!(self, Kind::JoinedEnding | Kind::SplitEnding)
    }
}
