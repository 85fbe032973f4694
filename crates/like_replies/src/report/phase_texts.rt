ghost use Rattle.std.specs.Prelude.{◌≡◌, ◌≤◌, ◌++◌, List, codes, length};
ghost use Rattle.like_requests.specs.Pages.{Page};
ghost use Rattle.like_promises.specs.declared.reply.Reply.TheVariants.{Liked};
ghost use Rattle.like_replies.specs.RowParts.{phase_text, shown_text};

use crate::report::label::Label;
use std::marker::Model;

/// What the rows of the answers of a phase have after their number: the phase alone, with the end of a like's row, and
/// with the word of a look.
#[derive(Drop)]
pub struct PhaseTexts {
    phase: u32,
    start: Label,
    liked: Label,
    seen: Label,
}

impl Model for PhaseTexts {
    ghost use Rattle.std.specs.Prelude.{◌≡◌, ◌++◌, ℕ, codes};
    ghost use Rattle.like_replies.specs.RowParts.{phase_text};

    ghost Value = { ℕ };

    ghost view = { λ t. t.phase };

    ghost invariant = { λ t. (t.start ≡ phase_text t.phase)
        × (t.liked ≡ phase_text t.phase ++ codes ",liked,,\n")
        × (t.seen ≡ phase_text t.phase ++ codes ",seen,") };
}

// A phase as the fourth field of a row, and what comes after it.
fn phase_and(phase: u32, rest: &[u8]) -> Label
    requires { length rest.now ≤ 20 }
    ensures { result ≡ phase_text phase ++ rest.now }
{
    let mut text = Label::new();
    text.add(b",");
    text.add_number(u64::from(phase));
    text.add(rest);
    text
}

impl PhaseTexts {
    /// The texts of this phase.
    pub fn new(phase: u32) -> Self
        ensures { result ≡ phase }
    {
        PhaseTexts {
            phase,
            start: phase_and(phase, b""),
            liked: phase_and(phase, b",liked,,\n"),
            seen: phase_and(phase, b",seen,"),
        }
    }

    /// Goes to this phase, if it isn't there yet.
    pub fn go_to(&mut self, phase: u32)
        ensures { self.new ≡ phase }
    {
        if self.phase != phase {
            *self = PhaseTexts::new(phase);
        }
    }

    /// The phase.
    pub fn start(&self) -> &[u8]
        ensures { result.now ≡ phase_text self.now }
    {
        self.start.text()
    }

    /// The phase, and what a like shows.
    pub fn liked(&self) -> &[u8]
        ensures { (pages : List Page) → result.now ≡ phase_text self.now ++ shown_text pages Liked }
    {
        self.liked.text()
    }

    /// The phase, and the word of a look.
    pub fn seen(&self) -> &[u8]
        ensures { result.now ≡ phase_text self.now ++ codes ",seen," }
    {
        self.seen.text()
    }
}
