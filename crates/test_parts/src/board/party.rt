//! The coordinator of a board of one page and one or two workers, who make calls in turn.
ghost use Rattle.std.specs.Prelude.{◌≡◌, Some};
ghost use Rattle.like_board.specs.Seats.{board_id, coord_board};
ghost use Rattle.test_parts.specs.Walk.{IsWorkerAt, KeepsSeat};

use super::calls::Step;
use super::leader::Leader;
use super::walker::Walker;
use crate::asserts::assert_part;
use like_board::Board;
use like_core::{Glances, Post};
use std::process::Abort;

#[derive(Drop)]
pub struct Party<'a, P: Post> {
    pub board: &'a Board,
    pub leader: Leader,
    pub first: Walker<P>,
    pub second: Option<Walker<P>>,
    ghost here: { coord_board leader.seat ≡ board_id board.now },
    ghost first_here: { IsWorkerAt (coord_board leader.seat) 0 (P.board first.post) (P.view first.post) },
    ghost second_here: { (walker : _) → second ≡ Some walker
        → IsWorkerAt (coord_board leader.seat) 1 (P.board walker.post) (P.view walker.post) },
}

impl<P: Glances> Party<'_, P> {
    /// Makes the calls of all parts, and asserts that each is answered as it says.
    pub fn plays(&mut self, rt: &impl Abort, parts: &[&[Step]])
        ensures { KeepsSeat self.old.leader.seat self.new.leader.seat }
    {
        for part in 0..parts.len() {
            self.makes(rt, part, parts[part]);
        }
    }

    fn makes(&mut self, rt: &impl Abort, part: usize, steps: &[Step])
        ensures { KeepsSeat self.old.leader.seat self.new.leader.seat }
    {
        for at in 0..steps.len() {
            self.makes_one(rt, part, at, steps[at]);
        }
    }

    // Makes the call of a step, and asserts that it is answered as it says.
    fn makes_one(&mut self, rt: &impl Abort, part: usize, at: usize, step: Step)
        ensures { KeepsSeat self.old.leader.seat self.new.leader.seat }
    {
        match step {
            Step::Coord(call) => {
                let made = self.leader.makes(self.board, call);
                assert_part(rt, "the coordinator", part, at, made, Some(call));
            }
            Step::First(call) => {
                let made = self.first.makes(call);
                assert_part(rt, "the first worker", part, at, made, Some(call));
            }
            Step::Second(call) => {
                let made = match &mut self.second {
                    Some(second) => second.makes(call),
                    None => None,
                };
                assert_part(rt, "the second worker", part, at, made, Some(call));
            }
        }
    }
}
