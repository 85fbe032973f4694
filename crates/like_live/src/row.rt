ghost use Rattle.std.specs.Prelude.{◌≡◌, Result};
ghost use Rattle.like_live.specs.declared.call.Answer.{Answer};
ghost use Rattle.like_live.specs.declared.call.Call.{Call};

use crate::call::{Answer, Call};

/// A row of a batch: it asks for a call, and the answer is written as its host wants it. In Rattle a row is a `Call`; C
/// has rows of its own.
pub trait Row {
    /// What is written of an answer.
    type Told: Copy;

    /// The call that a row asks for. One that asks for no call has what it is told.
    ghost asks: { Self → Result Call Self.Told };

    /// What is written of an answer.
    ghost tells: { Answer → Self.Told };

    /// The call that it asks for, or what it is told if it asks for none.
    fn call(&self) -> Result<Call, Self::Told>
        ensures { result ≡ asks self.now };

    /// What is written of an answer.
    fn tell(answer: Answer) -> Self::Told
        ensures { result ≡ tells answer };
}

impl Row for Call {
    ghost use Rattle.std.specs.Prelude.{Ok};

    type Told = Answer;

    ghost asks = { λ call. Ok call };

    ghost tells = { λ answer. answer };

    #[inline(always)]
    fn call(&self) -> Result<Call, Answer> {
        Ok(*self)
    }

    #[inline(always)]
    fn tell(answer: Answer) -> Answer {
        answer
    }
}
