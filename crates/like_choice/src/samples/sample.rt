ghost use Rattle.std.specs.Prelude.{◌≡◌, ◌^◌, ◌<◌};
ghost use Rattle.like_choice.specs.Samples.{sample_word};

/// What kind of request a sample is of. A glance is none: it doesn't wait, whether its page is split or not.
#[derive(Clone, Copy, PartialEq, Eq, Debug)]
pub enum Kind {
    Like,
    Look,
}

/// The sequence numbers of a ring's samples go from 0 to below this, and then on from 0.
pub(crate) const SEQUENCES: u32 = 1 << 31;

/// One request of those that a seat ran.
#[derive(Clone, Copy)]
pub(crate) struct Sample {
    pub page: u32,
    pub kind: Kind,
    /// Its place among the samples that the seat stored.
    pub sequence: u32,
}

impl Sample {
    /// The sample as a word of a ring.
    pub fn word(self) -> u64
        requires { self.sequence < 2 ^ 31 }
        ensures { result ≡ sample_word self }
    {
        let kind = match self.kind {
            Kind::Like => 0,
            Kind::Look => 1,
        };
        u64::from(self.page) + (kind << 32) + (u64::from(self.sequence) << 33)
    }

    /// The sample that a word holds.
    pub fn of_word(word: u64) -> Sample
        ensures word { sample_word result ≡ word }
        ensures sequence { result.sequence < 2 ^ 31 }
    {
        Sample {
            page: (word & 0xffff_ffff) as u32,
            kind: if word >> 32 & 1 == 1 {
                Kind::Look
            } else {
                Kind::Like
            },
            sequence: (word >> 33) as u32,
        }
    }
}
