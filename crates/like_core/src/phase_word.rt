ghost use Rattle.std.specs.Prelude.{◌≡◌, ◌↔◌, IsSome, IfSome, IsSomeAnd};
ghost use Rattle.like_core.specs.word.Word.{word_fields, packed, IsLawful};

mod kind;

pub use kind::Kind;

/// The number of the last phase.
pub const LAST_PHASE: u32 = 16_777_214;

/// The most workers of a board.
const MAX_WORKERS: u32 = like_limits::MAX_WORKERS;

// Where each field begins in the one number that holds all, from its lowest bit; the kind begins at bit 0.
pub(crate) const WORKERS_AT: u32 = 2;

pub(crate) const ANSWERED_AT: u32 = 8;

pub(crate) const RETIRED_AT: u32 = 24;

pub(crate) const NUMBER_AT: u32 = 40;

/// The phase word, unpacked. Bit `i` of `answered` says that worker `i` acknowledged or reported in this phase, bit
/// `i` of `retired` that it retired.
#[derive(Clone, Copy, PartialEq, Eq)]
pub struct PhaseWord {
    pub kind: Kind,
    /// How many workers there are, 1 to 16.
    pub workers: u32,
    pub answered: u16,
    pub retired: u16,
    /// The phase, at most `LAST_PHASE`.
    pub number: u32,
    ghost lawful: { IsLawful (word_fields kind workers answered retired number) },
}

impl PhaseWord {
    ghost use Rattle.like_core.specs.word.PhaseWord.{fields_of};

    /// The word with these fields, or `None` where they are not lawful.
    pub fn new(
        kind: Kind,
        workers: u32,
        answered: u16,
        retired: u16,
        number: u32,
    ) -> Option<PhaseWord>
        ensures lawful { IsSome result
            ↔ IsLawful (word_fields kind workers answered retired number) }
        ensures fields { IfSome result (λ p.
            fields_of p ≡ word_fields kind workers answered retired number) }
    {
        if workers < 1 || workers > MAX_WORKERS || number > LAST_PHASE {
            return None;
        }
        let full = 1u32 << workers;
        if u32::from(answered) >= full || u32::from(retired) >= full || answered & retired != 0 {
            return None;
        }
        if kind.is_split() != (number % 2 == 1) {
            return None;
        }
        if !kind.is_ending() && answered != 0 {
            return None;
        }
        if number == LAST_PHASE && kind.is_ending() {
            return None;
        }
        Some(PhaseWord {
            kind,
            workers,
            answered,
            retired,
            number,
        })
    }

    /// The one number that holds all fields.
    pub fn pack(self) -> u64
        ensures { result ≡ packed (fields_of self) }
    {
        u64::from(self.kind.code())
            + (u64::from(self.workers) << WORKERS_AT)
            + (u64::from(self.answered) << ANSWERED_AT)
            + (u64::from(self.retired) << RETIRED_AT)
            + (u64::from(self.number) << NUMBER_AT)
    }

    /// The word that packs to this number, or `None` where none does.
    pub fn unpack(word: u64) -> Option<PhaseWord>
        ensures packed { IfSome result (λ p. packed (fields_of p) ≡ word) }
        ensures found { (p : PhaseWord) → packed (fields_of p) ≡ word →
            IsSomeAnd result (λ q. fields_of q ≡ fields_of p) }
    {
        PhaseWord::new(
            Kind::from_code((word & 3) as u8),
            ((word >> WORKERS_AT) & 63) as u32,
            ((word >> ANSWERED_AT) & 0xffff) as u16,
            ((word >> RETIRED_AT) & 0xffff) as u16,
            (word >> NUMBER_AT) as u32,
        )
    }
}
