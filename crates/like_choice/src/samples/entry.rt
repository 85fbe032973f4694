use super::sample::Kind;

/// What is known of a page, in points: a sample counts 256 and more of them, and each choice takes a sixteenth off.
#[derive(Clone, Copy)]
pub(crate) struct Entry {
    pub page: u32,
    /// The likes between two choices, with those before that fade away.
    pub likes: u32,
    /// The looks, likewise.
    pub looks: u32,
    /// The samples, each with 256 points.
    pub seen: u32,
    /// Whether the page has a slot.
    pub is_in: bool,
}

impl Entry {
    /// An entry of no page.
    pub fn empty() -> Entry {
        Entry {
            page: 0,
            likes: 0,
            looks: 0,
            seen: 0,
            is_in: false,
        }
    }

    /// Whether it is this page's.
    pub fn is_of(&self, page: u32) -> bool {
        self.page == page && self.seen > 0
    }

    /// Adds a sample of the page.
    pub fn add(&mut self, kind: Kind, points: u32) {
        match kind {
            Kind::Like => self.likes = self.likes.saturating_add(points),
            Kind::Look => self.looks = self.looks.saturating_add(points),
        }
        self.seen = self.seen.saturating_add(256);
    }

    /// Takes a sixteenth off. That the page has a slot is forgotten.
    pub fn fade(&mut self) {
        self.likes = faded(self.likes);
        self.looks = faded(self.looks);
        self.seen = faded(self.seen);
        self.is_in = false;
    }
}

/// The points less a sixteenth, rounded down.
pub(crate) fn faded(points: u32) -> u32 {
    points - points.div_ceil(16)
}
