use super::best::Candidate;
use super::entry::Entry;
use super::table::Table;

/// The least number of likes between two choices that make a page popular: two samples.
const LEAST: u32 = 512;

/// A page gets a slot with three samples or more.
const SEEN: u32 = 3 * 256;

/// The samples of the service's share of likes and looks that count with each page's own, in points.
const SHARE: u32 = 16 * 256;

/// Judges at one choice which pages are popular enough for a slot.
#[derive(Clone, Copy)]
pub(crate) struct Judge {
    /// The likes from which on a page gets a slot.
    enters: u32,
    /// The likes below which one loses its slot.
    stays: u32,
    /// The likes and the looks of a page with no samples, from the service's share of them.
    likes: u32,
    looks: u32,
}

impl Judge {
    /// For pages that are popular from `hot` likes between two choices on.
    pub fn new(hot: u32, table: &Table) -> Judge {
        let popular = hot.max(LEAST);
        let all = u64::from(table.likes) + u64::from(table.looks);
        let looks = if all == 0 {
            0
        } else {
            (u64::from(SHARE) * u64::from(table.looks) / all) as u32
        };
        Judge {
            enters: popular.saturating_add(popular / 2),
            stays: popular / 2,
            likes: SHARE - looks,
            looks,
        }
    }

    /// The page as a candidate, if it is one: it has likes enough, and no more looks than likes. A page that has a slot
    /// stays one with a third of the likes, and with twice as many looks as likes; its score is half higher.
    pub fn candidate(&self, entry: &Entry) -> Option<Candidate> {
        let likes = u64::from(entry.likes) + u64::from(self.likes);
        let looks = u64::from(entry.looks) + u64::from(self.looks);
        if entry.is_in {
            if entry.likes < self.stays || looks > 2 * likes {
                return None;
            }
            return Some(Candidate {
                page: entry.page,
                score: entry.likes.saturating_add(entry.likes / 2),
            });
        }
        if entry.likes < self.enters || entry.seen < SEEN || looks > likes {
            return None;
        }
        Some(Candidate {
            page: entry.page,
            score: entry.likes,
        })
    }
}
