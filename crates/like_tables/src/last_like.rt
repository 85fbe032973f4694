ghost use Rattle.std.specs.Prelude.{◌≡◌, ◌<◌, None, Some};
ghost use Rattle.like_tables.specs.LastLike.{no_page, page_in, page_or_none};

use std::marker::Model;

/// No page has this number. Instead of a page's number, it says that there is none.
pub const NO_PAGE: u32 = u32::MAX;

/// The page of a user's last like, if there is one, in four bytes.
#[derive(Clone, Drop)]
pub(crate) struct LastLike {
    number: u32,
}

impl Model for LastLike {
    ghost use Rattle.std.specs.Prelude.{ℕ, Option};
    ghost use Rattle.like_tables.specs.LastLike.{page_in};

    ghost Value = { Option ℕ };

    ghost view = { λ l. page_in l.number };
}

impl LastLike {
    pub fn none() -> Self
        ensures { result ≡ None }
    {
        LastLike { number: NO_PAGE }
    }

    #[inline(always)]
    pub fn of(page: u32) -> Self
        requires { page < no_page }
        ensures { result ≡ Some page }
    {
        LastLike { number: page }
    }

    /// The page with this number, or none at `NO_PAGE`.
    pub fn numbered(number: u32) -> Self
        ensures { result ≡ page_in number }
    {
        LastLike { number }
    }

    /// The page's number, or `NO_PAGE`.
    pub fn number(&self) -> u32
        ensures { result ≡ page_or_none self.now }
    {
        self.number
    }

    #[inline(always)]
    pub fn page(&self) -> Option<u32>
        ensures { result ≡ self.now }
    {
        if self.number == NO_PAGE {
            None
        } else {
            Some(self.number)
        }
    }
}
