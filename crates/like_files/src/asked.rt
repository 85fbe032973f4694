ghost use Rattle.std.specs.Prelude.{◌≡◌};
ghost use Rattle.like_files.specs.Inputs.{extent_of, setup_of};

use like_command::Options;
use like_replies::Extent;
use like_requests::{Pages, Setup};

/// The settings that options ask for with these pages.
pub fn with_pages(options: &Options, pages: Pages) -> Setup
    ensures { result ≡ setup_of options.now pages }
{
    Setup {
        workers: options.workers,
        users: options.users,
        stash: options.stash,
        turns: options.turns,
        hot: options.hot,
        pages,
    }
}

/// How much of a report the options ask for.
pub fn extent_of(options: &Options) -> Extent
    ensures { result ≡ extent_of options.now }
{
    Extent {
        totals: options.totals,
        places: options.places,
    }
}
