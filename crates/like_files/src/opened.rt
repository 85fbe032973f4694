ghost use Rattle.std.specs.Prelude.{◌≡◌, ℕ, MatchResult, length, map, string_bytes};
ghost use Rattle.like_files.specs.Faults.{submitter_at};
ghost use Rattle.like_files.specs.Opened.{AreNamed, IsUnopened, StopsAt, opened_as, stopped_by};
ghost use Rattle.like_files.specs.Tries.{Tries};
ghost use Rattle.like_files.specs.declared.fault.DriverFault.TheVariants as driver;

use crate::fault::DriverFault;
use crate::opener::Opener;
use like_command::Options;
use like_requests::{PagesFault, RequestsFault};
use like_run::ScriptFault;
use std::alloc::Global;

/// The files of a run or a replay, opened and not yet read.
#[derive(Drop)]
pub struct Opened<R> {
    pub pages: R,
    pub requests: Vec<R>,
    pub script: Option<R>,
}

/// Opens the pages file, the request files in their order and the script file. It stops at the first that can't be
/// opened, with the `Read` fault of that file, and tries none after it.
pub fn open_files<O: Opener>(
    opener: &mut O,
    alloc: Global,
    options: &Options,
) -> Result<Opened<O::Reader>, DriverFault>
    ensures { MatchResult result (AreNamed (O.tries opener.old) (O.tries opener.new) options.now)
        (IsUnopened (O.tries opener.old) (O.tries opener.new) options.now) }
{
    let Some(pages) = opener.open(options.pages.as_str()) else {
        return Err(DriverFault::Pages(PagesFault::Read));
    };
    let requests = open_requests(opener, alloc, &options.requests)?;
    let Some(name) = &options.script else {
        return Ok(Opened {
            pages,
            requests,
            script: None,
        });
    };
    let Some(script) = opener.open(name.as_str()) else {
        return Err(DriverFault::Script(ScriptFault::Read));
    };
    Ok(Opened {
        pages,
        requests,
        script: Some(script),
    })
}

// Opens the request files in their order. If there is no memory for one more, the fault is its `Memory`.
fn open_requests<O: Opener>(
    opener: &mut O,
    alloc: Global,
    names: &[String],
) -> Result<Vec<O::Reader>, DriverFault>
    ensures { let texts = map string_bytes names.now in MatchResult result
        (λ readers. (length readers.items ≡ length texts)
        × Tries (O.tries opener.old) (O.tries opener.new) (opened_as texts readers.items))
        (λ fault. (place : ℕ) × (last : _) × (fault ≡ driver.Requests (submitter_at place) (stopped_by last))
        × StopsAt (O.tries opener.old) (O.tries opener.new) texts place last) }
{
    let mut opened = Vec::new(alloc);
    for (place, name) in names.iter().enumerate() {
        let Some(file) = opener.open(name.as_str()) else {
            return Err(DriverFault::of_requests(place, RequestsFault::Read));
        };
        if opened.push(file).is_err() {
            return Err(DriverFault::of_requests(place, RequestsFault::Memory));
        }
    }
    Ok(opened)
}
