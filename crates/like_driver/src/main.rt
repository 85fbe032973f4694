//! The like service's program.
#![tactic(auto)]

use like_command::ParseFault;
use like_program::{ProgramFault, serve_words, tell};
use std::alloc::Global;
use std::env;
use std::io::ErrorKind;
use std::process::ExitCode;

// The words after the program's name. Room for them is asked for once: `collect` would ask again, for less.
fn words(rt: &HostRuntime, alloc: Global) -> Result<Vec<String>, ParseFault> {
    match env::args(rt) {
        Ok(given) => {
            let mut words = Vec::with_capacity(alloc, given.len())?;
            words.extend(given.skip(1))?;
            Ok(words)
        }
        Err(error) if error.kind() == ErrorKind::InvalidData => {
            let text = String::from_str(alloc, "error: a word is not UTF-8\n")?;
            Err(ParseFault::Usage(text))
        }
        Err(_) => Err(ParseFault::Memory),
    }
}

fn main(rt: HostRuntime) -> ExitCode {
    let alloc = rt.alloc();
    let (mut out, mut errors) = (rt.stdout(), rt.stderr());
    let status = match words(&rt, alloc) {
        Ok(words) => serve_words(&rt, alloc, words.as_slice(), &mut out, &mut errors),
        Err(fault) => tell(&ProgramFault::Words(fault), &mut errors),
    };
    ExitCode::from(status)
}
