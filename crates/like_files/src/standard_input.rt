//! The name that means standard input.
ghost use Rattle.std.specs.Prelude.{◌≡◌};
ghost use Rattle.like_files.specs.StandardInput.{is_input, names_of, names_twice};

use like_command::Options;

/// Whether a name means standard input.
pub(crate) fn is_input(name: &str) -> bool
    ensures { result ≡ is_input name.now }
{
    name == "-"
}

/// Whether options name standard input for more than one file.
pub fn names_input_twice(options: &Options) -> bool
    ensures { result ≡ names_twice (names_of options.now) }
{
    let mut is_named = is_input(&options.pages);
    let mut is_twice = false;
    for name in &options.requests {
        let names_it = is_input(name);
        is_twice |= is_named & names_it;
        is_named |= names_it;
    }
    match &options.script {
        Some(name) => is_twice | (is_named & is_input(name)),
        None => is_twice,
    }
}
