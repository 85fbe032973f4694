ghost use Rattle.std.specs.Prelude.{◌≡◌, ◌<◌, ◌^◌, ℕ, List, IfOk, Some, codes, map, option_map, string_bytes};
ghost use Rattle.clap.specs.Words.{Row, Text, all_of, first_of, found_of, rows_of, subcommand_rows_of};
ghost use Rattle.like_command.specs.Asked.{MeansAsked, HasAll, HasFlag, HasNumber, HasValues, IsEntered, IsFlag, IsNumber, MayHaveNumber};

use crate::asked::Asked;
use crate::options::Options;
use clap::ArgMatches;
use std::alloc::{AllocError, Global};

/// What the matched subcommand asks for.
pub fn matched(alloc: Global, matches: &ArgMatches<'_>) -> Result<Asked, AllocError>
    requires { (rows : List Row) × IsEntered (subcommand_rows_of matches.now) rows × HasAll rows }
    ensures { IfOk result (MeansAsked (subcommand_rows_of matches.now)) }
{
    if let Some(run) = matches.subcommand_matches("run") {
        return Ok(Asked::Run(options(alloc, run, None)?));
    }
    match matches.subcommand_matches("replay") {
        Some(replay) => {
            let script = script_file(alloc, replay)?;
            Ok(Asked::Replay(options(alloc, replay, script)?))
        }
        None => unreachable!(),
    }
}

// The options that matches give, with this script.
fn options(
    alloc: Global,
    matches: &ArgMatches<'_>,
    script: Option<String>,
) -> Result<Options, AllocError>
    requires { HasAll (rows_of (found_of matches.now)) }
    ensures values { IfOk result (HasValues (rows_of (found_of matches.now))) }
    ensures script { IfOk result (λ options. options.script ≡ script) }
{
    let workers = number(matches, "workers");
    let users = number(matches, "users");
    let stash = number(matches, "stash");
    let turns = number(matches, "turns");
    let hot = optional_number(matches, "hot");
    let places = flag(matches, "places");
    let totals = flag(matches, "totals");
    let summary = flag(matches, "summary");
    let progress = flag(matches, "progress");
    let pages = pages_file(alloc, matches)?;
    let requests = request_files(alloc, matches)?;
    Ok(Options {
        workers,
        users,
        stash,
        turns,
        hot,
        places,
        totals,
        summary,
        progress,
        pages,
        requests,
        script,
    })
}

// The number that an option has.
fn number(matches: &ArgMatches<'_>, id: &str) -> u32
    requires { (least most : ℕ)
        × HasNumber (rows_of (found_of matches.now)) id.now least most × (most < 2 ^ 32) }
    ensures { let rows = rows_of (found_of matches.now) in (least most : ℕ) → most < 2 ^ 32
        → HasNumber rows id.now least most → IsNumber rows id.now least most (Some result) }
{
    match matches.get_one::<u32>(id) {
        Some(number) => number,
        None => unreachable!(),
    }
}

// The number that an option has, if it has one.
fn optional_number(matches: &ArgMatches<'_>, id: &str) -> Option<u32>
    ensures { let rows = rows_of (found_of matches.now) in (least most : ℕ) → most < 2 ^ 32
        → MayHaveNumber rows id.now least most → IsNumber rows id.now least most result }
{
    matches.get_one::<u32>(id)
}

// Whether a flag was given.
fn flag(matches: &ArgMatches<'_>, id: &str) -> bool
    requires { HasFlag (rows_of (found_of matches.now)) id.now }
    ensures { IsFlag (rows_of (found_of matches.now)) id.now result }
{
    matches.get_flag(id)
}

// The name of the pages file.
fn pages_file(alloc: Global, matches: &ArgMatches<'_>) -> Result<String, AllocError>
    requires { (name : Text)
        × (first_of (codes "pages") (rows_of (found_of matches.now)) ≡ Some name) }
    ensures { let found = first_of (codes "pages") (rows_of (found_of matches.now)) in
        IfOk result (λ name. found ≡ Some (string_bytes name)) }
{
    match matches.get_str("pages") {
        Some(name) => String::from_str(alloc, name),
        None => unreachable!(),
    }
}

// The names of the request files.
fn request_files(alloc: Global, matches: &ArgMatches<'_>) -> Result<Vec<String>, AllocError>
    requires { (names : List Text)
        × (all_of (codes "requests") (rows_of (found_of matches.now)) ≡ Some names) }
    ensures { let found = all_of (codes "requests") (rows_of (found_of matches.now)) in
        IfOk result (λ files. found ≡ Some (map string_bytes files.items)) }
{
    match matches.get_strs("requests") {
        Some(names) => texts(alloc, names),
        None => unreachable!(),
    }
}

// A copy of each text.
fn texts(alloc: Global, texts: &[&str]) -> Result<Vec<String>, AllocError>
    ensures { IfOk result (λ copies.
        map string_bytes copies.items ≡ map (λ text. text.now) texts.now) }
{
    let mut copies = Vec::with_capacity(alloc, texts.len())?;
    for text in texts {
        copies.push(String::from_str(alloc, text)?)?;
    }
    Ok(copies)
}

// The name of the script file, where there is one.
fn script_file(alloc: Global, matches: &ArgMatches<'_>) -> Result<Option<String>, AllocError>
    ensures { let found = first_of (codes "script") (rows_of (found_of matches.now)) in
        IfOk result (λ name. found ≡ option_map string_bytes name) }
{
    match matches.get_str("script") {
        Some(name) => Ok(Some(String::from_str(alloc, name)?)),
        None => Ok(None),
    }
}
