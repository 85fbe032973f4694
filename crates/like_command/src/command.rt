ghost use Rattle.std.specs.List.{AllZip};
ghost use Rattle.std.specs.Prelude.{◌≡◌, ◌∷◌, ◌++◌, [], IfOk, List, OnOk, codes, drop, fold, true};
ghost use Rattle.clap.specs.Words.{Rule, app_of, new_app, with_rule};
ghost use Rattle.like_command.specs.Built.{IsArgument, IsCommand, IsSubcommand};
ghost use Rattle.like_command.specs.CommandLine.{bounded_rule, files_rules, flag_rule, likes_app, number_rule, number_rules, option_rules, replay_command, required_list_rule, required_rule, run_command, text_rule};

use crate::help;
use clap::builder::ValueParser;
use clap::{Arg, ArgAction, Command};
use std::alloc::{AllocError, Global};

// An option for a whole number within bounds, which may be left out.
fn bounded_option<'a>(
    alloc: Global,
    name: &'a str,
    value_name: &'a str,
    least: u32,
    most: u32,
    help: &'a str,
) -> Arg<'a>
    ensures { IsArgument (bounded_rule name.entry.now least most) result }
{
    Arg::new(alloc, name)
        .long(name)
        .value_name(value_name)
        .action(ArgAction::Set)
        .value_parser(ValueParser::signed(i64::from(least), i64::from(most)))
        .help(help)
}

// An option for a whole number within bounds, with its letter and its default.
fn number_option<'a>(
    alloc: Global,
    name: &'a str,
    letter: char,
    value_name: &'a str,
    default: &'a str,
    least: u32,
    most: u32,
    help: &'a str,
) -> Arg<'a>
    ensures { IsArgument (number_rule name.entry.now letter default.entry.now least most) result }
{
    bounded_option(alloc, name, value_name, least, most, help)
        .default_value(default)
        .short(letter)
}

// An option without a value.
fn flag<'a>(alloc: Global, name: &'a str, help: &'a str) -> Arg<'a>
    ensures { IsArgument (flag_rule name.entry.now) result }
{
    Arg::new(alloc, name)
        .long(name)
        .action(ArgAction::SetTrue)
        .help(help)
}

// The option for the script file.
fn script_option<'a>(alloc: Global) -> Arg<'a>
    ensures { IsArgument (text_rule (codes "script")) result }
{
    Arg::new(alloc, "script")
        .long("script")
        .value_name("FILE")
        .action(ArgAction::Set)
        .help(help::SCRIPT)
}

// The name of the pages file.
fn pages_argument<'a>(alloc: Global) -> Arg<'a>
    ensures { IsArgument (required_rule (codes "pages")) result }
{
    Arg::new(alloc, "pages")
        .value_name("PAGES")
        .required(true)
        .action(ArgAction::Set)
        .help(help::PAGES)
}

// The names of the request files.
fn requests_argument<'a>(alloc: Global) -> Arg<'a>
    ensures { IsArgument (required_list_rule (codes "requests")) result }
{
    Arg::new(alloc, "requests")
        .value_name("REQUESTS")
        .required(true)
        .num_args(1..)
        .action(ArgAction::Append)
        .help(help::REQUESTS)
}

// The options of runs and replays that are numbers with a default.
fn number_options<'a>(alloc: Global) -> Result<Vec<Arg<'a>>, AllocError>
    ensures { IfOk result (λ options. AllZip IsArgument number_rules options.items) }
{
    Ok(vec![in alloc;
        number_option(alloc, "workers", 'w', "N", "4", 1, 16, help::WORKERS),
        number_option(alloc, "users", 'u', "U", "1000", 1, 1_000_000, help::USERS),
        number_option(alloc, "stash", 's', "C", "256", 1, 4_096, help::STASH),
        number_option(alloc, "turns", 't', "T", "1000", 0, 1_000_000, help::TURNS),
    ]?)
}

// The other options of runs and replays.
fn other_options<'a>(alloc: Global) -> Result<Vec<Arg<'a>>, AllocError>
    ensures { IfOk result (λ options. AllZip IsArgument (drop 4 option_rules) options.items) }
{
    Ok(vec![in alloc;
        bounded_option(alloc, "hot", "H", 1, 1_000_000, help::HOT),
        flag(alloc, "places", help::PLACES),
        flag(alloc, "totals", help::TOTALS),
        flag(alloc, "summary", help::SUMMARY),
        flag(alloc, "progress", help::PROGRESS),
    ]?)
}

// The files of a run.
fn run_files<'a>(alloc: Global) -> Result<Vec<Arg<'a>>, AllocError>
    ensures { IfOk result (λ files. AllZip IsArgument files_rules files.items) }
{
    Ok(vec![in alloc; pages_argument(alloc), requests_argument(alloc)]?)
}

// The files of a replay.
fn replay_files<'a>(alloc: Global) -> Result<Vec<Arg<'a>>, AllocError>
    ensures { IfOk result (λ files.
        AllZip IsArgument (text_rule (codes "script") ∷ files_rules) files.items) }
{
    Ok(vec![in alloc;
        script_option(alloc),
        pages_argument(alloc),
        requests_argument(alloc),
    ]?)
}

// The options of runs and replays, and after them the files.
fn with_options<'a>(alloc: Global, mut files: Vec<Arg<'a>>) -> Result<Vec<Arg<'a>>, AllocError>
    ensures { (rules : List Rule) → AllZip IsArgument rules files.entry.items
        → IfOk result (λ arguments. AllZip IsArgument (option_rules ++ rules) arguments.items) }
{
    let mut arguments = number_options(alloc)?;
    arguments.append(&mut other_options(alloc)?)?;
    arguments.append(&mut files)?;
    Ok(arguments)
}

// Adds a subcommand with this name, this description and these arguments.
fn add_subcommand<'a>(
    alloc: Global,
    list: &mut Vec<Command<'a>>,
    name: &'a str,
    about: &'a str,
    arguments: Vec<Arg<'a>>,
) -> Result<(), AllocError>
    ensures { (rules : List Rule) → AllZip IsArgument rules arguments.entry.items
        → OnOk result ((added : _) × (list.new.items ≡ list.old.items ++ added ∷ [])
        × IsCommand (fold with_rule (new_app name.entry.now) rules) added) }
{
    let subcommand = Command::new(alloc, name)
        .about(about)
        .after_help(help::REPORT)
        .args(arguments)?;
    list.push(subcommand)?;
    Ok(())
}

// The subcommands `run` and `replay`.
fn subcommands<'a>(alloc: Global) -> Result<Vec<Command<'a>>, AllocError>
    ensures { IfOk result (λ list.
        AllZip IsSubcommand (run_command ∷ replay_command ∷ []) list.items) }
{
    let mut list = Vec::new(alloc);
    let run_arguments = with_options(alloc, run_files(alloc)?)?;
    add_subcommand(alloc, &mut list, "run", help::RUN, run_arguments)?;
    let replay_arguments = with_options(alloc, replay_files(alloc)?)?;
    add_subcommand(alloc, &mut list, "replay", help::REPLAY, replay_arguments)?;
    Ok(list)
}

// The program's command line without its subcommands.
fn program<'a>(alloc: Global) -> Result<Command<'a>, AllocError>
    ensures { IfOk result (λ c.
        app_of c ≡ record { top = record likes_app.top { is_leaf = true }; subs = [] }) }
{
    Command::new(alloc, "likes")
        .no_binary_name(true)
        .subcommand_required(true)
        .disable_help_subcommand(true)
        .version(help::VERSION)
        .about(help::LIKES)
        .after_help(help::STATUSES)
        .bin_name("likes")
}

/// The program's command line. Its first word is the first one after the program's name.
pub fn likes_command<'a>(alloc: Global) -> Result<Command<'a>, AllocError>
    ensures { IfOk result (λ c. app_of c ≡ likes_app) }
{
    program(alloc)?.subcommands(subcommands(alloc)?)
}
