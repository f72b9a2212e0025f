//! The commands of `clap`, made from rows.
ghost use Rattle.std.specs.Prelude.{◌≡◌, [], IfOk, IsTrue, false, map, option_map, string_bytes, true};
ghost use Rattle.std.specs.List.{list_all};
ghost use Rattle.clap.specs.Words.{app_of, is_simple_and_free, rule_of};
ghost use Rattle.loc_words.specs.Apps.{Parses, TakesRows, app_of_row, app_with, given_by, option_rule, place_rule, with_rules};
ghost use Rattle.loc_words.specs.Rows as rows;
ghost use Rattle.loc_words.specs.Words.{commands, option_of, row_of};

use crate::row::{CommandRow, OptionKind, OptionRow};
use crate::words::are_tested;
use clap::error::ErrorKind;
use clap::{Arg, ArgAction, ArgMatches, Command};
use std::alloc::{AllocError, Global};

/// What the words behind a command's name give.
#[derive(Drop)]
pub(crate) struct Given<'a> {
    matches: ArgMatches<'a>,
}

impl<'a> Given<'a> {
    /// The value of the place or the option of this name.
    pub(crate) fn value(&self, name: &str) -> Option<&'a str>
        ensures { option_map (λ s. s.now) result ≡ rows.value_in (given_by self.now) name.now }
    {
        self.matches.get_str(name)
    }

    /// Whether the flag of this name stands.
    pub(crate) fn stands(&self, name: &str) -> bool
        ensures { result ≡ rows.stands (given_by self.now) name.now }
    {
        self.matches.contains_id(name)
    }
}

// An option. A flag is one that takes no value.
fn option_arg<'a>(alloc: Global, option: &OptionRow<'a>) -> Arg<'a>
    ensures rule { rule_of result ≡ option_rule (option_of option.now) }
    ensures local { result.global ≡ false }
{
    let (required, values) = match option.kind {
        OptionKind::Required => (true, 1),
        OptionKind::Optional => (false, 1),
        OptionKind::Flag => (false, 0),
    };
    Arg::new(alloc, option.name)
        .long(option.name)
        .required(required)
        .action(ArgAction::Set)
        .num_args(values)
}

fn add_places<'a>(
    alloc: Global,
    command: Command<'a>,
    places: &[&'a str],
) -> Result<Command<'a>, AllocError>
    ensures { IfOk result (λ c. app_of c ≡ with_rules (app_of command.entry) (map (λ place. place_rule place.now) places.now)) }
{
    let mut command = command;
    for place in places {
        command = command.arg(Arg::new(alloc, place).required(true))?;
    }
    Ok(command)
}

fn add_options<'a>(
    alloc: Global,
    command: Command<'a>,
    options: &[OptionRow<'a>],
) -> Result<Command<'a>, AllocError>
    ensures { IfOk result (λ c. app_of c ≡ with_rules (app_of command.entry) (map (λ option. option_rule (option_of option)) options.now)) }
{
    let mut command = command;
    for option in options {
        command = command.arg(option_arg(alloc, option))?;
    }
    Ok(command)
}

// A command of `clap` with no arguments yet. Its words begin behind its name.
fn bare_command<'a>(alloc: Global, name: &'a str) -> Command<'a>
    ensures { app_of result ≡ app_with name.now [] }
{
    Command::new(alloc, name)
        .no_binary_name(true)
        .disable_help_flag(true)
}

// The command of `clap` of a row.
fn parser_of<'a>(alloc: Global, row: &CommandRow<'a>) -> Result<Command<'a>, AllocError>
    ensures { IfOk result (λ c. app_of c ≡ app_of_row (row_of row.now)) }
{
    let command = add_places(alloc, bare_command(alloc, row.name), row.places)?;
    add_options(alloc, command, row.options)
}

/// `clap` takes the words of each row, and what it finds is what they give. The commands are such rows.
pub fn clap_takes_commands()
    ensures taken { TakesRows }
    ensures rows { IsTrue (list_all (λ by. rows.is_row by.0) commands) }
{}

// What `clap` makes of the words behind the command's name.
fn read_words<'a>(
    command: Command<'a>,
    words: &'a [String],
) -> Result<Option<Given<'a>>, AllocError>
    requires { is_simple_and_free (app_of command) ≡ true }
    ensures { Parses (app_of command.entry) (map string_bytes words.now) result }
{
    match command.try_get_matches_from(words) {
        Ok(matches) => Ok(Some(Given { matches })),
        Err(error) => match error.kind() {
            ErrorKind::OutOfMemory => Err(AllocError),
            _ => Ok(None),
        },
    }
}

/// What the words behind the name of a command give for its row.
pub(crate) fn read_row<'a>(
    alloc: Global,
    row: &CommandRow<'a>,
    words: &'a [String],
) -> Result<Option<Given<'a>>, AllocError>
    requires { rows.is_row (row_of row.now) ≡ true }
    ensures { IfOk result (λ given. option_map given_by given ≡ rows.given_of (row_of row.now) (map string_bytes words.now)) }
{
    if !are_tested(words, row.places.len()) {
        return Ok(None);
    }
    read_words(parser_of(alloc, row)?, words)
}
