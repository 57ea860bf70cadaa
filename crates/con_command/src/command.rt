//! The words of the command line as one command with subcommands.

ghost use Rattle.std.specs.Prelude.{◌≡◌, codes, false, IfOk, map, option_map, string_bytes};
ghost use Rattle.clap.specs.declared.builder.command.Command.TheViews.{out-Command};
ghost use Rattle.clap.specs.Words.{FailsBy, app_of, fault_of, first_of, found_of, rows_of, subcommand_of, subcommand_rows_of};
ghost use Rattle.con_command.specs.Command.{and_more, bare, host, taking, taking_files, with_word, files_in, files_shown};

use clap::{Arg, ArgMatches, Command, Error};
use std::alloc::{AllocError, Global};

// The command with one word more, which has to be there.
fn with_word<'a>(
    alloc: Global,
    command: Command<'a>,
    word: &'a str,
) -> Result<Command<'a>, AllocError>
    ensures app { IfOk result (λ c. app_of c ≡ with_word (app_of command.entry) word.entry.now) }
    ensures local { IfOk result (λ c. (out-Command c).has_globals ≡ (out-Command command.entry).has_globals) }
{
    command.arg(Arg::new(alloc, word).required(true))
}

// A subcommand that takes one word.
fn taking_one<'a>(alloc: Global, name: &'a str) -> Result<Command<'a>, AllocError>
    ensures app { IfOk result (λ c. app_of c ≡ taking name.entry.now) }
    ensures local { IfOk result (λ c. (out-Command c).has_globals ≡ false) }
{
    let command = Command::new(alloc, name);
    with_word(alloc, command, "word")
}

// The subcommand that takes four words, each the name of a file.
fn taking_files<'a>(alloc: Global) -> Result<Command<'a>, AllocError>
    ensures app { IfOk result (λ c. app_of c ≡ taking_files) }
    ensures local { IfOk result (λ c. (out-Command c).has_globals ≡ false) }
{
    let audit = Command::new(alloc, "audit");
    let one = with_word(alloc, audit, "session")?;
    let two = with_word(alloc, one, "link")?;
    let three = with_word(alloc, two, "stream")?;
    with_word(alloc, three, "report")
}

// The command, with no subcommand yet.
fn alone<'a>(alloc: Global) -> Command<'a>
    ensures { app_of result ≡ bare }
{
    Command::new(alloc, "conpty")
        .no_binary_name(true)
        .subcommand_required(true)
        .disable_help_flag(true)
        .disable_help_subcommand(true)
}

// The command with one subcommand more, which takes one word.
fn with_taking<'a>(
    alloc: Global,
    command: Command<'a>,
    name: &'a str,
) -> Result<Command<'a>, AllocError>
    ensures { IfOk result (λ c. app_of c ≡ and_more (app_of command.entry) (taking name.entry.now)) }
{
    let more = taking_one(alloc, name)?;
    command.subcommand(more)
}

// The command with the subcommand more that takes four words.
fn with_taking_files<'a>(alloc: Global, command: Command<'a>) -> Result<Command<'a>, AllocError>
    ensures { IfOk result (λ c. app_of c ≡ and_more (app_of command.entry) taking_files) }
{
    let more = taking_files(alloc)?;
    command.subcommand(more)
}

// The command with its subcommands. Where memory is wanted no other command is there to be dropped: the proof of each such way is dear.
fn command<'a>(alloc: Global) -> Result<Command<'a>, AllocError>
    ensures { IfOk result (λ c. app_of c ≡ host) }
{
    let typing = Command::new(alloc, "type");
    let one = alone(alloc).subcommand(typing)?;
    let two = with_taking(alloc, one, "play")?;
    let three = with_taking(alloc, two, "solo")?;
    let four = with_taking(alloc, three, "gen")?;
    let five = with_taking(alloc, four, "run")?;
    let six = with_taking(alloc, five, "mirror")?;
    with_taking_files(alloc, six)
}

/// What the command makes of the words.
pub fn matches<'a>(alloc: Global, words: &'a [String]) -> Result<ArgMatches<'a>, Error>
    ensures kinds { FailsBy (fault_of host (map string_bytes words.entry.now)) result }
    ensures rows { IfOk result (λ m. subcommand_rows_of m ≡ subcommand_of host (map string_bytes words.entry.now)) }
{
    let command = command(alloc)?;
    command.try_get_matches_from(words)
}

/// The word that a subcommand has, where it has one.
pub fn word<'a>(inner: &ArgMatches<'a>) -> Option<&'a str>
    ensures { option_map (λ s. s.now) result ≡ first_of (codes "word") (rows_of (found_of inner.now)) }
{
    inner.get_str("word")
}

/// The words of a session, its link, its stream and its report, where they are there.
pub type Files<'a> = (
    Option<&'a str>,
    Option<&'a str>,
    Option<&'a str>,
    Option<&'a str>,
);

/// The files that a subcommand names.
pub fn files<'a>(inner: &ArgMatches<'a>) -> Files<'a>
    ensures { files_shown result ≡ files_in (rows_of (found_of inner.now)) }
{
    (
        inner.get_str("session"),
        inner.get_str("link"),
        inner.get_str("stream"),
        inner.get_str("report"),
    )
}
