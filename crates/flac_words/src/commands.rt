//! What `clap` is given: the commands of the program with their arguments and their help.

use crate::usage::{
    EXAMPLES, Usage, VERSION, Word, WordKind, decode, edit, encode, export, list, recode, retag,
    salvage, same, tag, test, verify,
};
use clap::builder::ValueParser;
use clap::{Arg, ArgAction, ArgMatches, Command};
use std::alloc::{AllocError, Global};

/// A whole number below 2^32.
const NUMBER: ValueParser<'static> = ValueParser::Unsigned(0, 4294967295);

/// A row of a table, of which something is made.
trait Row<T> {
    /// What is made of it.
    ///
    /// # Errors
    /// Memory ran out.
    fn make(&self, alloc: Global) -> Result<T, AllocError>;
}

/// What is made of the rows of a table, in their order.
///
/// # Errors
/// Memory ran out.
fn made_of<T: Drop, R: Row<T>>(alloc: Global, rows: &[R]) -> Result<Vec<T>, AllocError> {
    let mut made = Vec::new(alloc);
    for row in rows {
        made.push(row.make(alloc)?)?;
    }
    Ok(made)
}

/// What `clap` finds in the words of a command line, the program's name first.
///
/// # Errors
/// Why it refuses them.
pub(crate) fn matches_of<'a>(
    alloc: Global,
    words: &'a [String],
) -> Result<ArgMatches<'a>, clap::Error> {
    command(alloc)?.try_get_matches_from(words)
}

/// The command line of the program.
///
/// # Errors
/// Memory ran out.
fn command<'a>(alloc: Global) -> Result<Command<'a>, AllocError> {
    let commands = commands(alloc)?;
    Command::new(alloc, "flac")
        .about("Tests, decodes, lists, encodes, tags and verifies FLAC streams (RFC 9639)")
        .version(VERSION)
        .after_help(EXAMPLES)
        .subcommand_required(true)
        .subcommands(commands)
}

/// The commands of the program.
///
/// # Errors
/// Memory ran out.
fn commands<'a>(alloc: Global) -> Result<Vec<Command<'a>>, AllocError> {
    made_of(alloc, &NAMES)
}

/// The names of the commands.
#[derive(Clone, Copy)]
enum Name {
    Test,
    Decode,
    List,
    Encode,
    Retag,
    Tag,
    Edit,
    Export,
    Verify,
    Same,
    Recode,
    Salvage,
}

/// The commands in the order in which help lists them.
const NAMES: [Name; 12] = [
    Name::Test,
    Name::Decode,
    Name::List,
    Name::Encode,
    Name::Retag,
    Name::Tag,
    Name::Edit,
    Name::Export,
    Name::Verify,
    Name::Same,
    Name::Recode,
    Name::Salvage,
];

impl<'a> Row<Command<'a>> for Name {
    fn make(&self, alloc: Global) -> Result<Command<'a>, AllocError> {
        command_of(alloc, usage_of(*self))
    }
}

/// What `clap` is told of a command. (A function that names a table reads all of it, so each table has its own.)
fn usage_of(name: Name) -> &'static Usage {
    match name {
        Name::Test => test::usage(),
        Name::Decode => decode::usage(),
        Name::List => list::usage(),
        Name::Encode => encode::usage(),
        Name::Retag => retag::usage(),
        Name::Tag => tag::usage(),
        Name::Edit => edit::usage(),
        Name::Export => export::usage(),
        Name::Verify => verify::usage(),
        Name::Same => same::usage(),
        Name::Recode => recode::usage(),
        Name::Salvage => salvage::usage(),
    }
}

/// One of the commands.
///
/// # Errors
/// Memory ran out.
fn command_of<'a>(alloc: Global, usage: &Usage) -> Result<Command<'a>, AllocError> {
    let arguments = made_of(alloc, usage.words)?;
    Command::new(alloc, usage.name)
        .about(usage.about)
        .after_help(usage.example)
        .args(arguments)
}

impl<'a> Row<Arg<'a>> for Word {
    fn make(&self, alloc: Global) -> Result<Arg<'a>, AllocError> {
        Ok(argument(alloc, self))
    }
}

/// What `clap` is told of an argument besides its names and its help.
#[derive(Clone, Copy)]
struct Rule {
    is_required: bool,
    action: ArgAction,
    /// What help calls a value.
    value: &'static str,
    parser: ValueParser<'static>,
    /// The values that it has if it is not given.
    default: &'static [&'static str],
}

/// An argument of a command.
fn argument<'a>(alloc: Global, word: &Word) -> Arg<'a> {
    let rule = rule_of(word);
    let argument = Arg::new(alloc, word.name)
        .help(word.help)
        .required(rule.is_required)
        .action(rule.action)
        .value_name(rule.value)
        .value_parser(rule.parser)
        .default_values(rule.default);
    match word.kind {
        WordKind::File => argument,
        WordKind::Files => argument.num_args(1..),
        WordKind::Comments => argument.num_args(0..),
        WordKind::ShortFlag(letter) => argument.long(word.name).short(letter),
        _ => argument.long(word.name),
    }
}

/// What `clap` is told of an argument besides its names and its help.
fn rule_of(word: &Word) -> Rule {
    let mut rule = Rule {
        is_required: false,
        action: ArgAction::Set,
        value: word.name,
        parser: ValueParser::String,
        default: &[],
    };
    match word.kind {
        WordKind::File => rule.is_required = true,
        WordKind::Files => {
            rule.is_required = true;
            rule.action = ArgAction::Append;
        }
        WordKind::Comments => rule.action = ArgAction::Append,
        WordKind::Flag | WordKind::ShortFlag(_) => {
            rule.action = ArgAction::SetTrue;
            rule.parser = ValueParser::Bool;
        }
        WordKind::Text(value) => rule.value = value,
        WordKind::Texts(value) => {
            rule.value = value;
            rule.action = ArgAction::Append;
        }
        WordKind::Number(default) => {
            rule.value = "N";
            rule.parser = NUMBER;
            rule.default = default;
        }
        WordKind::OneOf(value, words) => {
            rule.value = value;
            rule.parser = ValueParser::Names(words);
        }
    }
    rule
}
