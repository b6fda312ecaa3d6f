//! The words behind a command's name, read by `clap`: positional words and options, in any order.
ghost use Rattle.std.specs.Prelude.{◌≡◌, List, IfOk, IsErrOf, None, Some, codes, drop, false, length, map, string_bytes};
ghost use Rattle.clap.specs.Simple.{app_of};
ghost use Rattle.clap.specs.Walk.{rule_of};
ghost use Rattle.tool_words.specs.Reader.{HasParts, ReadsParts, flag_rule, map_rule, reader_app, sound_parts, word_rule};
ghost use Rattle.tool_words.specs.Words.{Parts, options_of};

use crate::request::{FileName, Options};
use crate::words::WordsFault;
use clap::builder::ValueParser;
use clap::error::ErrorKind;
use clap::{Arg, ArgAction, ArgMatches, Command as Reader};
use sp_ids::Memory;
use std::alloc::Global;

/// What `clap` finds in the words, the first of which names the command.
pub(crate) fn read<'a>(alloc: Global, words: &'a [String]) -> Result<ArgMatches<'a>, WordsFault>
    ensures reads { IfOk result (ReadsParts (drop 1 (map string_bytes words.now))) }
    ensures none { IsErrOf result WordsFault.Words → sound_parts (drop 1 (map string_bytes words.now)) ≡ None }
{
    match reader(alloc)?.try_get_matches_from(words) {
        Ok(matches) => Ok(matches),
        Err(error) => match error.kind() {
            ErrorKind::OutOfMemory => Err(WordsFault::Memory),
            _ => Err(WordsFault::Words),
        },
    }
}

// One command line serves all commands: which options a command has, and how many positional words, is for its own rule.
fn reader<'a>(alloc: Global) -> Result<Reader<'a>, Memory>
    ensures { IfOk result (λ reader. app_of reader ≡ reader_app (codes "statepoint")) }
{
    let reader = Reader::new(alloc, "statepoint")
        .disable_help_flag(true)
        .arg(positional(alloc))?
        .arg(map_option(alloc))?
        .arg(flag(alloc, "raw"))?
        .arg(flag(alloc, "places"))?
        .arg(flag(alloc, "trace"))?
        .arg(flag(alloc, "trust"))?;
    Ok(reader)
}

fn positional<'a>(alloc: Global) -> Arg<'a>
    ensures rule { rule_of result ≡ word_rule }
    ensures local { result.global ≡ false }
{
    Arg::new(alloc, "words")
        .value_parser(ValueParser::NonEmptyString)
        .action(ArgAction::Append)
}

fn map_option<'a>(alloc: Global) -> Arg<'a>
    ensures rule { rule_of result ≡ map_rule }
    ensures local { result.global ≡ false }
{
    Arg::new(alloc, "map")
        .long("map")
        .value_parser(ValueParser::NonEmptyString)
        .action(ArgAction::Set)
}

fn flag<'a>(alloc: Global, name: &'a str) -> Arg<'a>
    ensures rule { rule_of result ≡ flag_rule name.entry.now }
    ensures local { result.global ≡ false }
{
    Arg::new(alloc, name).long(name).action(ArgAction::SetTrue)
}

/// What the options among the matches choose.
pub(crate) fn chosen(alloc: Global, matches: &ArgMatches<'_>) -> Result<Options, Memory>
    ensures { IfOk result (λ options. (parts : Parts) → HasParts matches.now parts → options ≡ options_of parts.options) }
{
    let map = match matches.get_str("map") {
        Some(name) => Some(FileName::of(alloc, name)?),
        None => None,
    };
    Ok(Options {
        raw: matches.get_flag("raw"),
        places: matches.get_flag("places"),
        trace: matches.get_flag("trace"),
        trust: matches.get_flag("trust"),
        map,
    })
}
