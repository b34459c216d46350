//! The job of the program's words.
ghost use Rattle.std.specs.Prelude.{◌≡◌, ◌≢◌, [], ◌∷◌, IfOk, None, Some, is_some, true, false, map};
ghost use Rattle.clap.specs.Words.{FailsBy, HasMatchesOf, IsAmong, fault_of, found_of, kind_of, rows_of, subcommand_rows_of};
ghost use Rattle.view_command.specs.App as apps;
ghost use Rattle.view_command.specs.Line.{IsLine, card_in, drawing_in, format_in, is_given, job_asked, job_in, picture_in};

use crate::app::program;
use crate::job::{Drawing, Format, Job};
use card_digits::{Card, Prefix};
use clap::error::ErrorKind;
use clap::{ArgMatches, Error};
use std::alloc::{AllocError, Global};

/// The words by the rules of the program's command line.
fn parse<'a>(alloc: Global, words: &'a [&'a str]) -> Result<ArgMatches<'a>, Error>
    ensures matches { IfOk result (HasMatchesOf apps.program (map (λ w. w.now) words.entry.now)) }
    ensures fault { FailsBy (fault_of apps.program (map (λ w. w.now) words.entry.now)) result }
{
    let program = program(alloc)?;
    program.try_get_matches_from(words)
}

/// Whether a flag was given.
#[tactic(auto, using(crate::proofs::Lines::first_text))]
fn is_given(found: &ArgMatches, flag: &str) -> bool
    ensures { result ≡ is_given flag.now (rows_of (found_of found.now)) }
{
    match found.get_str(flag) {
        Some(text) => text == "true",
        None => false,
    }
}

fn format(found: &ArgMatches) -> Format
    ensures { result ≡ format_in (rows_of (found_of found.now)) }
{
    if is_given(found, "json") {
        Format::Json
    } else {
        Format::Text
    }
}

fn drawing(found: &ArgMatches) -> Drawing
    ensures { result ≡ drawing_in (rows_of (found_of found.now)) }
{
    if is_given(found, "dot") {
        Drawing::Dot
    } else {
        Drawing::Svg
    }
}

#[tactic(auto, using(crate::proofs::Lines::first_text))]
fn card_job(found: &ArgMatches) -> Option<Job>
    ensures { result ≡ card_in (rows_of (found_of found.now)) }
{
    let number = found.get_str("number")?;
    let Ok(card) = Card::read(number.as_bytes()) else {
        return None;
    };
    Some(Job::Card(card, format(found)))
}

#[tactic(auto, using(crate::proofs::Lines::first_text))]
fn picture_job(found: &ArgMatches) -> Option<Job>
    ensures { result ≡ picture_in (rows_of (found_of found.now)) }
{
    let drawing = drawing(found);
    let Some(text) = found.get_str("prefix") else {
        return Some(Job::Picture(None, drawing));
    };
    let Ok(prefix) = Prefix::read(text.as_bytes()) else {
        return None;
    };
    Some(Job::Picture(Some(prefix), drawing))
}

/// The job that the subcommand names, with what stands behind it.
fn job_in(matches: &ArgMatches) -> Option<Job>
    ensures { result ≡ job_in (subcommand_rows_of matches.now) }
{
    let (name, found) = matches.subcommand()?;
    match name {
        "card" => card_job(found),
        "refusals" => Some(Job::Refusals(format(found))),
        "picture" => picture_job(found),
        "trace" => Some(Job::Trace),
        _ => None,
    }
}

/// No job, but where memory was refused.
fn no_job(fault: &Error) -> Result<Option<Job>, AllocError>
    ensures none { IfOk result (λ found. found ≡ None) }
    ensures other { IfOk result (λ _. kind_of fault.now ≢ ErrorKind.OutOfMemory) }
{
    if fault.kind() == ErrorKind::OutOfMemory {
        Err(AllocError)
    } else {
        Ok(None)
    }
}

/// The job of the words behind the program's name, as `clap` parses them, or none of other words.
pub fn job_of(alloc: Global, words: &[&str]) -> Result<Option<Job>, AllocError>
    ensures asked { IfOk result (λ found. found ≡ job_asked (map (λ w. w.now) words.now)) }
    // So each line of the usage gives its job.
    ensures usage { IfOk result (λ found. (job : _) → IsLine job (map (λ w. w.now) words.now) → found ≡ Some job) }
{
    match parse(alloc, words) {
        Ok(matches) => Ok(job_in(&matches)),
        Err(fault) => no_job(&fault),
    }
}

/// The help that `clap` has in place of matches, or none.
fn help_in(alloc: Global, fault: &Error) -> Result<Option<String>, AllocError>
    ensures some { IfOk result (λ help. is_some help ≡ true → kind_of fault.now ≡ ErrorKind.DisplayHelp) }
    ensures none { IfOk result (λ help. is_some help ≡ false → (kind_of fault.now ≢ ErrorKind.OutOfMemory) × (kind_of fault.now ≢ ErrorKind.DisplayHelp)) }
{
    match fault.kind() {
        ErrorKind::OutOfMemory => Err(AllocError),
        ErrorKind::DisplayHelp => Ok(Some(format!(in alloc; "{fault}")?)),
        _ => Ok(None),
    }
}

/// The help that words ask for, as `--help` and `card --help` do, or none for other words.
pub fn help_of(alloc: Global, words: &[&str]) -> Result<Option<String>, AllocError>
    ensures asked { IfOk result (λ help. is_some help ≡ true → IsAmong ErrorKind.DisplayHelp (fault_of apps.program (map (λ w. w.now) words.now))) }
    ensures given { IfOk result (λ help. fault_of apps.program (map (λ w. w.now) words.now) ≡ ErrorKind.DisplayHelp ∷ [] → is_some help ≡ true) }
{
    match parse(alloc, words) {
        Ok(_matches) => Ok(None),
        Err(fault) => help_in(alloc, &fault),
    }
}
