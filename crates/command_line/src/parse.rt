//! The job of the program's words.
ghost use Rattle.std.specs.Prelude.{◌≡◌, ◌↔◌, Some, true, map, is_some, IfOk, IfErr, IfSome};
ghost use Rattle.clap.specs.Words.{HasMatchesOf, kind_of, subcommand_rows_of, takes};
ghost use Rattle.command_line.specs.Line.{IsNamed, Names, line_of, program};

use crate::job::Job;
use clap::error::ErrorKind;
use clap::{Arg, ArgAction, ArgMatches, Command, Error};
use std::alloc::{AllocError, Global};

/// The words by the rules of the program's command line.
fn parse<'a>(alloc: Global, words: &'a [&'a str]) -> Result<ArgMatches<'a>, Error>
    ensures matches { IfOk result (HasMatchesOf program (map (λ w. w.now) words.entry.now)) }
    ensures passes { IfErr result (λ e. takes program (map (λ w. w.now) words.entry.now) ≡ true → kind_of e ≡ ErrorKind.OutOfMemory) }
{
    let frames = Arg::new(alloc, "frames")
        .long("frames")
        .action(ArgAction::SetTrue);
    let decode = Command::new(alloc, "decode").arg(frames)?;
    let program = Command::new(alloc, "card_switch").no_binary_name(true);
    let program = program.subcommand(Command::new(alloc, "check"))?;
    let program = program.subcommand(Command::new(alloc, "make"))?;
    let program = program.subcommand(Command::new(alloc, "replay"))?;
    let program = program.subcommand(Command::new(alloc, "run"))?;
    let program = program.subcommand(decode)?;
    program.try_get_matches_from(words)
}

/// The job that the subcommand and its flag name.
fn job_named(matches: &ArgMatches) -> Option<Job>
    ensures { (job : _) → Names (subcommand_rows_of matches.now) job → result ≡ Some job }
{
    let (name, found) = matches.subcommand()?;
    match name {
        "check" => Some(Job::Check),
        "make" => Some(Job::Make),
        "replay" => Some(Job::Replay),
        "run" => Some(Job::Run),
        "decode" => Some(Job::Decode {
            frames: found.get_flag("frames"),
        }),
        _ => None,
    }
}

/// The matches of the words, or none where `clap` refuses them.
fn matches_of<'a>(alloc: Global, words: &'a [&'a str]) -> Result<Option<ArgMatches<'a>>, AllocError>
    ensures matches { IfOk result (λ found. IfSome found (HasMatchesOf program (map (λ w. w.now) words.entry.now))) }
    ensures taken { IfOk result (λ found. takes program (map (λ w. w.now) words.entry.now) ≡ true → is_some found ≡ true) }
{
    match parse(alloc, words) {
        Ok(matches) => Ok(Some(matches)),
        Err(e) if e.kind() == ErrorKind::OutOfMemory => Err(AllocError),
        Err(_) => Ok(None),
    }
}

fn is_line(words: &[&str], job: Job) -> bool
    ensures { (result ≡ true) ↔ (map (λ w. w.now) words.now ≡ line_of job) }
{
    words == job.line()
}

/// The job whose line the words behind the program's name are, as `clap` parses them, or none.
pub fn job_of(alloc: Global, words: &[&str]) -> Result<Option<Job>, AllocError>
    ensures line { IfOk result (λ found. (job : _) → (found ≡ Some job) ↔ (map (λ w. w.now) words.now ≡ line_of job)) }
    ensures named { IfOk result (λ found. IfSome found (IsNamed (map (λ w. w.now) words.now))) }
{
    let Some(matches) = matches_of(alloc, words)? else {
        return Ok(None);
    };
    let Some(job) = job_named(&matches) else {
        return Ok(None);
    };
    // `clap` takes further lines, as `check --`.
    if is_line(words, job) {
        Ok(Some(job))
    } else {
        Ok(None)
    }
}
