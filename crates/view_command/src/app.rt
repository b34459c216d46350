//! The program's command line.
ghost use Rattle.std.specs.Prelude.{◌≡◌, IfOk};
ghost use Rattle.clap.specs.Words.{app_of, with_subcommand};
ghost use Rattle.view_command.specs.App as apps;

use clap::{Arg, ArgAction, Command};
use std::alloc::{AllocError, Global};

fn card<'a>(alloc: Global) -> Result<Command<'a>, AllocError>
    ensures { IfOk result (λ c. app_of c ≡ apps.card) }
{
    let number = Arg::new(alloc, "number")
        .value_name("N")
        .required(true)
        .help("The card number, 8 to 19 digits");
    let json = Arg::new(alloc, "json")
        .long("json")
        .action(ArgAction::SetTrue)
        .help("Print a JSON object");
    let card = Command::new(alloc, "card").about("What each node does with a card number");
    let card = card.arg(number)?;
    card.arg(json)
}

fn refusals<'a>(alloc: Global) -> Result<Command<'a>, AllocError>
    ensures { IfOk result (λ c. app_of c ≡ apps.refusals) }
{
    let json = Arg::new(alloc, "json")
        .long("json")
        .action(ArgAction::SetTrue)
        .help("Print a JSON object on each line");
    let refusals = Command::new(alloc, "refusals").about(
        "All refusals of the tables, each with its row",
    );
    refusals.arg(json)
}

fn picture<'a>(alloc: Global) -> Result<Command<'a>, AllocError>
    ensures { IfOk result (λ c. app_of c ≡ apps.picture) }
{
    let prefix = Arg::new(alloc, "prefix")
        .long("prefix")
        .value_name("P")
        .help("The PAN prefix whose routes are drawn, 1 to 12 digits");
    let dot = Arg::new(alloc, "dot")
        .long("dot")
        .action(ArgAction::SetTrue)
        .help("Print the input of Graphviz (DOT) in place of SVG");
    let picture = Command::new(alloc, "picture").about(
        "A picture of nodes, links and routes, as SVG",
    );
    let picture = picture.arg(prefix)?;
    picture.arg(dot)
}

fn trace<'a>(alloc: Global) -> Command<'a>
    ensures { app_of result ≡ apps.trace }
{
    Command::new(alloc, "trace").about(
        "The trace behind the ranks and another line `%%`, as a table",
    )
}

fn with_card<'a>(alloc: Global, program: Command<'a>) -> Result<Command<'a>, AllocError>
    ensures { IfOk result (λ c. app_of c ≡ with_subcommand (app_of program.entry) apps.card.top) }
{
    let card = card(alloc)?;
    program.subcommand(card)
}

fn with_refusals<'a>(alloc: Global, program: Command<'a>) -> Result<Command<'a>, AllocError>
    ensures { IfOk result (λ c. app_of c ≡ with_subcommand (app_of program.entry) apps.refusals.top) }
{
    let refusals = refusals(alloc)?;
    program.subcommand(refusals)
}

fn with_picture<'a>(alloc: Global, program: Command<'a>) -> Result<Command<'a>, AllocError>
    ensures { IfOk result (λ c. app_of c ≡ with_subcommand (app_of program.entry) apps.picture.top) }
{
    let picture = picture(alloc)?;
    program.subcommand(picture)
}

/// The program without its subcommands.
fn bare<'a>(alloc: Global) -> Result<Command<'a>, AllocError>
    ensures { IfOk result (λ c. app_of c ≡ apps.bare) }
{
    Command::new(alloc, "network_view")
        .about(
            "Prints what the tables of a card network mean; standard input has tables, a line `%%`, and ranks",
        )
        .no_binary_name(true)
        .disable_help_subcommand(true)
        .subcommand_required(true)
        .bin_name("network_view")
}

/// The program, with a subcommand for each job.
pub(crate) fn program<'a>(alloc: Global) -> Result<Command<'a>, AllocError>
    ensures { IfOk result (λ c. app_of c ≡ apps.program) }
{
    let program = bare(alloc)?;
    let program = with_card(alloc, program)?;
    let program = with_refusals(alloc, program)?;
    let program = with_picture(alloc, program)?;
    program.subcommand(trace(alloc))
}
