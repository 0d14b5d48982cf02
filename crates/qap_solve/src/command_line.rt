//! Parses the command line.

ghost use Rattle.std.specs.Prelude.{IfOk};
ghost use Rattle.qap_solve.specs.Options.{AreLimited, MayRun};

use crate::options::{MAX_LEASE_MS, MAX_NODES, MAX_WORKERS, Options};
use clap::{Arg, ArgAction, ArgMatches, Command, value_parser};
use qap_command::CommandError;
use std::alloc::{AllocError, Global};

/// The usage line.
pub const USAGE: &str =
    "usage: qapsolve solve [--workers K] [--lease MS] [--nodes N] [--cert] | qapsolve script";

/// The request of a command line.
#[derive(Clone, Copy, Debug, PartialEq, Eq)]
pub enum Request {
    /// To solve an instance.
    Solve(Options),
    /// To carry out a script of the tuple space.
    Script,
}

/// What the words of a command line ask for, the program's name being the first.
pub fn parse(alloc: Global, words: &[String]) -> Result<Request, CommandError>
    ensures { IfOk result MayRun }
{
    let command = Command::new(alloc, "qapsolve")
        .subcommand_required(true)
        .subcommand(solve_command(alloc)?)?
        .subcommand(Command::new(alloc, "script"))?;
    let matches = command.try_get_matches_from(words)?;
    match matches.subcommand() {
        Some(("solve", found)) => Ok(Request::Solve(options_of(found)?)),
        Some(("script", _)) => Ok(Request::Script),
        _ => Err(CommandError::Usage),
    }
}

/// The subcommand that solves an instance.
fn solve_command<'a>(alloc: Global) -> Result<Command<'a>, AllocError> {
    let workers = Arg::new(alloc, "workers")
        .long("workers")
        .value_parser(value_parser!(u16).range(1..=i64::from(MAX_WORKERS)))
        .default_value("4");
    let lease = Arg::new(alloc, "lease")
        .long("lease")
        .value_parser(value_parser!(u64).range(1..=MAX_LEASE_MS as i64))
        .default_value("600000");
    let nodes = Arg::new(alloc, "nodes")
        .long("nodes")
        .value_parser(value_parser!(u64).range(0..=MAX_NODES as i64));
    let cert = Arg::new(alloc, "cert")
        .long("cert")
        .action(ArgAction::SetTrue);
    Command::new(alloc, "solve")
        .arg(workers)?
        .arg(lease)?
        .arg(nodes)?
        .arg(cert)
}

/// The options that were found: each has a default, except the limit of nodes.
fn options_of(found: &ArgMatches<'_>) -> Result<Options, CommandError>
    ensures { IfOk result AreLimited }
{
    let (Some(workers), Some(lease_ms)) = (found.get_one("workers"), found.get_one("lease")) else {
        return Err(CommandError::Usage);
    };
    let (nodes, cert) = (found.get_one("nodes"), found.get_flag("cert"));
    Options::new(workers, lease_ms, nodes, cert).ok_or(CommandError::Usage)
}
