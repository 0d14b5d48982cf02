//! Parses the command line.

use clap::{Arg, Command};
use qap_command::CommandError;
use std::alloc::{AllocError, Global};

/// The usage line.
pub const USAGE: &str = "usage: qapcheck value|optimal [INSTANCE OTHER]";

/// The request, and the files of its texts.
#[derive(Clone, Copy, Debug, PartialEq, Eq)]
pub struct Request<'a> {
    pub question: Question,
    /// The files of the two texts, or `None` if both are on standard input.
    pub files: Option<Files<'a>>,
}

/// What to check.
#[derive(Clone, Copy, Debug, PartialEq, Eq)]
pub enum Question {
    /// The cost that a solution states.
    Value,
    /// The least cost that a certificate establishes.
    Optimal,
}

/// The names of an instance's file and of a solution's or a certificate's.
#[derive(Clone, Copy, Debug, PartialEq, Eq)]
pub struct Files<'a> {
    pub instance: &'a str,
    pub other: &'a str,
}

/// What the words of a command line ask for, the program's name being the first.
pub fn parse<'a>(alloc: Global, words: &'a [String]) -> Result<Request<'a>, CommandError> {
    let command = Command::new(alloc, "qapcheck")
        .subcommand_required(true)
        .subcommand(of_two_files(alloc, "value")?)?
        .subcommand(of_two_files(alloc, "optimal")?)?;
    let matches = command.try_get_matches_from(words)?;
    let Some((name, found)) = matches.subcommand() else {
        return Err(CommandError::Usage);
    };
    let question = match name {
        "value" => Question::Value,
        "optimal" => Question::Optimal,
        _ => return Err(CommandError::Usage),
    };
    let files = match (found.get_str("INSTANCE"), found.get_str("OTHER")) {
        (None, None) => None,
        (Some(instance), Some(other)) => Some(Files { instance, other }),
        _ => return Err(CommandError::Usage),
    };
    Ok(Request { question, files })
}

/// A subcommand that takes the names of two files or none.
fn of_two_files<'a>(alloc: Global, name: &'a str) -> Result<Command<'a>, AllocError> {
    Command::new(alloc, name)
        .arg(Arg::new(alloc, "INSTANCE"))?
        .arg(Arg::new(alloc, "OTHER"))
}
