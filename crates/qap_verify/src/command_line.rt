//! Parses the command line.

use clap::error::ErrorKind;
use clap::{Arg, Command, Error};
use qap_command::VERSION;
use std::alloc::Global;

/// What the program is said to be in its help.
const ABOUT: &str =
    "Verifies a proof of a least cost, or of a bound, of the quadratic assignment problem";

/// The names of the file of an instance or a plan, of a proof's, and of those of proofs of parts; and the bound that they
/// have to show, if a least cost is not wanted.
#[derive(Debug, Drop)]
pub struct Files<'a> {
    pub instance: &'a str,
    pub proof: &'a str,
    pub parts: Vec<&'a str>,
    pub wanted: Option<i128>,
}

/// The files that a command line names, the program's name being the first of its words. Requests for help or the
/// version are errors whose text is to be printed.
pub fn parse<'a>(alloc: Global, words: &'a [String]) -> Result<Files<'a>, Error> {
    let instance = Arg::new(alloc, "INSTANCE").required(true).help(
        "an instance in the QAPLIB format, or a plan, which ends in .toml",
    );
    let proof = Arg::new(alloc, "PROOF").required(true).help(
        "a proof in the format qapproof 1 or qapproof 2; - for standard input",
    );
    let wanted = Arg::new(alloc, "part")
        .long("part")
        .value_name("BOUND")
        .help("end with status 0 if this bound is shown, of a part or of all, else with 5");
    let parts = Arg::new(alloc, "PART").num_args(0..).help(
        "proofs of parts, each over a node of its own, in either format",
    );
    let mut command = Command::new(alloc, "qapverify")
        .bin_name("qapverify")?
        .about(ABOUT)
        .version(VERSION)
        .arg(instance)?
        .arg(proof)?
        .arg(parts)?
        .arg(wanted)?;
    let found = command.try_get_matches_from_mut(words)?;
    match (found.get_str("INSTANCE"), found.get_str("PROOF")) {
        (Some(instance), Some(proof)) => {
            let parts = Vec::from_slice(alloc, found.get_strs("PART").unwrap_or(&[]))?;
            let wanted = match found.get_str("part") {
                Some(word) => Some(bound_of(&mut command, word)?),
                None => None,
            };
            Ok(Files {
                instance,
                proof,
                parts,
                wanted,
            })
        }
        _ => Err(command.error(ErrorKind::MissingRequiredArgument, "two files are required")?),
    }
}

/// The bound that a word states.
fn bound_of(command: &mut Command, word: &str) -> Result<i128, Error> {
    match word.parse() {
        Ok(bound) => Ok(bound),
        Err(_) => Err(command.error(
            ErrorKind::ValueValidation,
            "--part takes a whole number: the bound that is to be shown",
        )?),
    }
}
