//! Why a text is not an answer, and how to fix it.

use std::alloc::AllocError;
use thiserror::Error;

/// Why a text is not an answer to a plan or to an instance. The items of a list are counted from 1.
#[derive(Debug, Drop, Error)]
pub enum AnswerError {
    /// It is not JSON.
    #[error("line {line}, column {column}: the text is not JSON: name a file that `qapplan solve --json` wrote")]
    NoJson {
        line: usize,
        column: usize,
    },
    /// There is no list of locations.
    #[error("the key \"permutation\" must be a list of locations: name a file that `qapplan solve --json` wrote")]
    NoList,
    /// The list has another length than there are facilities.
    #[error("the key \"permutation\" has {found} locations instead of {wanted}: name an answer to this plan")]
    OtherCount {
        found: usize,
        wanted: usize,
    },
    /// An item of the list is not a location.
    #[error("the key \"permutation[{number}]\" must be a whole number from 1 to {size}: name an answer to this plan")]
    NoLocation {
        number: usize,
        size: usize,
    },
    /// A location is repeated.
    #[error("the key \"permutation[{number}]\": the location {location} occurs twice: give each facility a location of its own")]
    LocationTwice {
        number: usize,
        location: u64,
    },
    /// A department is not where it is fixed.
    #[error("the key \"permutation[{number}]\" must be {location}, where the plan fixes that department: solve the plan again")]
    Moved {
        number: usize,
        location: usize,
    },
    /// There is another number of names.
    #[error("the key \"{key}\" must be a list of {count} names: name an answer to this plan")]
    OtherNames {
        key: &'static str,
        count: usize,
    },
    /// A name is another one than the plan's.
    #[error("the key \"{key}[{number}]\" must be \"{name}\": name an answer to this plan")]
    OtherName {
        key: &'static str,
        number: usize,
        name: String,
    },
    /// There are names, where an instance has none.
    #[error("the key \"{key}\" is present, but an instance has no names: name the plan instead")]
    Named {
        key: &'static str,
    },
    /// A key has no text.
    #[error("the key \"{key}\" must be text in quotes: name a file that `qapplan solve --json` wrote")]
    NoText {
        key: &'static str,
    },
    /// Another cost is stated than the arrangement has.
    #[error("the key \"cost\" must be \"{cost}\", which is what the arrangement costs: solve the plan again")]
    OtherCost {
        cost: String,
    },
    /// The bound is not a number, or above the cost.
    #[error("the key \"bound\" must be a number that is no larger than the cost, \"{cost}\": solve the plan again")]
    OtherBound {
        cost: String,
    },
    /// The status does not match the cost and the bound.
    #[error("the key \"status\" must be \"{status}\" according to the cost and the bound: solve the plan again")]
    OtherStatus {
        status: &'static str,
    },
    /// Memory ran out.
    #[error("out of memory")]
    OutOfMemory,
}

impl From<AllocError> for AnswerError {
    ghost use Rattle.std.specs.Prelude.{◌≡◌};
    ghost use Rattle.plan_check.specs.declared.error.AnswerError.TheVariants.{OutOfMemory};

    ghost from_gives = { λ _ e. e ≡ OutOfMemory };

    fn from(_error: AllocError) -> AnswerError {
        AnswerError::OutOfMemory
    }
}
