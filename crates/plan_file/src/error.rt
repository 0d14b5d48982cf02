//! Why there is no plan or no problem, and how to fix it.

use crate::place::TextPlace;
use plan_table::TableError;
use std::alloc::AllocError;
use thiserror::Error;

/// Why a text is not a plan.
#[derive(Debug, Drop, Error)]
pub enum PlanError {
    /// It is not TOML.
    #[error("{place}: {message}: write a key, `=` and a file in quotes on each line, as in `flows = \"trips.csv\"`")]
    Syntax {
        place: TextPlace,
        message: String,
    },
    /// It has another key than a plan may have.
    #[error("the key \"{key}\" is unknown: a plan has the keys flows or trips, departments, distances or places, metric, decimals, decimal_mark, round, symmetric, duplicates, title, y, costs, fixed, forbidden and allowed")]
    UnknownKey {
        key: String,
    },
    /// The key has no text.
    #[error("the key \"{key}\" has the type {found}: write a text in quotes")]
    NoText {
        key: &'static str,
        found: &'static str,
    },
    /// The text at a key has a control character.
    #[error("the key \"{key}\" has the control character U+{code:04X}: write its text without line breaks, tabs and other control characters")]
    ControlInText {
        key: &'static str,
        code: u32,
    },
    /// Neither of two keys is there.
    #[error("the keys \"{key}\" and \"{other}\" are both missing: name the file of that table by one of them, as `{key} = \"{key}.csv\"`")]
    NeitherKey {
        key: &'static str,
        other: &'static str,
    },
    /// A key is missing, and is in the table of what is fixed.
    #[error("the key \"{key}\" is under `[fixed]`: move `[fixed]` and the lines that belong to it to the end of the plan")]
    AmongFixed {
        key: &'static str,
    },
    /// Two alternative keys are both present.
    #[error("the keys \"{key}\" and \"{other}\" are both present: keep one of them")]
    BothKeys {
        key: &'static str,
        other: &'static str,
    },
    /// A key is missing that another one requires.
    #[error("the key \"{key}\" is missing: \"{other}\" needs it; write `{key} = \"rectilinear\"`, or \"euclidean\" or \"squared\"")]
    MissingKey {
        key: &'static str,
        other: &'static str,
    },
    /// A key is there, and not the one that it goes with.
    #[error("the key \"{key}\" goes with \"{other}\", which is missing: remove it, or add that one")]
    LoneKey {
        key: &'static str,
        other: &'static str,
    },
    /// No metric has that name.
    #[error("the key \"metric\" says \"{found}\": write \"rectilinear\", \"euclidean\" or \"squared\"")]
    OtherMetric {
        found: String,
    },
    /// No decimal mark is written so.
    #[error("the key \"decimal_mark\" says \"{found}\": write \".\" or \",\"")]
    OtherMark {
        found: String,
    },
    /// No direction of the y axis is written so.
    #[error("the key \"y\" says \"{found}\": write \"up\" or \"down\"")]
    OtherY {
        found: String,
    },
    /// The number of decimals for rounding is invalid.
    #[error("the key \"round\" must be a whole number from 0 to 9, without quotes, as in `round = 3`")]
    NoRound,
    /// A value that must be true or false is neither.
    #[error("the key \"symmetric\" must be true or false, without quotes, as in `symmetric = true`")]
    NoSymmetric,
    /// There is no treatment of repeated pairs with that name.
    #[error("the key \"duplicates\" says \"{found}\": write \"sum\", or remove it")]
    OtherDuplicates {
        found: String,
    },
    /// The number of decimals is invalid.
    #[error("the key \"decimals\" must be a whole number from 0 to 9, without quotes, as in `decimals = 2`")]
    NoDecimals,
    /// Distances by that metric are exact.
    #[error("the key \"decimals\" goes with `metric = \"euclidean\"` alone: distances by \"{metric}\" are exact, so remove it")]
    ExactMetric {
        metric: &'static str,
    },
    /// The departments are not a list of names.
    #[error("{0}")]
    Departments(NamesFault),
    /// What is fixed is not a table of departments and places.
    #[error("{0}")]
    Fixed(PinsFault),
    /// The key does not give places for departments.
    #[error("the key \"{key}{fault}")]
    Choosing {
        key: &'static str,
        fault: ChoicesFault,
    },
    /// Memory ran out.
    #[error("out of memory")]
    OutOfMemory,
}

/// Why the departments are not a list of names. Numbers are counted from 1.
#[derive(Debug, Drop, Error)]
pub enum NamesFault {
    /// They are not a list.
    #[error("the key \"departments\" has the type {found}: write a list of names, as in `departments = [\"Saw\", \"Lathe\"]`")]
    NoList { found: &'static str },
    /// The list is empty, or too long.
    #[error("the key \"departments\" has {count} names: write 1 to 256")]
    OtherCount { count: usize },
    /// One of them is not text.
    #[error("the key \"departments[{number}]\" has the type {found}: write a name in quotes")]
    NoName { number: usize, found: &'static str },
    /// A name is empty.
    #[error("the key \"departments[{number}]\" is empty: write a name there, or remove it")]
    EmptyName { number: usize },
    /// A name has a control character.
    #[error("the key \"departments[{number}]\" has the control character U+{code:04X}: write names without line breaks, tabs and other control characters")]
    ControlInName { number: usize, code: u32 },
    /// A name is repeated.
    #[error("the key \"departments[{number}]\": the name \"{name}\" occurs twice: give each department a name of its own")]
    NameTwice { number: usize, name: String },
}

/// Why what is fixed is not a table of departments and places.
#[derive(Debug, Drop, Error)]
pub enum PinsFault {
    /// It is not a table.
    #[error("the key \"fixed\" has the type {found}: write `[fixed]` on a line of its own, and below it a line such as `Saw = \"A\"` for each department that stays at its place")]
    NoTable {
        found: &'static str,
    },
    /// The name of a department has a control character; it is given as messages show it.
    #[error("the key \"fixed.{department}\" has the control character U+{code:04X}: write names without line breaks, tabs and other control characters")]
    ControlInDepartment {
        department: String,
        code: u32,
    },
    /// The name of a place has a control character.
    #[error("the key \"fixed.{department}\": the place's name has the control character U+{code:04X}: write names without line breaks, tabs and other control characters")]
    ControlInPlace {
        department: String,
        code: u32,
    },
    /// A place is not text.
    #[error("the key \"fixed.{department}\" has the type {found}: write the name of a place in quotes")]
    NoPlace {
        department: String,
        found: &'static str,
    },
}

/// Why what is at a key is not a table of departments with places. Numbers are counted from 1; a department's name is
/// given as messages show it.
#[derive(Debug, Drop, Error)]
pub enum ChoicesFault {
    /// It is not a table.
    #[error("\" has the type {found}: write it in brackets on a line of its own, and below it a line such as `Saw = [\"A\", \"B\"]` for each department that it concerns")]
    NoTable {
        found: &'static str,
    },
    /// What a department has is not a list.
    #[error(".{department}\" has the type {found}: write a list of places, as in `[\"A\", \"B\"]`")]
    NoList {
        department: String,
        found: &'static str,
    },
    /// An item of the list is not text.
    #[error(".{department}[{number}]\" has the type {found}: write the name of a place in quotes")]
    NoPlace {
        department: String,
        number: usize,
        found: &'static str,
    },
    /// No place is left to a department.
    #[error(".{department}\" has no place: name at least one, or remove the line")]
    NoneLeft {
        department: String,
    },
    /// The department has forbidden places too.
    #[error(".{department}\" is under `[forbidden]` too: keep one of the two lines")]
    Both {
        department: String,
    },
}

impl From<AllocError> for PlanError {
    ghost use Rattle.std.specs.Prelude.{◌≡◌};
    ghost use Rattle.plan_file.specs.declared.error.PlanError.TheVariants.{OutOfMemory};

    ghost from_gives = { λ _ e. e ≡ OutOfMemory };

    fn from(_error: AllocError) -> PlanError {
        PlanError::OutOfMemory
    }
}

/// Why two tables make no problem.
#[derive(Clone, Copy, Debug, PartialEq, Eq, Error)]
pub enum ProblemError {
    /// There are more departments than places.
    #[error("there are {departments} departments and {places} places: add places to their table, or take departments out of theirs")]
    TooManyDepartments { departments: usize, places: usize },
    /// Memory ran out.
    #[error("out of memory")]
    OutOfMemory,
}

impl From<AllocError> for ProblemError {
    ghost use Rattle.std.specs.Prelude.{◌≡◌};
    ghost use Rattle.plan_file.specs.declared.error.ProblemError.TheVariants.{OutOfMemory};

    ghost from_gives = { λ _ e. e ≡ OutOfMemory };

    fn from(_error: AllocError) -> ProblemError {
        ProblemError::OutOfMemory
    }
}

/// Why departments cannot be fixed at places.
#[derive(Debug, Drop, Error)]
pub enum FixingError {
    /// No department has the name.
    #[error("the key \"fixed.{department}\": no department has that name: correct it, or remove the line")]
    UnknownDepartment { department: String },
    /// No department has the name, which is that of a key of the plan.
    #[error("the key \"{key}\" is under `[fixed]`: move `[fixed]` and the lines that belong to it to the end of the plan")]
    KeyAmongFixed { key: String },
    /// No place has the name.
    #[error("the key \"fixed.{department}\": no place has the name \"{place}\": correct it, or remove the line")]
    UnknownPlace { department: String, place: String },
    /// Another department is fixed at the place.
    #[error("the key \"fixed.{department}\": another department is fixed at \"{place}\": give each a place of its own")]
    PlaceTwice { department: String, place: String },
    /// Memory ran out.
    #[error("out of memory")]
    OutOfMemory,
}

impl From<AllocError> for FixingError {
    ghost use Rattle.std.specs.Prelude.{◌≡◌};
    ghost use Rattle.plan_file.specs.declared.error.FixingError.TheVariants.{OutOfMemory};

    ghost from_gives = { λ _ e. e ≡ OutOfMemory };

    fn from(_error: AllocError) -> FixingError {
        FixingError::OutOfMemory
    }
}

/// Why the texts of two tables make no problem with names.
#[derive(Debug, Drop, Error)]
pub enum TablesError {
    /// The first text is not a table of flows.
    #[error("{0}")]
    Flows(TableError),
    /// The second text is not a table of distances, or of places.
    #[error("{0}")]
    Distances(TableError),
    /// The numbers in the table of flows have too many decimals.
    #[error("a number has more than 100 digits after the point: round the numbers, or choose a smaller unit")]
    FlowsTooFine,
    /// The numbers in the table of distances have too many decimals.
    #[error("a number has more than 100 digits after the point: round the numbers, or choose a smaller unit")]
    DistancesTooFine,
    /// The coordinates have too many decimals.
    #[error("a coordinate has more than 9 digits after the point: round the coordinates, or choose a smaller unit")]
    CoordinatesTooFine,
    /// Two places are too far apart.
    #[error("the places \"{from}\" and \"{to}\" lie too far apart: with the digits after its point dropped, a distance is at most 10^9; round the coordinates, keep fewer decimals or choose a larger unit")]
    TooFar { from: String, to: String },
    /// Both are tables, and make no problem.
    #[error("{0}")]
    Problem(ProblemError),
    /// What is fixed does not match the tables.
    #[error("{0}")]
    Fixing(FixingError),
    /// Memory ran out.
    #[error("out of memory")]
    OutOfMemory,
}

impl From<AllocError> for TablesError {
    ghost use Rattle.std.specs.Prelude.{◌≡◌};
    ghost use Rattle.plan_file.specs.declared.error.TablesError.TheVariants.{OutOfMemory};

    ghost from_gives = { λ _ e. e ≡ OutOfMemory };

    fn from(_error: AllocError) -> TablesError {
        TablesError::OutOfMemory
    }
}

/// Why a plan's costs and the places that it forbids do not fit its problem.
#[derive(Debug, Drop, Error)]
pub enum ChargesError {
    /// The text is not a table of costs.
    #[error("{0}")]
    Costs(TableError),
    /// The costs have more decimals than flows times distances.
    #[error("the costs have {decimals} decimals, more than flows and distances have together: write them with at most {most}")]
    TooFine {
        decimals: usize,
        most: usize,
    },
    /// The costs have too few decimals beside flows and distances.
    #[error("flows and distances have {decimals} decimals together, more than 9 above those of the costs: round them, as by `round = 3`, or choose smaller units")]
    TooCoarse {
        decimals: usize,
    },
    /// No department has the name.
    #[error("the key \"{key}.{department}\": no department has that name: correct it, or remove the line")]
    UnknownDepartment {
        key: &'static str,
        department: String,
    },
    /// No place has the name.
    #[error("the key \"{key}.{department}\": no place has the name \"{place}\": correct it, or remove it")]
    UnknownPlace {
        key: &'static str,
        department: String,
        place: String,
    },
    /// There are too many places beside departments with costs or forbidden places.
    #[error("there are {places} places, and departments with costs or forbidden places up to number {count}: these two numbers may add up to 256 at most, so list these departments first, or keep to 128 places")]
    NoRoom {
        places: usize,
        count: usize,
    },
    /// Memory ran out.
    #[error("out of memory")]
    OutOfMemory,
}

impl From<AllocError> for ChargesError {
    ghost use Rattle.std.specs.Prelude.{◌≡◌};
    ghost use Rattle.plan_file.specs.declared.error.ChargesError.TheVariants.{OutOfMemory};

    ghost from_gives = { λ _ e. e ≡ OutOfMemory };

    fn from(_error: AllocError) -> ChargesError {
        ChargesError::OutOfMemory
    }
}
