//! Why a text is not a matrix with names, and how to fix it.

use std::alloc::AllocError;
use std::fmt;
use thiserror::Error;

/// The position of a field: the line in which its record begins, and its number in the record, both counted from 1.
#[derive(Clone, Copy, Debug, PartialEq, Eq)]
pub struct Place {
    pub line: u64,
    pub field: usize,
}

impl fmt::Display for Place {
    fn fmt<W: fmt::Write>(&self, f: &mut fmt::Formatter<W>) -> fmt::Result {
        write!(f, "line {}, field {}", self.line, self.field)
    }
}

/// Why a field is not spelled as CSV.
#[derive(Clone, Copy, Debug, PartialEq, Eq, Error)]
pub enum Misspelling {
    /// Something follows the quote that ends a field.
    #[error("text follows the closing quote: write a quote that belongs to the field twice, or remove the quotes")]
    AfterQuote,
    /// A field has a quote, but does not begin with one.
    #[error("a field without quotes has a quote inside: put the whole field in quotes, and write each quote inside twice")]
    QuoteInside,
    /// A carriage return ends a field, and no line feed follows.
    #[error("a carriage return without a line feed follows: end each line in LF or CRLF")]
    LoneReturn,
    /// The text ends within a field in quotes.
    #[error("the quote that opens this field is never closed: close it, or save the file again if its end is missing")]
    OpenQuote,
}

/// The fault of a text that is not CSV, and where it is: the line in which the field begins, and its number in the
/// record.
#[derive(Clone, Copy, Debug, PartialEq, Eq, Error)]
#[error("{place}: {fault}")]
pub struct CsvFault {
    pub place: Place,
    pub fault: Misspelling,
}

/// Why a text is refused.
#[derive(Debug, Drop, Error)]
pub enum TableError {
    /// There is no record.
    #[error("the table is empty: begin with a line of an empty field and the names, as `,Saw,Lathe`")]
    Empty,
    /// The first record has one field alone.
    #[error("line {line} has no name: write an empty field and then 1 to 256 names, as in `,Saw,Lathe`")]
    NoName {
        line: u64,
    },
    /// The first record has more than 256 names.
    #[error("line {line} has {count} names: at most 256 are read, so split the table")]
    TooManyNames {
        line: u64,
        count: usize,
    },
    /// There is no first record, which names the columns.
    #[error("the table is empty: begin with the line `{head}`, and write a line for each {item} below it")]
    NoHead {
        head: &'static str,
        item: &'static str,
    },
    /// The first record does not name the columns.
    #[error("line {line}: expected the line `{head}`: begin with it, and write a line for each {item} below it")]
    OtherHead {
        line: u64,
        head: String,
        item: &'static str,
    },
    /// There is no place.
    #[error("the table has no place: write a line for each below the first")]
    NoPlace,
    /// There are more than 256 places.
    #[error("the table has {count} places: at most 256 are read, so split the table")]
    TooManyPlaces {
        count: usize,
    },
    /// There is no row.
    #[error("the table has no row: write a line for each department that pays below the first")]
    NoRow,
    /// There are more than 256 rows.
    #[error("the table has {count} rows: at most 256 are read")]
    TooManyRows {
        count: usize,
    },
    /// A row begins with a name that no department has.
    #[error("{place}: no department has the name \"{name}\": correct it, or remove its line")]
    OtherDepartment {
        place: Place,
        name: String,
    },
    /// A column has a name that no place has.
    #[error("{place}: no place has the name \"{name}\": correct it, or remove its column")]
    OtherPlace {
        place: Place,
        name: String,
    },
    /// A place has no column.
    #[error("the column \"{name}\" is missing: write a column for each place")]
    MissingColumn {
        name: String,
    },
    /// There is no pair, and so no department.
    #[error("the list has no pair: write a line for each below the first, or name the departments in the plan")]
    NoPair,
    /// There are more than 256 departments; this is the position of another one.
    #[error("{place}: the name \"{name}\" is that of a 257th department: at most 256 are read, so split the list")]
    TooManyDepartments {
        place: Place,
        name: String,
    },
    /// A line of a list ends early.
    #[error("{place} is missing: write two names and a number on each line")]
    MissingField {
        place: Place,
    },
    /// A name is not one of the departments'.
    #[error("{place}: no department has the name \"{name}\": correct it, or add it to the departments of the plan")]
    UnknownName {
        place: Place,
        name: String,
    },
    /// A pair is repeated.
    #[error("{place}: the pair from \"{from}\" to \"{to}\" occurs twice: write one line with the sum of both, or say `duplicates = \"sum\"` in the plan")]
    PairTwice {
        place: Place,
        from: String,
        to: String,
    },
    /// A name is empty.
    #[error("{place} is empty: write a name there, or remove its column or its line")]
    EmptyName {
        place: Place,
    },
    /// A name has a control character.
    #[error("{place}: the name has the control character U+{code:04X}: write names without line breaks, tabs and other control characters")]
    ControlInName {
        place: Place,
        code: u32,
    },
    /// A name is repeated.
    #[error("{place}: the name \"{name}\" occurs twice: give each a name of its own")]
    NameTwice {
        place: Place,
        name: String,
    },
    /// The records end before that of a name.
    #[error("the row \"{name}\" is missing: write a row for each column")]
    MissingRow {
        name: String,
    },
    /// A row begins with a name that no column has.
    #[error("{place}: no column has the name \"{found}\": give the rows the columns' names, in any order")]
    NoColumn {
        place: Place,
        found: String,
    },
    /// A record ends before its last cell.
    #[error("{place} is missing: write a number for each column")]
    MissingCell {
        place: Place,
    },
    /// Names differ only in case and blanks.
    #[error("the names \"{first}\" and \"{second}\" differ only in capital letters or blanks: spell them alike, or give one another name")]
    NamesAlike {
        first: String,
        second: String,
    },
    /// The first field is a number.
    #[error("line {line} begins with the number \"{word}\" where names should be: write an empty field and then the names, as in `,Saw,Lathe`")]
    NoNames {
        line: u64,
        word: String,
    },
    /// Two places are at the same point.
    #[error("the places \"{first}\" and \"{second}\" are at the same point: give each its own")]
    SamePoint {
        first: String,
        second: String,
    },
    /// A number can be read by a point and by a comma.
    #[error("{place}: \"{word}\" can be read in two ways, by a decimal point and by a decimal comma: say `decimal_mark = \".\"` or `decimal_mark = \",\"` in the plan")]
    TwoReadings {
        place: Place,
        word: String,
    },
    /// A record has a cell too many.
    #[error("{place}: the cell \"{word}\" is one too many: remove it, or put a number with a comma in quotes")]
    ExtraCell {
        place: Place,
        word: String,
    },
    /// A cell is not a decimal number.
    #[error("{place}: \"{word}\" is not a number: write digits and at most one decimal mark, such as `12`, `-0.25` or `1e3`, with no unit")]
    NotANumber {
        place: Place,
        word: String,
    },
    /// A number is out of range once all are made whole.
    #[error("{place}: \"{word}\" is too large: times the power of ten that makes all numbers whole it lies outside -10^9 to 10^9; round the numbers or choose a larger unit")]
    TooLarge {
        place: Place,
        word: String,
    },
    /// The amounts of a pair add up to too much.
    #[error("{place}: the amounts from \"{from}\" to \"{to}\" add up to too much: times the power of ten that makes all numbers whole the sum lies outside -10^9 to 10^9; round the numbers or choose a larger unit")]
    SumTooLarge {
        place: Place,
        from: String,
        to: String,
    },
    /// The two halves of a table differ although each completes the other.
    #[error("the cells from \"{from}\" to \"{to}\" and back hold different numbers: with `symmetric = true` leave one of them empty, or write the same number in both")]
    NotMirrored {
        from: String,
        to: String,
    },
    /// A row and a column hold the sums of the others.
    #[error("the row and the column \"{name}\" hold the sums of the others: remove both, since they would count as one more")]
    Total {
        name: String,
    },
    /// The file is a workbook, or another archive.
    #[error("the file is a workbook, not a text: save its sheet as CSV")]
    Workbook,
    /// The text is not CSV.
    #[error("{0}")]
    NotCsv(#[from] CsvFault),
    /// A record is not UTF-8.
    #[error("line {line} is not UTF-8: save the table as \"CSV UTF-8\"")]
    NotText {
        line: u64,
    },
    /// Memory ran out.
    #[error("out of memory")]
    OutOfMemory,
}

impl From<AllocError> for TableError {
    ghost use Rattle.std.specs.Prelude.{◌≡◌};
    ghost use Rattle.plan_table.specs.declared.error.TableError.TheVariants.{OutOfMemory};

    ghost from_gives = { λ _ e. e ≡ OutOfMemory };

    fn from(_error: AllocError) -> TableError {
        TableError::OutOfMemory
    }
}
