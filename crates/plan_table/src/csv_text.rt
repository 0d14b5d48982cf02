//! Whether a text is CSV (RFC 4180), where a semicolon or a tab may replace the comma, and a line may also end with a
//! line feed alone.

ghost use Rattle.std.specs.Prelude.{◌≡◌, MatchResult};
ghost use Rattle.csv.specs.Reading.{strip_bom};
ghost use Rattle.plan_table.specs.CsvText.{IsCsv};
ghost use Rattle.plan_table.specs.Marks.{mark_of};
ghost use Rattle.plan_table.specs.Scan.{check_end, first_fault, moved, next_stand, place_after, reached_after};

use crate::error::{CsvFault, Misspelling, Place};
use crate::separator::Separator;

/// What a byte is to CSV.
#[derive(Clone, Copy)]
pub enum Mark {
    Quote,
    /// A separator of fields.
    Divider,
    Feed,
    Return,
    Other,
}

/// The state of a text within a field.
#[derive(Clone, Copy)]
pub enum Stand {
    /// At the beginning of a field.
    Start,
    /// In a field without quotes.
    Bare,
    /// In a field in quotes.
    Quoted,
    /// After a quote in such a field, which ends it unless another one follows.
    Closed,
    /// After a carriage return that ends a field.
    Returned,
}

/// How far a text has been read.
#[derive(Clone, Copy)]
pub struct Reached {
    pub stand: Stand,
    /// The line that has been reached.
    pub line: u64,
    /// Where the field begins that has been reached.
    pub place: Place,
}

/// Checks that a text is CSV; otherwise reports its first fault.
pub fn check_csv(separator: Separator, text: &[u8]) -> Result<(), CsvFault>
    ensures first { result ≡ first_fault separator text.now }
    ensures exactly { MatchResult result (λ _. IsCsv separator text.now) (λ _. IsCsv separator text.now → ⊥) }
{
    check(separator, text)
}

/// A text without the byte order mark that it may begin with.
pub fn without_bom(text: &[u8]) -> &[u8]
    ensures { result.now ≡ strip_bom text.now }
{
    match text.strip_prefix(&[0xEF, 0xBB, 0xBF]) {
        Some(rest) => rest,
        None => text,
    }
}

/// Checks that a text is CSV.
fn check(separator: Separator, text: &[u8]) -> Result<(), CsvFault>
    ensures { result ≡ first_fault separator text.now }
{
    let mut reached = Reached {
        stand: Stand::Start,
        line: 1,
        place: Place { line: 1, field: 1 },
    };
    for byte in text {
        reached = after(separator, reached, *byte)?;
    }
    check_end(reached)
}

/// What is reached with a byte more.
fn after(separator: Separator, reached: Reached, byte: u8) -> Result<Reached, CsvFault>
    ensures { result ≡ reached_after separator reached byte }
{
    match next_stand(reached.stand, mark_of(separator, byte)) {
        Ok(stand) => Ok(moved(separator, reached, byte, stand)),
        Err(fault) => Err(CsvFault {
            place: reached.place,
            fault,
        }),
    }
}

/// The line and the field that are reached with a byte, where it leads there.
fn moved(separator: Separator, reached: Reached, byte: u8, stand: Stand) -> Reached
    ensures { result ≡ moved separator reached byte stand }
{
    let line = if byte == b'\n' {
        reached.line.saturating_add(1)
    } else {
        reached.line
    };
    Reached {
        stand,
        line,
        place: place_after(separator, reached.place, byte, stand, line),
    }
}

/// The start of the field that is reached with a byte: at the start of a field, that is a new one.
fn place_after(separator: Separator, place: Place, byte: u8, stand: Stand, line: u64) -> Place
    ensures { result ≡ place_after separator place byte stand line }
{
    match stand {
        Stand::Start if byte == separator.byte() => Place {
            line,
            field: place.field.saturating_add(1),
        },
        Stand::Start => Place { line, field: 1 },
        _ => place,
    }
}

/// What a byte is to CSV.
fn mark_of(separator: Separator, byte: u8) -> Mark
    ensures { result ≡ mark_of separator byte }
{
    if byte == b'"' {
        Mark::Quote
    } else if byte == separator.byte() {
        Mark::Divider
    } else if byte == b'\n' {
        Mark::Feed
    } else if byte == b'\r' {
        Mark::Return
    } else {
        Mark::Other
    }
}

/// Where the text is after a byte more, or what is wrong with that byte.
fn next_stand(stand: Stand, mark: Mark) -> Result<Stand, Misspelling>
    ensures { result ≡ next_stand stand mark }
{
    match (stand, mark) {
        (Stand::Start, Mark::Quote) => Ok(Stand::Quoted),
        (Stand::Start, Mark::Other) => Ok(Stand::Bare),
        (Stand::Bare, Mark::Quote) => Err(Misspelling::QuoteInside),
        (Stand::Bare, Mark::Other) => Ok(Stand::Bare),
        (Stand::Quoted, Mark::Quote) => Ok(Stand::Closed),
        (Stand::Quoted, _) => Ok(Stand::Quoted),
        (Stand::Closed, Mark::Quote) => Ok(Stand::Quoted),
        (Stand::Closed, Mark::Other) => Err(Misspelling::AfterQuote),
        (Stand::Returned, Mark::Feed) => Ok(Stand::Start),
        (Stand::Returned, _) => Err(Misspelling::LoneReturn),
        (_, Mark::Return) => Ok(Stand::Returned),
        (_, _) => Ok(Stand::Start),
    }
}

/// Checks that a text may end where it is.
fn check_end(reached: Reached) -> Result<(), CsvFault>
    ensures { result ≡ check_end reached }
{
    let fault = match reached.stand {
        Stand::Quoted => Misspelling::OpenQuote,
        Stand::Returned => Misspelling::LoneReturn,
        _ => return Ok(()),
    };
    Err(CsvFault {
        place: reached.place,
        fault,
    })
}
