//! The separator of the fields in a table's text.

ghost use Rattle.std.specs.Prelude.{◌≡◌, false};
ghost use Rattle.plan_table.specs.Marks.{byte_of};
ghost use Rattle.plan_table.specs.Separators.{count_outside, separator_by, separator_of};

/// The separator of the fields in a table's text.
#[derive(Clone, Copy, Debug, PartialEq, Eq)]
pub enum Separator {
    Comma,
    Semicolon,
    Tab,
}

impl Separator {
    /// Its byte.
    pub fn byte(self) -> u8
        ensures { result ≡ byte_of self }
    {
        match self {
            Separator::Comma => b',',
            Separator::Semicolon => b';',
            Separator::Tab => b'\t',
        }
    }
}

/// The separator of a text: of the comma, the semicolon and the tab the one that its first line has most often outside quotes.
/// Of two that it has as often, that is the one named first here.
pub fn separator_of(text: &[u8]) -> Separator
    ensures { result ≡ separator_of text.now }
{
    let commas = count_outside(text, b',');
    let semicolons = count_outside(text, b';');
    let tabs = count_outside(text, b'\t');
    separator_by(commas, semicolons, tabs)
}

/// The separator that is there so often.
fn separator_by(commas: usize, semicolons: usize, tabs: usize) -> Separator
    ensures { result ≡ separator_by commas semicolons tabs }
{
    if commas < semicolons.max(tabs) {
        if semicolons < tabs {
            Separator::Tab
        } else {
            Separator::Semicolon
        }
    } else {
        Separator::Comma
    }
}

/// How often the first line of a text has a byte outside quotes.
fn count_outside(text: &[u8], byte: u8) -> usize
    ensures { result ≡ count_outside byte false text.now }
{
    let mut quoted = false;
    let mut count = 0;
    for next in text {
        if *next == b'"' {
            quoted = !quoted;
        } else if !quoted {
            if *next == b'\n' {
                return count;
            }
            if *next == byte {
                count += 1;
            }
        }
    }
    count
}
