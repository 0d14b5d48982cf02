//! Which entries exist, and which are available.

ghost use Rattle.std.specs.Prelude.{◌≡◌};
ghost use Rattle.tuple_space.specs.Entry.{can_be_had, is_counted, is_open, is_there};
ghost use Rattle.tuple_space.specs.Places.{holds_one};

use crate::entry::{Claim, Entry};
use tuple_match::{Template, matches};

/// Whether the entry is there: its lease is live, or somebody holds it.
pub(crate) fn is_there(entry: &Entry, moment: u64) -> bool
    ensures { result ≡ is_there moment entry.now }
{
    entry.end.is_live(moment) || entry.holds.is_held()
}

/// Whether the claim allows the entry.
fn is_open(entry: &Entry, claim: Claim, moment: u64) -> bool
    ensures { result ≡ is_open claim moment entry.now }
{
    if !entry.end.is_live(moment) || entry.holds.is_taken() {
        return false;
    }
    match claim {
        Claim::Read => true,
        Claim::Take => !entry.holds.is_held(),
        Claim::TakeBy(holder) => entry.holds.are_all_by(holder),
    }
}

/// Whether the claim allows the entry and its tuple matches the template.
pub(crate) fn can_be_had(entry: &Entry, claim: Claim, moment: u64, template: &Template) -> bool
    ensures { result ≡ can_be_had claim moment template.now entry.now }
{
    is_open(entry, claim, moment) && matches(template, &entry.tuple)
}

/// Whether the entry exists and its tuple matches the template.
pub(crate) fn is_counted(entry: &Entry, moment: u64, template: &Template) -> bool
    ensures { result ≡ is_counted moment template.now entry.now }
{
    is_there(entry, moment) && matches(template, &entry.tuple)
}

/// Whether a place holds such an entry.
pub(crate) fn is_counted_in(place: &Option<Entry>, moment: u64, template: &Template) -> bool
    ensures { result ≡ holds_one (is_counted moment template.now) place.now }
{
    match place {
        Some(entry) => is_counted(entry, moment, template),
        None => false,
    }
}
