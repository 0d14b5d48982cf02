//! How long a tuple stays.

ghost use Rattle.std.specs.Prelude.{◌≡◌, ◌≤◌, ◌<◌};
ghost use Rattle.tuple_space.specs.Lease.{granted, granted_end, is_live, is_permanent, later};
ghost use Rattle.tuple_space.specs.Space.{most};

/// The longest lease that is granted, in milliseconds: one day.
const LONGEST_LEASE: u64 = 86_400_000;

/// How long a tuple is asked to stay.
#[derive(Clone, Copy, Debug, PartialEq, Eq)]
pub enum Lease {
    /// Until it is taken.
    Forever,
    /// For this many milliseconds, at most 86,400,000.
    Ms(u64),
}

/// When a granted lease ends.
#[derive(Clone, Copy, Debug, PartialEq, Eq)]
pub enum LeaseEnd {
    /// Never: the tuple is permanent.
    Never,
    /// At this moment, at which the lease is no longer live.
    At(u64),
}

impl Lease {
    /// The end of this lease if it is granted at the moment.
    pub fn granted(self, moment: u64) -> LeaseEnd
        requires { moment ≤ most }
        ensures { result ≡ granted moment self }
    {
        match self {
            Lease::Forever => LeaseEnd::Never,
            Lease::Ms(asked) => LeaseEnd::At(granted_end(moment, asked)),
        }
    }
}

/// The end of a lease of this many milliseconds that is granted at the moment: for at most a day. This applies to
/// tuples and to transactions.
pub fn granted_end(moment: u64, asked: u64) -> u64
    requires { moment ≤ most }
    ensures { result ≡ granted_end moment asked }
{
    moment + asked.min(LONGEST_LEASE)
}

impl LeaseEnd {
    /// Whether the lease is live at the moment: before its end.
    pub fn is_live(self, moment: u64) -> bool
        ensures { result ≡ is_live moment self }
    {
        match self {
            LeaseEnd::Never => true,
            LeaseEnd::At(end) => moment < end,
        }
    }

    /// Whether a tuple with this lease is permanent.
    pub fn is_permanent(self) -> bool
        ensures { result ≡ is_permanent self }
    {
        match self {
            LeaseEnd::Never => true,
            LeaseEnd::At(_) => false,
        }
    }

    /// The later of two ends.
    pub fn later(self, other: LeaseEnd) -> LeaseEnd
        ensures { result ≡ later self other }
    {
        match (self, other) {
            (LeaseEnd::At(end), LeaseEnd::At(other)) => LeaseEnd::At(end.max(other)),
            _ => LeaseEnd::Never,
        }
    }
}
