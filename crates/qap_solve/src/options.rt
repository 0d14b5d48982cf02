//! The options of a run.

ghost use Rattle.std.specs.Prelude.{◌≡◌, ◌↔◌, IsTrue, MatchOption};
ghost use Rattle.qap_solve.specs.Options.{AreLimited, AreCountable};

/// The most workers.
pub const MAX_WORKERS: u16 = 64;

/// The longest lease, in milliseconds: a day.
pub const MAX_LEASE_MS: u64 = 86_400_000;

/// The most nodes that a limit may allow.
pub const MAX_NODES: u64 = 1 << 62;

/// The options of a run.
#[derive(Clone, Copy, Debug, PartialEq, Eq)]
pub struct Options {
    /// The number of workers, each in its own thread: from 1 to 64.
    pub workers: u16,
    /// For how many milliseconds a worker's transaction is leased: from 1 to 86,400,000.
    pub lease_ms: u64,
    /// After how many nodes the search stops, at most 2^62; `None`: it goes on to its end.
    pub nodes: Option<u64>,
    /// Whether the certificate is written in place of the solution.
    pub cert: bool,
}

impl Options {
    /// The options with these values; `None` if the workers, the lease or the nodes are outside their limits.
    pub fn new(workers: u16, lease_ms: u64, nodes: Option<u64>, cert: bool) -> Option<Options>
        ensures { MatchOption result
            (AreLimited (record { workers = workers; lease_ms = lease_ms; nodes = nodes; cert = cert }) → ⊥)
            (λ options. (options ≡ record { workers = workers; lease_ms = lease_ms; nodes = nodes; cert = cert }) × AreLimited options) }
    {
        if workers == 0 || workers > MAX_WORKERS || lease_ms == 0 || lease_ms > MAX_LEASE_MS {
            return None;
        }
        if !are_countable(nodes) {
            return None;
        }
        Some(Options {
            workers,
            lease_ms,
            nodes,
            cert,
        })
    }
}

/// Whether a limit of nodes is 2^62 at most.
fn are_countable(nodes: Option<u64>) -> bool
    ensures { IsTrue result ↔ AreCountable nodes }
{
    match nodes {
        Some(nodes) => nodes <= MAX_NODES,
        None => true,
    }
}
