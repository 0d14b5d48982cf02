//! What a search leaves behind.

use crate::worker::report::Report;
use space_txn::TxnSpace;

/// What a search leaves at its end.
#[derive(Drop)]
pub struct Run {
    /// The space at its end.
    pub space: TxnSpace,
    /// The report of each worker, including those lost in its place.
    pub reports: Vec<Report>,
}
