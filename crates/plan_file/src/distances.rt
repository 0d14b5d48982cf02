//! The distances between all points of a list.

ghost use Rattle.std.specs.Prelude.{◌≡◌, ◌+◌, ◌*◌, ◌<◌, ◌≤◌, All, MatchOption, MatchResult, length, ℕ};
ghost use Rattle.plan_table.specs.Decimal.{max_entry};
ghost use Rattle.plan_table.specs.Places.{IsNear};
ghost use Rattle.plan_file.specs.Distances.{AreDistances, IsDistanceAt, IsDistanceFault, point_at};
ghost use Rattle.plan_file.specs.Metric.{IsDistance, IsFine, max_coordinate_places};
ghost use Rattle.plan_file.specs.declared.distances.DistanceError.TheVariants.{OutOfMemory as WantOfMemory};

use crate::metric::{Metric, distance};
use plan_table::{MAX_ENTRY, Point};
use std::alloc::{AllocError, Global};
use thiserror::Error;

/// Why points have no distances.
#[derive(Clone, Copy, Debug, PartialEq, Eq, Error)]
pub enum DistanceError {
    /// The points with these numbers are more than 10^9 apart, once all distances are whole.
    #[error("points {0} and {1} lie more than 10^9 apart")]
    TooFar(usize, usize),
    /// Memory ran out.
    #[error("out of memory")]
    OutOfMemory,
}

impl From<AllocError> for DistanceError {
    ghost from_gives = { λ _ e. e ≡ WantOfMemory };

    fn from(_error: AllocError) -> DistanceError {
        DistanceError::OutOfMemory
    }
}

/// The distance of each two of the points, by rows; a coordinate `c` represents `c / 10^scale`.
pub fn distance_matrix(
    alloc: Global,
    metric: Metric,
    scale: usize,
    points: &[Point],
) -> Result<Vec<i64>, DistanceError>
    requires fine { IsFine metric }
    requires scale { scale ≤ max_coordinate_places }
    requires few { length points.now ≤ 256 }
    requires near { All IsNear points.now }
    ensures { MatchResult result (λ v. AreDistances metric scale points.now v.items) (IsDistanceFault metric scale points.now) }
{
    let n = points.len();
    let mut entries = Vec::with_capacity(alloc, n * n)?;
    for k in 0..n * n {
        let Some(entry) = entry_between(metric, scale, &points[k / n], &points[k % n]) else {
            return Err(DistanceError::TooFar(k / n, k % n));
        };
        entries.push(entry).map_err(|_| DistanceError::OutOfMemory)?;
    }
    Ok(entries)
}

/// How far apart two points lie, where that is at most 10^9.
fn entry_between(metric: Metric, scale: usize, p: &Point, q: &Point) -> Option<i64>
    requires fine { IsFine metric }
    requires scale { scale ≤ max_coordinate_places }
    requires p { IsNear p.now }
    requires q { IsNear q.now }
    ensures { MatchOption result ((d : ℕ) × IsDistance metric scale p.now q.now d × (max_entry < d)) (IsDistanceAt metric scale p.now q.now) }
{
    let distance = distance(metric, scale, p, q);
    if distance > u128::from(MAX_ENTRY) {
        return None;
    }
    Some(distance as i64)
}
