//! The two matrices of an instance.

ghost use Rattle.std.specs.Prelude.{◌≡◌, ◌<◌};
ghost use Rattle.qap_cost.specs.Instance.{entry};
ghost use Rattle.qap_cost.specs.Range.{AllInRange, InRange};
ghost use Rattle.qap_cost.specs.Row.{IsRow};
ghost use Rattle.gilmore_lawler.specs.Table.{matrix_of};

use qap_cost::Instance;

/// Which of the two matrices: A, the flows between facilities, or B, the distances between locations.
#[derive(Clone, Copy)]
pub enum Side {
    Flow,
    Distance,
}

/// Row `i` of that matrix.
pub fn row_of(instance: &Instance, side: Side, i: usize) -> &[i64]
    requires { i < instance.now.size }
    ensures row { IsRow instance.now.size (matrix_of instance.now side) i result.now }
    ensures range { AllInRange result.now }
{
    match side {
        Side::Flow => instance.a_row(i),
        Side::Distance => instance.b_row(i),
    }
}

/// Row `i`, column `j` of that matrix.
pub fn entry_at(instance: &Instance, side: Side, i: usize, j: usize) -> i64
    requires row { i < instance.now.size }
    requires column { j < instance.now.size }
    ensures value { result ≡ entry instance.now.size (matrix_of instance.now side) i j }
    ensures range { InRange result }
{
    match side {
        Side::Flow => instance.a(i, j),
        Side::Distance => instance.b(i, j),
    }
}

/// An entry in 32 bits, which hold it.
pub fn narrow(entry: i64) -> i32
    requires { InRange entry }
    ensures { result ≡ entry }
{
    entry as i32
}
