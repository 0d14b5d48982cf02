//! Which instances and scales an ascent accepts.

ghost use Rattle.std.specs.Prelude.{◌↔◌, ◌≤◌, ◌^◌, IsTrue};
ghost use Rattle.dual_ascent.specs.AscentRange.{AreSmall, HasRange};

use pair_duals::{MAX_SCALE, is_in_scale};
use qap_cost::Instance;

/// The greatest size of an instance.
const MAX_ASCENT_SIZE: usize = 64;

/// Whether an ascent takes the instance at this scale: whether its size is from 1 to 64, the scale from 1 to 2^20, and
/// no product of an entry of A and one of B, scaled, further from 0 than 2^45.
///
/// That is the limit of a dual, and lower than that of products in the crate `pair_duals`, 2^52: the pair duals that an
/// ascent falls back on charge a pair the least that its products can be.
pub fn has_range(instance: &Instance, scale: u32) -> bool
    ensures { IsTrue result ↔ HasRange instance.now scale }
{
    instance.size() <= MAX_ASCENT_SIZE
        && scale != 0
        && scale <= MAX_SCALE
        && are_small(instance, scale)
}

/// Whether no such product is further from 0 than 2^45.
fn are_small(instance: &Instance, scale: u32) -> bool
    requires { scale ≤ 2 ^ 20 }
    ensures { IsTrue result ↔ AreSmall instance.now scale }
{
    is_in_scale::<i64>(instance, scale * 128)
}
