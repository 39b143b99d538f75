ghost use Rattle.std.specs.Prelude.{◌≡◌, ◌≤◌, length};
ghost use Rattle.fixed_num.specs.Norm.{IsNorm};
ghost use Rattle.convergence.specs.Change.{change_of};

use fixed_num::{Value, norm, norm_of_difference};

/// The norm of the change from `old` to `new`, and the norm of `new`, in units.
///
/// At most 30,000 values.
pub fn norms_of(new: &[Value], old: &[Value]) -> (u64, u64)
    requires few { length new.now ≤ 30000 }
    requires alike { length old.now ≡ length new.now }
    ensures change { IsNorm (change_of new.now old.now) result.0 }
    ensures size { IsNorm new.now result.1 }
{
    (norm_of_difference(new, old), norm(new))
}
