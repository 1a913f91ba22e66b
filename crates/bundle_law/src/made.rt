// The law of what is made of a bundle.
ghost use Rattle.std.specs.Prelude.{◌≡◌, ℕ};
ghost use Rattle.dup_guard.specs.Parts as guard;
ghost use Rattle.op_log.specs.RestParts as log;
ghost use Rattle.check_point.specs.PointParts as point;
ghost use Rattle.join_bundle.specs.declared.part.BundleParts.{BundleParts};
ghost use Rattle.join_bundle.specs.Bundles.{IsBundle};
ghost use Rattle.join_bundle.specs.Conditions.{noted};
ghost use Rattle.bundle_law.specs.Made.{guard_parts, point_parts, number_in};

/// A guard, a point and a log can be made of what a bundle has: each takes its parts. The guard's number of a
/// client is the greatest that the bundle notes of it, so no transaction of the rest has a greater one.
pub fn law_made()
    ensures guard { (parts : BundleParts) → IsBundle parts → guard.AreParts (guard_parts parts) }
    ensures point { (parts : BundleParts) → IsBundle parts → point.AreParts (point_parts parts) }
    ensures log { (parts : BundleParts) → IsBundle parts → log.AreParts parts.rest }
    ensures numbers { (parts : BundleParts) (client : ℕ) → IsBundle parts → number_in (guard.part_of (guard_parts parts) client) ≡ noted parts.clients client }
{}
