// The direction from a point towards another (document 02, point 2).
#![tactic(auto)]

ghost use Rattle.std.specs.Prelude.{◌≡◌, false};
ghost use Rattle.std.specs.Float.Ieee.{eq};
ghost use Rattle.geometry.specs.Plane.{zero32};
ghost use Rattle.geometry.specs.Bounds.{PointWithin};
ghost use Rattle.direction.specs.Direction.{squared_distance, direction_of};

use geometry::Vec2;

// It is 0 also of points that differ by so little that the squares round to 0.
#[tactic(auto, unfolding(crate::specs::Direction::squared_distance))]
pub fn squared_distance(p: Vec2, towards: Vec2) -> f32
    ensures { result ≡ squared_distance p towards }
{
    let v = p - towards;
    geometry::dot(v, v)
}

// v leads to p; divided by its length and turned around it leads from p. Each part is at most 2 in size, however near the points are.
pub fn direction_towards(p: Vec2, towards: Vec2) -> Vec2
    requires { PointWithin 1000000 p × (PointWithin 1000000 towards × (eq (squared_distance p towards) zero32 ≡ false)) }
    ensures { (result ≡ direction_of p towards) × PointWithin 2 result }
{
    let v = p - towards;
    let length = root::sqrt(squared_distance(p, towards));
    let k = 1.0 / length;
    Vec2 {
        x: -(v.x * k),
        y: -(v.y * k),
    }
}
