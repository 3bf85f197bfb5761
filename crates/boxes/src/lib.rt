// What an edge says of every point of a box at once, at the price of one corner; and the box that holds every sample of a step. A search leaves
// out by it what it cannot reach. Nothing here knows of files, decks or seats.
#![tactic(auto)]

ghost use Rattle.std.specs.Prelude.{◌≡◌, ◌<◌};
ghost use Rattle.boxes.specs.Box.{larger_end, largest_cross, is_apart, box_test_of};
ghost use Rattle.boxes.specs.StepBox.{step_box};

use geometry::Vec2;
use ring::Ring;

// A box, by the corner of its least coordinates and the one of its greatest, ends included.
#[derive(Clone, Copy, Debug, PartialEq)]
pub struct BoundingBox {
    pub low: Vec2,
    pub high: Vec2,
}

// What an edge says of the polygon test over a whole box: Outside at every point, Inside at none, or neither is known.
#[derive(Clone, Copy, Debug, PartialEq, Eq)]
pub enum BoxTest {
    Never,
    Next,
    Maybe,
}

// The end of a range at which z times it is largest.
fn larger_end(z: f32, low: f32, high: f32) -> f32
    ensures { result ≡ larger_end z low high }
{
    if z >= 0.0 { high } else { low }
}

// The cross product of the edge at the corner of the box where it is largest.
#[tactic(auto, unfolding(crate::specs::Box::largest_cross))]
fn largest_cross(bounds: BoundingBox, a: Vec2, b: Vec2) -> f32
    ensures { result ≡ largest_cross bounds a b }
{
    let edge = b - a;
    let corner = Vec2 {
        x: larger_end(edge.y, bounds.high.x, bounds.low.x),
        y: larger_end(edge.x, bounds.low.y, bounds.high.y),
    };
    geometry::perp_dot(edge, corner - a)
}

// Whether no number from low to high is in the range from a to b, widened as the edge's box is.
#[tactic(auto, unfolding(crate::specs::Box::is_apart))]
fn is_apart(low: f32, high: f32, a: f32, b: f32) -> bool
    ensures { result ≡ is_apart low high a b }
{
    high < geometry::min(a, b) - 1e-6 || geometry::max(a, b) + 1e-6 < low
}

// The edge from a to b over a box of points.
#[tactic(auto, unfolding(crate::specs::Box::box_test_of))]
pub fn box_test(bounds: BoundingBox, a: Vec2, b: Vec2) -> BoxTest
    ensures { result ≡ box_test_of bounds a b }
{
    if largest_cross(bounds, a, b) <= -1e-4 {
        return BoxTest::Never;
    }
    if is_apart(bounds.low.x, bounds.high.x, a.x, b.x)
        || is_apart(bounds.low.y, bounds.high.y, a.y, b.y)
    {
        return BoxTest::Next;
    }
    BoxTest::Maybe
}

// The box that holds every sample of a ring, and of the rings of the steps before it.
#[tactic(auto, unfolding(crate::specs::StepBox::step_box))]
pub fn step_box(ring: Ring) -> BoundingBox
    ensures { result ≡ step_box ring.center ring.reach ring.step }
{
    let p = ring.center;
    let width = ring.reach * ring.step as f32;
    BoundingBox {
        low: Vec2 {
            x: p.x - width,
            y: p.y - width,
        },
        high: Vec2 {
            x: p.x + width,
            y: p.y + width,
        },
    }
}
