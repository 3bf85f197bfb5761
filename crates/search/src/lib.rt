// The polygon test and heights over a ship file in place (document 01, sections 3 and 6). Nothing here knows of seats or records.
#![tactic(auto)]

ghost use Rattle.std.specs.Prelude.{◌≡◌, ◌<◌, length, get_or};
ghost use Rattle.geometry.specs.Heights.{mean_height};
ghost use Rattle.ship.specs.Model.{point_of, height_of, corners_of, polygon_corners};
ghost use Rattle.search.specs.OnDeck.{passes_at, next_hit, edge_height, height_on};

use decks::Deck;
use geometry::{EdgeTest, Height, HeightSum, Vec2};
use hits::Hit;

// The coordinates of polygon k's vertex j.
pub fn corner_point(deck: &Deck<'_>, k: usize, j: usize) -> Vec2
    requires { (k < length deck.now.polygons) × (j < length (corners_of deck.now k)) }
    ensures { result ≡ point_of deck.now (get_or (corners_of deck.now k) j 0) }
{
    deck.point(deck.corner(k, j))
}

// Its height, on a deck that has heights.
fn corner_height(deck: &Deck<'_>, k: usize, j: usize) -> f32
    requires { (k < length deck.now.polygons)
        × ((j < length (corners_of deck.now k)) × (0 < length deck.now.heights)) }
    ensures { result ≡ height_of deck.now (get_or (corners_of deck.now k) j 0) }
{
    deck.height(deck.corner(k, j))
}

// Whether polygon k holds p, a point in the deck's own coordinates. Inline: a call for each polygon makes a search slower.
#[inline]
#[tactic(auto, using(crate::proofs::EdgeWalk::passing))]
pub fn point_in_polygon(deck: &Deck<'_>, k: usize, p: Vec2) -> bool
    requires { k < length deck.now.polygons }
    ensures { result ≡ passes_at deck.now p k }
{
    let answer = geometry::first_of_edges(
        deck.corner_count(k),
        |j| corner_point(deck, k, j),
        |a, b| match geometry::edge_test(p, a, b) {
            EdgeTest::Inside => Some(true),
            EdgeTest::Outside => Some(false),
            EdgeTest::Next => None,
        },
    );
    answer.unwrap_or(true)
}

// The first polygon from number k on that passes at q, which is sample i.
pub fn next_hit(deck: &Deck<'_>, q: Vec2, i: usize, k: usize) -> Option<Hit>
    ensures { result ≡ next_hit deck.now q i k }
{
    let count = deck.polygon_count();
    'polygons: for polygon in k..count {
        if point_in_polygon(deck, polygon, q) {
            return Some(Hit { sample: i, polygon });
        }
    }
    None
}

// The mean of the heights of polygon k's vertices.
#[tactic(auto, using(crate::proofs::HeightLoop::sums))]
fn mean_height(deck: &Deck<'_>, k: usize) -> f32
    requires { (k < length deck.now.polygons) × (0 < length deck.now.heights) }
    ensures { result ≡ mean_height (polygon_corners deck.now k) }
{
    let count = deck.corner_count(k);
    let mut sum = HeightSum::first(corner_height(deck, k, 0));
    'corners: for j in 1..count {
        sum = sum.plus(corner_height(deck, k, j));
    }
    sum.mean()
}

// The height at a place along the edge from vertex v to vertex w, where the place is on it.
#[tactic(auto, unfolding(crate::specs::OnDeck::edge_height))]
fn edge_height(deck: &Deck<'_>, place: Vec2, v: usize, w: usize) -> Option<Height>
    requires { (v < length deck.now.vertices) × ((w < length deck.now.vertices) × (0 < length deck.now.heights)) }
    ensures { result ≡ edge_height deck.now place v w }
{
    let a = deck.point(v);
    let b = deck.point(w);
    if !geometry::on_segment(place, a, b) {
        return None;
    }
    Some(geometry::height_along(place, a, b, deck.height(v), deck.height(w)))
}

// The height of polygon k at a place: along the first edge that has the place on it, otherwise the mean.
#[tactic(auto, using(crate::proofs::EdgeWalk::heights))]
pub fn height_at(deck: &Deck<'_>, k: usize, place: Vec2) -> Height
    requires { k < length deck.now.polygons }
    ensures { result ≡ height_on deck.now k place }
{
    if deck.height_count() == 0 {
        return Height::None;
    }
    let found = geometry::first_of_edges(
        deck.corner_count(k),
        |j| deck.corner(k, j),
        |v, w| edge_height(deck, place, v, w),
    );
    match found {
        Some(height) => height,
        None => Height::Known(mean_height(deck, k)),
    }
}
