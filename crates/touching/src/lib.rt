// Which polygon touches which over an edge (document 01, section 8, `candidate_polygons`; the Rust's `share_an_edge`).
#![tactic(auto)]

ghost use Rattle.std.specs.Prelude.{◌≡◌, ◌<◌, length};
ghost use Rattle.words.specs.Rows.{has};
ghost use Rattle.ship.specs.Model.{neighbours_of, corners_of};
ghost use Rattle.ship.specs.Decode.{decode};
ghost use Rattle.touching.specs.Touching.{corner_has, touches_on, touches, PolygonThere};

use decks::{Deck, Ship};

// Whether b stands in the list of vertex v.
#[tactic(auto, unfolding(words::specs::Rows::has, words::specs::Rows::some))]
fn vertex_has(deck: &Deck<'_>, v: usize, b: u32) -> bool
    requires { v < length deck.now.vertices }
    ensures { result ≡ has (neighbours_of deck.now v) b }
{
    (0..deck.neighbour_count(v)).any(|j| deck.neighbour(v, j) == b)
}

// Whether it stands in the list of polygon k's vertex j.
fn corner_has(deck: &Deck<'_>, k: usize, b: u32, j: usize) -> bool
    requires { (k < length deck.now.polygons) × (j < length (corners_of deck.now k)) }
    ensures { result ≡ corner_has deck.now k b j }
{
    vertex_has(deck, deck.corner(k, j), b)
}

// Whether it stands in the lists of both ends of an edge of polygon k.
#[tactic(auto, using(crate::proofs::EdgeWalk::edging))]
fn touches_on(deck: &Deck<'_>, k: usize, b: u32) -> bool
    requires { k < length deck.now.polygons }
    ensures { result ≡ touches_on deck.now k b }
{
    let found = geometry::first_of_edges(
        deck.corner_count(k),
        |j| corner_has(deck, k, b, j),
        |start, end| (start && end).then_some(()),
    );
    found.is_some()
}

// Whether packed a touches packed b.
#[tactic(auto, using(crate::proofs::EdgeWalk::touching))]
pub fn touches(ship: &Ship<'_>, a: u32, b: u32) -> bool
    requires { PolygonThere ship.now a }
    ensures { result ≡ touches (decode ship.now) a b }
{
    let deck = ship.deck(decks::packed_deck(a));
    touches_on(&deck, decks::packed_polygon(a), b)
}
