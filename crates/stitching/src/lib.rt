// Where decks share a vertex (document 01, section 8, `find_stitch_points`). The output is memory that C lends, and a point's place in it is how many
// stand before it: nothing is allocated.
#![tactic(auto)]

ghost use Rattle.std.specs.Prelude.{◌≡◌, [], ◌∷◌, ◌+◌, ◌<◌};
ghost use Rattle.ship.specs.Layout.{decks_in};
ghost use Rattle.ship.specs.Decode.{decode};
ghost use Rattle.stitching.specs.Points.{stitches_between, stitches_from, stitch_points, StitchPointsReplied};
ghost use Rattle.stitching.specs.Walk.{counted, stitch_point, stitches_on, PointReady, StitchesPut};

use answers::{Answer, Refusal};
use decks::{Deck, Ship};
use geometry::Vec2;

const STITCH_SIZE: usize = 16;

// A count that has come to the largest number stays there. No output has room for so many entries.
fn one_more(n: usize) -> usize
    ensures { result ≡ counted (n + 1) }
{
    n.saturating_add(1)
}

// A stitch point that comes after n others. Without room for it, it is only counted.
#[tactic(auto, using(crate::proofs::Putting::point))]
fn put_point(out: &mut [u8], n: usize, a: usize, b: usize, p: Vec2) -> usize
    requires { PointReady a b p }
    ensures { StitchesPut (stitch_point a b p ∷ []) n out.old out.new result }
{
    if n >= out.len() / STITCH_SIZE {
        return one_more(n);
    }
    let words = [a as u32, b as u32, p.x.to_bits(), p.y.to_bits()];
    words::put_words(out, STITCH_SIZE * n, &words);
    n + 1
}

// p, a vertex of deck a, against each vertex of deck b, which is `to`. Points are equal as floats are: -0 equals 0.
fn put_at(a: usize, p: Vec2, b: usize, to: &Deck<'_>, n: usize, out: &mut [u8]) -> usize
    requires { PointReady a b p }
    ensures { StitchesPut (stitches_on a b p to.now) n out.old out.new result }
{
    let vertices = to.vertex_count();
    let mut count = n;
    'vertices: for k in 0..vertices {
        let q = to.point(k);
        if p == q {
            count = put_point(out, count, a, b, p);
        }
    }
    count
}

// Each vertex of deck a against those of deck b.
fn put_between(ship: &Ship<'_>, a: usize, b: usize, n: usize, out: &mut [u8]) -> usize
    requires { (a < decks_in ship.now) × (b < decks_in ship.now) }
    ensures { StitchesPut (stitches_between (decode ship.now) a b) n out.old out.new result }
{
    let from = ship.deck(a);
    let to = ship.deck(b);
    let vertices = from.vertex_count();
    let mut count = n;
    'vertices: for k in 0..vertices {
        count = put_at(a, from.point(k), b, &to, count, out);
    }
    count
}

// Deck a against each deck after it.
fn put_from(ship: &Ship<'_>, a: usize, n: usize, out: &mut [u8]) -> usize
    requires { a < decks_in ship.now }
    ensures { StitchesPut (stitches_from (decode ship.now) a) n out.old out.new result }
{
    let decks = ship.deck_count();
    let mut count = n;
    'decks: for b in a + 1..decks {
        count = put_between(ship, a, b, count, out);
    }
    count
}

// The walk over all pairs. It writes what the output has room for, and counts all.
fn put_all(ship: &Ship<'_>, out: &mut [u8]) -> usize
    ensures { StitchesPut (stitch_points (decode ship.now)) 0 out.old out.new result }
{
    let decks = ship.deck_count();
    let mut count: usize = 0;
    'decks: for a in 0..decks {
        count = put_from(ship, a, count, out);
    }
    count
}

// The points where two decks have a vertex each. The first walk over the pairs has no output and counts them, since question 20
// comes before a byte is written.
pub fn find_stitch_points(file: &[u8], out: &mut [u8]) -> Answer
    ensures { StitchPointsReplied file.now out.old out.new result }
{
    let ship = Ship::open(file)?;
    let count = put_all(&ship, &mut []);
    if !answers::room_for(STITCH_SIZE, count, out.len()) {
        return Err(Refusal::NoRoom);
    }
    put_all(&ship, out);
    Ok(count)
}
