// Polygons that no sample of a search can reach are sifted out: of those that a kept list has a search look at, the ones that may pass at a point of
// a box are kept.
#![tactic(auto)]

ghost use Rattle.std.specs.Prelude.{◌≡◌, ◌^◌, ◌<◌, length};
ghost use Rattle.boxes.specs.StepBox.{step_box};
ghost use Rattle.search.specs.OnDeck.{deck_turn};
ghost use Rattle.sifting.specs.Sifted.{may_pass_at, is_full, KeptOver, SiftReady, SiftedInto, Around};

use boxes::{BoundingBox, BoxTest};
use decks::Deck;
use geometry::Vec2;
use hits::Hit;
use keeping::Kept;
use ring::{Directions, Ring};

// What a sift leaves to look at: `count` numbers at the front of an array, and every polygon from number `rest` on.
#[derive(Clone, Copy, Debug, PartialEq, Eq)]
pub struct Remaining {
    pub count: usize,
    pub rest: usize,
}

// From so many numbers on a list is held against what was looked at.
const MANY: usize = 128;

// Whether polygon k may pass at a point of the box. Where not, it passes at none.
#[tactic(auto, using(crate::proofs::EdgeWalk::edges))]
fn may_pass(deck: &Deck<'_>, k: usize, bounds: BoundingBox) -> bool
    requires { k < length deck.now.polygons }
    ensures { result ≡ may_pass_at deck.now bounds k }
{
    let answer = geometry::first_of_edges(
        deck.corner_count(k),
        |j| search::corner_point(deck, k, j),
        |a, b| match boxes::box_test(bounds, a, b) {
            BoxTest::Never => Some(false),
            BoxTest::Next => None,
            BoxTest::Maybe => Some(true),
        },
    );
    answer.unwrap_or(true)
}

// Whether a list of so many numbers takes no more: there is no room, or it has most of the polygons that were looked at, so that the box covers most of
// the deck and a list costs more than it spares.
#[tactic(auto, unfolding(crate::specs::Sifted::is_full))]
fn is_full(count: usize, room: usize, looked: usize) -> bool
    requires { count < 2 ^ 63 }
    ensures { result ≡ is_full count room looked }
{
    count >= room || (count >= MANY && 2 * count > looked)
}

// The list's polygons that may pass in the box, kept from the front of `into` on. Where it is full, or the box covers most of the deck, every polygon
// from there on stays one to look at.
pub fn sift(deck: &Deck<'_>, bounds: BoundingBox, source: Kept<'_>, into: &mut [u32]) -> Remaining
    requires { SiftReady deck.now bounds source.numbers.now source.rest }
    ensures { SiftedInto deck.now bounds into.old into.new result }
{
    // A deck of the loop's own, since what is borrowed is read anew after each write.
    let own = deck.own();
    let polygons = deck.polygon_count();
    let looked_at = keeping::sought_count(polygons, source);
    let room = into.len();
    let mut count: usize = 0;
    'polygons: for j in 0..looked_at {
        let k = keeping::sought(source, j);
        if !may_pass(&own, k, bounds) {
            continue;
        }
        if is_full(count, room, j + 1) {
            return Remaining { count, rest: k };
        }
        into[count] = k as u32;
        count += 1;
    }
    Remaining {
        count,
        rest: polygons,
    }
}

// Of all polygons of a deck, those that some sample of a last ring, or of the rings of the steps before it, may reach.
pub fn sift_deck(deck: &Deck<'_>, last: Ring, into: &mut [u32]) -> Remaining
    requires { Around last.center last.reach }
    ensures { SiftedInto deck.now (step_box last.center last.reach last.step) into.old into.new result }
{
    let bounds = boxes::step_box(last);
    sift(deck, bounds, keeping::every_polygon(), into)
}

// The turn of a deck over a ring. The list is sifted once more, with the box of that ring: a box test for each of its polygons, and then a point test for
// each that is left at each sample.
pub fn turn(
    deck: &Deck<'_>,
    directions: &Directions,
    ring: Ring,
    kept: Kept<'_>,
    near: &mut [u32],
) -> Option<Hit>
    requires { Around ring.center ring.reach × KeptOver deck.now (step_box ring.center ring.reach ring.step) kept.numbers.now kept.rest }
    ensures { result ≡ deck_turn deck.now ring.center ring.reach ring.step }
{
    let left = sift(deck, boxes::step_box(ring), kept, near);
    let nearer = Kept {
        numbers: &near[..left.count],
        rest: left.rest,
    };
    keeping::first_hit(deck, directions, ring, nearer)
}
