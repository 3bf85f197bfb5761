// A kept list: which polygons of a deck a search looks at, and the search over them (document 01, section 5). Who has found the list has shown that no
// other polygon passes where it is searched for; how it was found does not matter here.
#![tactic(auto)]

ghost use Rattle.std.specs.Prelude.{◌≡◌, ◌+◌, ◌^◌, ◌≤◌, ◌<◌, [], length};
ghost use Rattle.search.specs.OnDeck.{deck_turn, next_hit};
ghost use Rattle.keeping.specs.Kept.{sought_at, sought_count, KeptAt, RingKept};
ghost use Rattle.keeping.specs.Lists.{list_at, numbers_at, with_list, LiesIn, ListsRoom};

use decks::Deck;
use geometry::Vec2;
use hits::Hit;
use ring::{Directions, Ring};

// The polygons that a search looks at: those whose numbers stand in a list, and every one from number `rest` on.
#[derive(Clone, Copy, Debug, PartialEq, Eq)]
pub struct Kept<'a> {
    pub numbers: &'a [u32],
    pub rest: usize,
}

// Where a deck's list stands in the array of all lists: it has `count` numbers from `start` on.
#[derive(Clone, Copy, Debug, PartialEq, Eq)]
pub struct ListPlace {
    pub start: usize,
    pub count: usize,
    pub rest: usize,
}

// Numbers at the front of the array that say where a deck's list stands, and of those of 256 decks. Three numbers a deck, and no array of `ListPlace`:
// the lists' own numbers stand behind them in the one array that a caller lends.
const LIST_SIZE: usize = 3;

pub const LISTS_SIZE: usize = 768;

// Numbers of the two arrays that a run lends to its searches: the decks' lists with 4,096 numbers for all of them, and as many for a step's own list.
// Any length serves: what has no room is searched as if there were no list.
pub const KEPT_SIZE: usize = 4864;

pub const NEAR_SIZE: usize = 4096;

// What the array has of deck d's list.
pub fn list_place(array: &[u32], d: usize) -> ListPlace
    requires { ListsRoom array.now × (d < 256) }
    ensures { result ≡ list_at array.now d }
{
    let at = LIST_SIZE * d;
    ListPlace {
        start: array[at] as usize,
        count: array[at + 1] as usize,
        rest: array[at + 2] as usize,
    }
}

// Deck d's list, which lies in the array.
pub fn list_of(array: &[u32], d: usize) -> Kept<'_>
    requires { ListsRoom array.now × ((d < 256) × LiesIn array.now (list_at array.now d)) }
    ensures { (result.numbers.now ≡ numbers_at array.now (list_at array.now d)) × (result.rest ≡ (list_at array.now d).rest) }
{
    let ListPlace { start, count, rest } = list_place(array, d);
    Kept {
        numbers: &array[start..start + count],
        rest,
    }
}

#[tactic(auto, unfolding(crate::specs::Lists::with_list))]
pub fn put_list(array: &mut [u32], d: usize, list: ListPlace)
    requires { ListsRoom array.old × ((d < 256) × ((list.start + list.count ≤ 2 ^ 31) × (list.rest < 2 ^ 31))) }
    ensures { array.new ≡ with_list array.old d list }
{
    let at = LIST_SIZE * d;
    array[at] = list.start as u32;
    array[at + 1] = list.count as u32;
    array[at + 2] = list.rest as u32;
}

// The list that has a search look at every polygon.
pub fn every_polygon<'a>() -> Kept<'a>
    ensures { (result.numbers.now ≡ []) × (result.rest ≡ 0) }
{
    Kept {
        numbers: &[],
        rest: 0,
    }
}

// How many polygons a list has a search look at, on a deck of so many.
pub fn sought_count(polygons: usize, kept: Kept<'_>) -> usize
    requires { (length kept.numbers.now ≤ kept.rest) × (kept.rest ≤ polygons) }
    ensures { result ≡ sought_count polygons kept.entry.numbers.now kept.entry.rest }
{
    kept.numbers.len() + (polygons - kept.rest)
}

// The number of the j-th of them.
pub fn sought(kept: Kept<'_>, j: usize) -> usize
    requires { kept.rest + j < 2 ^ 63 }
    ensures { result ≡ sought_at kept.entry.numbers.now kept.entry.rest j }
{
    let count = kept.numbers.len();
    if j < count {
        kept.numbers[j] as usize
    } else {
        kept.rest + (j - count)
    }
}

// The turn of a deck over a ring, in the deck's own coordinates: the first sample that hits ends it. Where the list has nothing to look at, no sample
// is made.
pub fn first_hit(
    deck: &Deck<'_>,
    directions: &Directions,
    ring: Ring,
    kept: Kept<'_>,
) -> Option<Hit>
    requires { RingKept deck.now kept.numbers.now kept.rest ring.center ring.reach ring.step }
    ensures { result ≡ deck_turn deck.now ring.center ring.reach ring.step }
{
    let count = sought_count(deck.polygon_count(), kept);
    if count == 0 {
        return None;
    }
    let samples = 10 * ring.step + 1;
    let mut i: usize = 0;
    // A loop over the samples, not a for: it has a value, the hit that a labelled break takes out of both loops.
    'samples: loop {
        let q = directions.sample(ring, i);
        'polygons: for j in 0..count {
            let polygon = sought(kept, j);
            if search::point_in_polygon(deck, polygon, q) {
                break 'samples Some(Hit { sample: i, polygon });
            }
        }
        i += 1;
        if i >= samples {
            break 'samples None;
        }
    }
}

// The first polygon from number k on that passes at q, which is sample i. `search::next_hit` is the same over all polygons: it asks no law of a list of who
// has none.
pub fn next_hit(deck: &Deck<'_>, q: Vec2, i: usize, k: usize, kept: Kept<'_>) -> Option<Hit>
    requires { KeptAt deck.now kept.numbers.now kept.rest q }
    ensures { result ≡ next_hit deck.now q i k }
{
    let count = sought_count(deck.polygon_count(), kept);
    'polygons: for j in 0..count {
        let polygon = sought(kept, j);
        if polygon < k {
            continue;
        }
        if search::point_in_polygon(deck, polygon, q) {
            return Some(Hit { sample: i, polygon });
        }
    }
    None
}
