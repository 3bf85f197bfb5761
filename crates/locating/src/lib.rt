// On which polygon a point is, looked for at nine probes a deck (document 01, section 8).
#![tactic(auto)]

ghost use Rattle.std.specs.Prelude.{◌≡◌, ◌<◌, slice_get};
ghost use Rattle.ship.specs.Layout.{decks_in};
ghost use Rattle.answers.specs.Replies.{code_of};
ghost use Rattle.ship.specs.Decode.{decode};
ghost use Rattle.decks.specs.Opened.{opened};
ghost use Rattle.locating.specs.Locating.{probe_hit, hit_on, point_layer, point_check, location_of, LayerReplied};

use answers::{Answer, Refusal};
use arrayvec::ArrayVec;
use decks::{Deck, Ship};
use geometry::Vec2;
use hits::Hit;
use ship::NUMBER_SIZE;

// The first probe that hits, and the first polygon there. p is in the deck's own coordinates.
#[tactic(auto, using(crate::proofs::Probing::probing))]
fn probe_hit(deck: &Deck<'_>, p: Vec2, reach: f32) -> Option<Hit>
    ensures { result ≡ probe_hit deck.now p reach }
{
    'probes: for k in 0..9 {
        let q = ring::probe(p, reach, k);
        if let Some(hit) = search::next_hit(deck, q, k, 0) {
            return Some(hit);
        }
    }
    None
}

// The same on deck d.
#[tactic(auto, unfolding(crate::specs::Locating::hit_on))]
fn hit_on(ship: &Ship<'_>, p: Vec2, d: usize) -> Option<Hit>
    requires { d < decks_in ship.now }
    ensures { result ≡ hit_on (decode ship.now) p d }
{
    let deck = ship.deck(d);
    probe_hit(&deck, p - deck.offset(), ship.reach())
}

// Questions 1 to 16 of a point.
#[tactic(auto, using(answers::proofs::Asking::handed_on), unfolding(crate::specs::Locating::point_check))]
fn point_check(file: &[u8], p: Vec2) -> Result<Ship<'_>, Refusal>
    ensures { result ≡ opened (point_check file.now p) file.now }
{
    let ship = Ship::open(file)?;
    if !calls::place_in_size(p) {
        return Err(Refusal::CallFloatOutOfRange);
    }
    Ok(ship)
}

// The polygon on the first deck that has one.
fn locate(ship: &Ship<'_>, p: Vec2, deck: u32) -> Option<u32>
    ensures { result ≡ slice_get (point_layer ship.now p deck) 0 }
{
    let count = ship.deck_count();
    'decks: for d in 0..count {
        if answers::looks_at(deck, d) {
            if let Some(hit) = hit_on(ship, p, d) {
                return Some(decks::packed(d, hit.polygon));
            }
        }
    }
    None
}

// The packed polygon; all ones where there is none, as document 01 and C have it.
pub fn get_point_location(file: &[u8], p: Vec2, deck: u32) -> Result<u32, Refusal>
    ensures { result ≡ location_of file.now p deck }
{
    let ship = point_check(file, p)?;
    Ok(locate(&ship, p, deck).unwrap_or(words::ALL_ONES))
}

// The polygons of all decks that have one, packed: at most one a deck, and a ship has at most 256. No heap is needed.
#[tactic(auto, using(crate::proofs::DeckLoop::listing))]
fn list_layers(ship: &Ship<'_>, p: Vec2, deck: u32) -> ArrayVec<u32, 256>
    ensures { result.items ≡ point_layer ship.now p deck }
{
    let count = ship.deck_count();
    let mut list = ArrayVec::new();
    'decks: for d in 0..count {
        if answers::looks_at(deck, d) {
            if let Some(hit) = hit_on(ship, p, d) {
                list.push(decks::packed(d, hit.polygon));
            }
        }
    }
    list
}

// They are listed first, since question 20 comes before a byte is written.
pub fn get_point_layer(file: &[u8], p: Vec2, deck: u32, out: &mut [u8]) -> Answer
    ensures { LayerReplied file.now p deck out.old out.new result }
{
    let ship = point_check(file, p)?;
    let list = list_layers(&ship, p, deck);
    if !answers::room_for(NUMBER_SIZE, list.len(), out.len()) {
        return Err(Refusal::NoRoom);
    }
    words::put_words(out, 0, list.as_slice());
    Ok(list.len())
}

// The location over C: the packed polygon, or minus the question's number. No `From`: no type in it is of this crate.
pub fn code(location: Result<u32, Refusal>) -> i64
    ensures { result ≡ code_of location }
{
    answers::code(location.map(|polygon| polygon as usize))
}
