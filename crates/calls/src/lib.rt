// The calls that answer one query: the closest points on the decks, and the height at a place (document 01, sections 5 and 6).
// The output is memory that C lends, and an entry's place in it is its number: nothing is allocated.
#![tactic(auto)]

ghost use Rattle.std.specs.Prelude.{◌≡◌, ◌+◌, ◌*◌, ◌^◌, ◌≤◌, length};
ghost use Rattle.geometry.specs.Bounds.{PointWithin, HeightWithin};
ghost use Rattle.words.specs.Bytes.{splice};
ghost use Rattle.answers.specs.Replies.{Replied};
ghost use Rattle.ship.specs.Floats.{in_size};
ghost use Rattle.decks.specs.Opened.{opened};
ghost use Rattle.walking.specs.Asked.{seen};
ghost use Rattle.calls.specs.Closest.{question16, asked_at, entry_size, entry_bytes, query_check, PointsReplied, PointReplied, StepPut, StepReplied};
ghost use Rattle.calls.specs.HeightCall.{height_call, height_check, height_reply};

use answers::{Answer, Refusal};
use decks::Ship;
use geometry::{Height, Vec2};
use keeping::{KEPT_SIZE, NEAR_SIZE};
use ring::Directions;
use survey::{DeckChoice, Seat, Wish};
use walking::{Next, Search, Step};

pub const ENTRY_SIZE: usize = 12;

// Question 16 of a float that did not come from bytes: a NaN fails both comparisons.
#[tactic(auto, using(crate::proofs::MillionTest::million_tests))]
fn float_in_size(x: f32) -> bool
    ensures { result ≡ in_size x }
{
    -1000000.0 <= x && x <= 1000000.0
}

#[tactic(auto, using(crate::proofs::Queries::places))]
pub fn place_in_size(p: Vec2) -> bool
    ensures { result ≡ question16 p }
{
    float_in_size(p.x) && float_in_size(p.y)
}

// Questions 1 to 17 of a query.
#[tactic(auto, using(answers::proofs::Asking::handed_on), unfolding(crate::specs::Closest::query_check))]
fn query_check<'a>(file: &'a [u8], p: Vec2, deck: u32, blocked: &[u8]) -> Result<Ship<'a>, Refusal>
    ensures { result ≡ opened (query_check file.now p deck blocked.now) file.now }
{
    let ship = Ship::open(file)?;
    if !answers::blocked_whole(blocked) {
        return Err(Refusal::WrongLength);
    }
    if !place_in_size(p) {
        return Err(Refusal::CallFloatOutOfRange);
    }
    if !answers::deck_there(ship.deck_count(), deck) {
        return Err(Refusal::NoSuchDeck);
    }
    Ok(ship)
}

// A query searches as a seat without a wish.
pub fn asked_at(p: Vec2, deck: u32) -> Seat
    ensures { result ≡ asked_at p deck }
{
    Seat {
        place: p,
        choice: DeckChoice::from(deck),
        wish: Wish::NoWish,
    }
}

// A candidate's entry, as number n.
#[tactic(auto, using(crate::proofs::EntryLoop::entry))]
pub fn put_candidate(out: &mut [u8], n: usize, polygon: u32, place: Vec2)
    requires { (entry_size * n + entry_size ≤ length out.old) × PointWithin 3030000 place }
    ensures { out.new ≡ splice out.old (entry_size * n) (entry_bytes polygon place) }
{
    let words = [polygon, place.x.to_bits(), place.y.to_bits()];
    words::put_words(out, ENTRY_SIZE * n, &words)
}

// The candidates of a step, written from the first byte on.
fn put_step(step: &Step<'_>, out: &mut [u8])
    requires { entry_size * step.now.count ≤ length out.old }
    ensures { StepPut (seen step.now.search.now) step.now.number out.old out.new }
{
    let search = step.search;
    let mut near = [0u32; NEAR_SIZE];
    let mut n: usize = 0;
    let mut next = search.first(step.number, &mut near);
    // A walk is lent its array at each step, so it is no iterator.
    'candidates: while let Next::Reached(c, _) = next {
        let polygon = decks::packed(c.deck, c.polygon);
        put_candidate(out, n, polygon, search.spot(c).place());
        n += 1;
        next = search.after(c, &mut near);
    }
}

// The same, where the output has room for them.
fn put_counted(step: &Step<'_>, out: &mut [u8]) -> Answer
    ensures { StepReplied (seen step.now.search.now) step.now.number out.old out.new result }
{
    if !answers::room_for(ENTRY_SIZE, step.count, out.len()) {
        return Err(Refusal::NoRoom);
    }
    put_step(step, out);
    Ok(step.count)
}

// The candidates of the first step with any. The first search counts them, since question 20 comes before a byte is written.
pub fn get_closest_points_on_layers(
    file: &[u8],
    p: Vec2,
    deck: u32,
    blocked: &[u8],
    out: &mut [u8],
) -> Answer
    ensures { PointsReplied file.now p deck blocked.now out.old out.new result }
{
    let ship = query_check(file, p, deck, blocked)?;
    let directions = Directions::all();
    let seat = asked_at(p, deck);
    let mut kept = [0u32; KEPT_SIZE];
    let mut near = [0u32; NEAR_SIZE];
    let found = placing::place_seat(&ship, blocked, &directions, seat, &mut kept, &mut near);
    if records::unplaced(found) {
        return Ok(0);
    }
    let search = Search {
        ship: &ship,
        blocked,
        directions: &directions,
        seat,
        kept: &kept,
    };
    let step = Step {
        search: &search,
        number: found.step as usize,
        count: found.candidates as usize,
    };
    put_counted(&step, out)
}

// The first of them, or none. It is what the record of such a seat begins with. Both calls begin alike: the arrays are each call's own, and no function
// below could hand them out.
pub fn get_closest_point_on_layers(
    file: &[u8],
    p: Vec2,
    deck: u32,
    blocked: &[u8],
    out: &mut [u8],
) -> Answer
    ensures { PointReplied file.now p deck blocked.now out.old out.new result }
{
    let ship = query_check(file, p, deck, blocked)?;
    let directions = Directions::all();
    let seat = asked_at(p, deck);
    let mut kept = [0u32; KEPT_SIZE];
    let mut near = [0u32; NEAR_SIZE];
    let found = placing::place_seat(&ship, blocked, &directions, seat, &mut kept, &mut near);
    if records::unplaced(found) {
        return Ok(0);
    }
    if !answers::room_for(ENTRY_SIZE, 1, out.len()) {
        return Err(Refusal::NoRoom);
    }
    let words = [found.polygon, found.x, found.y];
    words::put_words(out, 0, &words);
    Ok(1)
}

// Questions 1 to 18 of a place and a packed polygon.
#[tactic(auto, using(answers::proofs::Asking::handed_on, crate::proofs::HeightCalls::height_asks), unfolding(crate::specs::HeightCall::height_check))]
fn height_check(file: &[u8], p: Vec2, polygon: u32) -> Result<Ship<'_>, Refusal>
    ensures { result ≡ opened (height_check file.now p polygon) file.now }
{
    let ship = Ship::open(file)?;
    if !place_in_size(p) {
        return Err(Refusal::CallFloatOutOfRange);
    }
    if polygon == words::ALL_ONES {
        return Ok(ship);
    }
    let d = decks::packed_deck(polygon);
    if d >= ship.deck_count() {
        return Err(Refusal::NoSuchDeck);
    }
    if decks::packed_polygon(polygon) >= ship.deck(d).polygon_count() {
        return Err(Refusal::NoSuchPolygon);
    }
    Ok(ship)
}

// The height at a place and of a polygon that passed them.
#[tactic(auto, using(crate::proofs::HeightCalls::heights_asked))]
fn height_asked(ship: &Ship<'_>, p: Vec2, polygon: u32) -> Height
    requires { height_check ship.now p polygon ≡ Ok tt }
    ensures { (result ≡ height_call ship.now p polygon) × HeightWithin (2 ^ 121) result }
{
    if polygon == words::ALL_ONES {
        return Height::None;
    }
    let deck = ship.deck(decks::packed_deck(polygon));
    search::height_at(&deck, decks::packed_polygon(polygon), p)
}

// The height at a place of a packed polygon, as one entry of its bits, or no entry.
pub fn height(file: &[u8], p: Vec2, polygon: u32, out: &mut [u8]) -> Answer
    ensures { Replied (height_reply file.now p polygon) out.old out.new result }
{
    let ship = height_check(file, p, polygon)?;
    match height_asked(&ship, p, polygon) {
        Height::None => Ok(0),
        Height::Known(h) => {
            if out.len() < 4 {
                return Err(Refusal::NoRoom);
            }
            words::put_f32(out, 0, h);
            Ok(1)
        }
    }
}
