// The search of one seat over a ship file: the candidates of the first step with any, and the one that the seat takes (document 01, section 7).
#![tactic(auto)]

ghost use Rattle.std.specs.Prelude.{◌≡◌, ◌+◌, ◌*◌, ◌^◌, ◌≤◌, ◌<◌};
ghost use Rattle.geometry.specs.Bounds.{HeightWithin};
ghost use Rattle.records.specs.Record.{unplaced_record};
ghost use Rattle.ship.specs.Layout.{steps_in};
ghost use Rattle.ship.specs.Decode.{decode};
ghost use Rattle.survey.specs.Record.{height_kind, height_bits, record_at_place};
ghost use Rattle.survey.specs.Search.{seat_record};
ghost use Rattle.keeping.specs.Lists.{ListsRoom};
ghost use Rattle.walking.specs.Sees.{seen_by, SearchReady, CandidateWithin};
ghost use Rattle.walking.specs.Lists.{Sifted};
ghost use Rattle.walking.specs.Asked.{seen};
ghost use Rattle.placing.specs.Tally.{choose_with, take_with, step_tally, TallyWithin, CountsWithin};

use decks::Ship;
use geometry::{Height, Vec2};
use hits::Candidate;
use records::SeatRecord;
use ring::Directions;
use survey::{Seat, Wish};
use walking::{Next, Search};

// A candidate, where it lies, and the height there.
#[derive(Clone, Copy, Debug, PartialEq)]
pub struct Choice {
    pub candidate: Candidate,
    pub place: Vec2,
    pub height: Height,
}

// Samples tried, and the candidates of the step so far: how many, and the one that is chosen.
#[derive(Clone, Copy, Debug, PartialEq)]
pub struct Tally {
    pub tried: usize,
    pub candidates: usize,
    pub best: Option<Choice>,
}

#[tactic(auto, using(crate::proofs::Choosing::chooses))]
fn choose(wish: Wish, best: Option<Choice>, next: Choice) -> Option<Choice>
    ensures { result ≡ choose_with wish best next }
{
    match best {
        None => Some(next),
        Some(chosen) => {
            if survey::prefers_height(wish, next.height, chosen.height) {
                Some(next)
            } else {
                Some(chosen)
            }
        }
    }
}

// One candidate more, after so many samples more.
fn take(wish: Wish, t: Tally, tried: usize, next: Choice) -> Tally
    requires { (t.tried + tried < 2 ^ 63) × (t.candidates < 2 ^ 63) }
    ensures { result ≡ take_with wish t tried next }
{
    Tally {
        tried: t.tried + tried,
        candidates: t.candidates + 1,
        best: choose(wish, t.best, next),
    }
}

// Step s on every open deck, after so many samples tried before it.
fn take_step(search: &Search<'_>, s: usize, tried: usize, near: &mut [u32]) -> Tally
    requires { (s < steps_in search.now.ship.now) × (tried ≤ 38656 * s) }
    ensures { (result ≡ step_tally (seen search.now) s tried) × TallyWithin (s + 1) result }
{
    let mut tally = Tally {
        tried,
        candidates: 0,
        best: None,
    };
    let mut next = search.first(s, near);
    // A loop and no `while let`: the end has a number too. A walk is lent its array at each step, so it is no iterator.
    'candidates: loop {
        match next {
            Next::Ended(n) => {
                return Tally {
                    tried: tally.tried + n,
                    ..tally
                };
            }
            Next::Reached(candidate, n) => {
                let spot = search.spot(candidate);
                let choice = Choice {
                    candidate,
                    place: spot.place(),
                    height: spot.height(),
                };
                tally = take(search.seat.wish, tally, n, choice);
                next = search.after(candidate, near);
            }
        }
    }
}

// A height's kind, and its bits or 0: two numbers of the record, which C reads, and so no type of their own.
#[tactic(auto, using(crate::proofs::SeatRecords::heights))]
fn height_words(height: Height) -> (u32, u32)
    requires { HeightWithin (2 ^ 121) height }
    ensures { result ≡ (height_kind height, height_bits height) }
{
    match height {
        Height::None => (0, 0),
        Height::Known(h) => (1, h.to_bits()),
    }
}

// The record of a seat that takes the candidate of a choice.
fn placed_record(choice: Choice, tried: usize, candidates: usize) -> SeatRecord
    requires { CandidateWithin choice.candidate choice.place choice.height × CountsWithin tried candidates }
    ensures { result ≡ record_at_place choice.candidate choice.place choice.height tried candidates }
{
    let c = choice.candidate;
    let (kind, height) = height_words(choice.height);
    SeatRecord {
        polygon: decks::packed(c.deck, c.polygon),
        x: choice.place.x.to_bits(),
        y: choice.place.y.to_bits(),
        kind,
        height,
        step: c.step as u32,
        sample: c.sample as u32,
        tried: tried as u32,
        candidates: candidates as u32,
    }
}

// The record of a seat that has no place.
fn unplaced_record(tried: usize) -> SeatRecord
    requires { tried ≤ 618496 }
    ensures { result ≡ unplaced_record tried }
{
    SeatRecord {
        polygon: words::ALL_ONES,
        x: 0,
        y: 0,
        kind: 0,
        height: 0,
        step: 0,
        sample: 0,
        tried: tried as u32,
        candidates: 0,
    }
}

// The steps of a seat's search over its kept lists: the first with any hit is the last.
fn search_steps(search: &Search<'_>, near: &mut [u32]) -> SeatRecord
    ensures { result ≡ seat_record (seen search.now) (decode search.now.ship.now).steps }
{
    let steps = search.ship.steps();
    let mut tried: usize = 0;
    'steps: for s in 0..steps {
        let tally = take_step(search, s, tried, near);
        if let Some(choice) = tally.best {
            return placed_record(choice, tally.tried, tally.candidates);
        }
        tried = tally.tried;
    }
    unplaced_record(tried)
}

// The search of a seat. Polygons that no sample of it can reach are sifted out first; the lists that are left in `kept` serve a later walk over its
// last step. What `near` holds is of no use to anybody afterwards.
pub fn place_seat(
    ship: &Ship<'_>,
    blocked: &[u8],
    directions: &Directions,
    seat: Seat,
    kept: &mut [u32],
    near: &mut [u32],
) -> SeatRecord
    requires { SearchReady blocked.now seat × ListsRoom kept.old }
    ensures { (result ≡ seat_record (seen_by ship.now blocked.now seat) (decode ship.now).steps)
        × Sifted ship.now seat.place kept.new }
{
    walking::sift_decks(ship, blocked, seat, kept);
    let search = Search {
        ship,
        blocked,
        directions,
        seat,
        kept,
    };
    search_steps(&search, near)
}
