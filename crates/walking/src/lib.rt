// One walk over the candidates of a step on a ship, in their order (document 01, section 5). Who walks decides what becomes of them:
// the run chooses one, a call writes them. Before its first step the decks are sifted, and every step looks at the lists that were kept.
#![tactic(auto)]

ghost use Rattle.std.specs.Prelude.{◌≡◌, ◌≤◌, ◌<◌, Ok, length};
ghost use Rattle.ship.specs.Layout.{decks_in, steps_in};
ghost use Rattle.ship.specs.Decode.{decode};
ghost use Rattle.ship.specs.Questions.{first_no};
ghost use Rattle.survey.specs.Search.{turn, candidates};
ghost use Rattle.walking.specs.Sees.{sample_on, shown_by, seen_by, TurnIn, CandidateIn};
ghost use Rattle.walking.specs.Lists.{Sifted, WalkReady, ListsReady, DeckReady, DeckListed};
ghost use Rattle.walking.specs.Walk.{passing_after, WalkedFrom, WalkedStep, WalkedAfter};
ghost use Rattle.walking.specs.Ready.{ready_prop, candidate_prop};

use decks::Ship;
use geometry::{Height, Vec2};
use hits::{Candidate, Hit};
use keeping::{LISTS_SIZE, ListPlace};
use ring::{Directions, Ring};
use sifting::Remaining;
use survey::Seat;

// The search of a seat: the ship, the blocked decks, the directions, the seat, and the decks' kept lists, which serve each of its steps.
#[derive(Clone, Copy)]
pub struct Search<'a> {
    pub ship: &'a Ship<'a>,
    pub blocked: &'a [u8],
    pub directions: &'a Directions,
    pub seat: Seat,
    pub kept: &'a [u32],
    pub ghost ready: { WalkReady ship.now blocked.now seat kept.now } by { ready_prop ship.now blocked.now seat kept.now },
}

// A step of a search, and how many candidates it has.
#[derive(Clone, Copy)]
pub struct Step<'a> {
    pub search: &'a Search<'a>,
    pub number: usize,
    pub count: usize,
    pub ghost there: { number < steps_in search.now.ship.now },
    pub ghost counted: { count ≡ length
        (candidates (seen_by search.now.ship.now search.now.blocked.now search.now.seat) number) },
}

// A candidate of a search around p, whose sample and polygon are there.
#[derive(Clone, Copy)]
pub struct Spot<'a> {
    pub ship: &'a Ship<'a>,
    pub directions: &'a Directions,
    pub p: Vec2,
    pub candidate: Candidate,
    pub ghost there: { CandidateIn ship.now candidate } by { candidate_prop ship.now candidate },
}

// Where a walk came to: a candidate, or the end of the step. With it, how many samples the turns on the way took. No `Option`, since the end has
// that number too.
#[derive(Clone, Copy, Debug, PartialEq, Eq)]
pub enum Next {
    Reached(Candidate, usize),
    Ended(usize),
}

// The polygons of deck d that a sample of the search around p may reach.
fn reached_on(ship: &Ship<'_>, p: Vec2, d: usize, room: &mut [u32]) -> Remaining
    requires { DeckReady ship.now p d }
    ensures { DeckListed ship.now p d room.old room.new result }
{
    let deck = ship.deck(d);
    let last = Ring {
        center: p - deck.offset(),
        step: ship.steps() - 1,
        reach: ship.reach(),
    };
    sifting::sift_deck(&deck, last, room)
}

// Deck d's list. A deck that is not open is not gone over: of it every polygon stays one to look at.
fn deck_list(ship: &Ship<'_>, blocked: &[u8], seat: Seat, d: usize, room: &mut [u32]) -> Remaining
    requires { DeckReady ship.now seat.place d × ((d < 256) × (length blocked.now ≡ 32)) }
    ensures { DeckListed ship.now seat.place d room.old room.new result }
{
    let choice = seat.choice;
    if survey::is_open(blocked, choice, d) {
        return reached_on(ship, seat.place, d, room);
    }
    Remaining { count: 0, rest: 0 }
}

// Each deck's list, before the first step of a seat's search.
pub fn sift_decks(ship: &Ship<'_>, blocked: &[u8], seat: Seat, kept: &mut [u32])
    requires { ListsReady seat.place kept.old × (length blocked.now ≡ 32) }
    ensures sifted { Sifted ship.now seat.place kept.new }
    ensures passed { first_no ship.now ≡ Ok tt }
{
    let decks = ship.deck_count();
    let mut at = LISTS_SIZE;
    'decks: for d in 0..decks {
        let Remaining { count, rest } = deck_list(ship, blocked, seat, d, &mut kept[at..]);
        keeping::put_list(
            kept,
            d,
            ListPlace {
                start: at,
                count,
                rest,
            },
        );
        at += count;
    }
}

impl Spot<'_> {
    // Its sample, in the coordinates of its deck.
    fn sample(&self) -> Vec2
        ensures { result ≡ sample_on (decode self.now.ship.now) self.now.p self.now.candidate }
    {
        let c = self.candidate;
        let ring = Ring {
            center: self.p - self.ship.deck(c.deck).offset(),
            reach: self.ship.reach(),
            step: c.step,
        };
        self.directions.sample(ring, c.sample)
    }

    // Where it lies.
    pub fn place(&self) -> Vec2
        ensures { result ≡ (shown_by self.now.ship.now self.now.p).place self.now.candidate }
    {
        self.sample() + self.ship.deck(self.candidate.deck).offset()
    }

    // The height there.
    #[tactic(auto, using(crate::proofs::ShownLaws::shows))]
    pub fn height(&self) -> Height
        ensures { result ≡ (shown_by self.now.ship.now self.now.p).height self.now.candidate }
    {
        let deck = self.ship.deck(self.candidate.deck);
        search::height_at(&deck, self.candidate.polygon, self.place())
    }
}

impl<'a> Search<'a> {
    ghost use Rattle.walking.specs.Asked.{seen};

    // Deck d's turn in step s.
    fn deck_turn(&self, d: usize, s: usize, near: &mut [u32]) -> Option<Hit>
        requires { TurnIn self.now.ship.now d s }
        ensures { result ≡ turn (shown_by self.now.ship.now self.now.seat.place) s d }
    {
        let deck = self.ship.deck(d);
        let center = self.seat.place - deck.offset();
        let list = keeping::list_of(self.kept, d);
        let ring = Ring {
            center,
            reach: self.ship.reach(),
            step: s,
        };
        sifting::turn(&deck, self.directions, ring, list, near)
    }

    // A candidate of this search.
    pub fn spot(&self, c: Candidate) -> Spot<'a>
        requires { CandidateIn self.now.ship.now c }
        ensures ship { result.ship.now ≡ self.now.ship.now }
        ensures at { (result.p ≡ self.now.seat.place) × (result.candidate ≡ c) }
    {
        Spot {
            ship: self.ship,
            directions: self.directions,
            p: self.seat.place,
            candidate: c,
        }
    }

    // The first candidate of step s on the decks from d on.
    fn turns_from(&self, s: usize, d: usize, near: &mut [u32]) -> Next
        requires { (s < steps_in self.now.ship.now) × (d ≤ decks_in self.now.ship.now) }
        ensures { WalkedFrom self.now.ship.now (seen self.now) s d result }
    {
        let decks = self.ship.deck_count();
        let choice = self.seat.choice;
        let mut tried: usize = 0;
        'decks: for deck in d..decks {
            if !survey::is_open(self.blocked, choice, deck) {
                continue;
            }
            let hit = self.deck_turn(deck, s, near);
            tried += hits::tried(s, hit);
            if let Some(Hit { sample, polygon }) = hit {
                let c = Candidate {
                    step: s,
                    deck,
                    sample,
                    polygon,
                };
                return Next::Reached(c, tried);
            }
        }
        Next::Ended(tried)
    }

    // The first candidate of step s.
    pub fn first(&self, s: usize, near: &mut [u32]) -> Next
        requires { s < steps_in self.now.ship.now }
        ensures { WalkedStep self.now.ship.now (seen self.now) s result }
    {
        self.turns_from(s, 0, near)
    }

    // The candidate that comes after c in its step.
    pub fn after(&self, c: Candidate, near: &mut [u32]) -> Next
        requires { CandidateIn self.now.ship.now c }
        ensures { WalkedAfter self.now.ship.now (seen self.now) c result }
    {
        let deck = self.ship.deck(c.deck);
        let q = self.spot(c).sample();
        let list = keeping::list_of(self.kept, c.deck);
        match keeping::next_hit(&deck, q, c.sample, c.polygon + 1, list) {
            Some(hit) => {
                let next = Candidate {
                    polygon: hit.polygon,
                    ..c
                };
                Next::Reached(next, 0)
            }
            None => self.turns_from(c.step, c.deck + 1, near),
        }
    }
}
