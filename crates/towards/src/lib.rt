// The closest place in a line towards a point (document 02, point 2): step by step, and in a step deck by deck; the first hit ends the search.
#![tactic(auto)]

ghost use Rattle.std.specs.Prelude.{◌≡◌, ◌<◌};
ghost use Rattle.answers.specs.Replies.{Replied};
ghost use Rattle.ship.specs.Layout.{decks_in};
ghost use Rattle.ship.specs.Decode.{decode};
ghost use Rattle.ship.specs.Questions.{first_no};
ghost use Rattle.decks.specs.Opened.{opened};
ghost use Rattle.towards.specs.Towards.{sample_towards, point_towards, deck_gives, step_gives, all_given, first_of, towards_check, TowardsReplied, PlaceReady, place_reply};
ghost use Rattle.towards.specs.Statement.{SnapSurveyed};

use answers::{Answer, Refusal};
use calls::ENTRY_SIZE;
use decks::Ship;
use geometry::Vec2;

// A polygon at the sample of a step on a deck.
#[derive(Clone, Copy, Debug, PartialEq, Eq)]
pub struct Place {
    pub step: usize,
    pub deck: usize,
    pub polygon: usize,
}

// Where a search goes: from p on the ship in a direction.
#[derive(Clone, Copy)]
struct Line<'a> {
    ship: &'a Ship<'a>,
    p: Vec2,
    direction: Vec2,
}

// A deck's turn in a step of it.
#[derive(Clone, Copy)]
struct Turn<'a> {
    line: &'a Line<'a>,
    step: usize,
    deck: usize,
    ghost few: { step < 16 },
    ghost there: { deck < decks_in line.now.ship.now },
}

impl Turn<'_> {
    // Its sample, in the deck's own coordinates.
    #[tactic(auto, unfolding(crate::specs::Towards::sample_towards))]
    fn sample(&self) -> Vec2
        ensures { result ≡ sample_towards (decode self.now.line.now.ship.now) self.now.line.now.p self.now.line.now.direction
            self.now.step self.now.deck }
    {
        let line = self.line;
        let around = line.p - line.ship.deck(self.deck).offset();
        ring::along(around, line.direction, line.ship.reach(), self.step)
    }

    // The first polygon that passes there.
    #[tactic(auto, using(crate::proofs::Turns::turns))]
    fn hit(&self) -> Option<Place>
        ensures { result ≡ first_of (deck_gives (decode self.now.line.now.ship.now) self.now.line.now.p self.now.line.now.direction
            self.now.step self.now.deck) }
    {
        let q = self.sample();
        let hit = search::next_hit(&self.line.ship.deck(self.deck), q, self.step, 0)?;
        Some(Place {
            step: self.step,
            deck: self.deck,
            polygon: hit.polygon,
        })
    }

    // Where it lies; and that the file passed, which bounds the numbers of its entry.
    #[tactic(auto, unfolding(crate::specs::Towards::point_towards))]
    fn point(&self) -> Vec2
        ensures is { result ≡ point_towards (decode self.now.line.now.ship.now) self.now.line.now.p self.now.line.now.direction
            self.now.step self.now.deck }
        ensures passed { first_no self.now.line.now.ship.now ≡ Ok tt }
    {
        let sample = self.sample();
        sample + self.line.ship.deck(self.deck).offset()
    }
}

impl Line<'_> {
    // The first place of step s, on the first deck that it hits on, of the named deck or of all in rising order.
    fn step_hit(&self, deck: u32, s: usize) -> Option<Place>
        requires { s < 16 }
        ensures { result ≡ first_of (step_gives (decode self.now.ship.now) self.now.p self.now.direction deck s) }
    {
        let count = self.ship.deck_count();
        'decks: for d in 0..count {
            if !answers::looks_at(deck, d) {
                continue;
            }
            // `&*self`: in a loop the parameter has to be lent again.
            let turn = Turn {
                line: &*self,
                step: s,
                deck: d,
            };
            if let Some(place) = turn.hit() {
                return Some(place);
            }
        }
        None
    }

    // The same in the first step that hits.
    fn first_hit(&self, deck: u32) -> Option<Place>
        ensures { result ≡ first_of (all_given (decode self.now.ship.now) self.now.p self.now.direction deck) }
    {
        let steps = self.ship.steps();
        'steps: for s in 0..steps {
            if let Some(place) = self.step_hit(deck, s) {
                return Some(place);
            }
        }
        None
    }

    // The place that was found, where the output has room for it.
    fn put_place(&self, place: Place, out: &mut [u8]) -> Answer
        requires { PlaceReady self.now.ship.now self.now.p self.now.direction place }
        ensures { Replied (place_reply self.now.ship.now self.now.p self.now.direction place) out.old out.new result }
    {
        if !answers::room_for(ENTRY_SIZE, 1, out.len()) {
            return Err(Refusal::NoRoom);
        }
        let turn = Turn {
            line: self,
            step: place.step,
            deck: place.deck,
        };
        let point = turn.point();
        calls::put_candidate(out, 0, decks::packed(place.deck, place.polygon), point);
        Ok(1)
    }
}

// Questions 1 to 22.
#[tactic(auto, using(answers::proofs::Asking::handed_on), unfolding(crate::specs::Towards::towards_check, crate::specs::Towards::question22))]
fn towards_check(file: &[u8], p: Vec2, towards: Vec2, deck: u32) -> Result<Ship<'_>, Refusal>
    ensures { result ≡ opened (towards_check file.now p towards deck) file.now }
{
    let ship = Ship::open(file)?;
    if !calls::place_in_size(p) {
        return Err(Refusal::CallFloatOutOfRange);
    }
    if !calls::place_in_size(towards) {
        return Err(Refusal::CallFloatOutOfRange);
    }
    if !answers::deck_there(ship.deck_count(), deck) {
        return Err(Refusal::NoSuchDeck);
    }
    if direction::squared_distance(p, towards) == 0.0 {
        return Err(Refusal::NoDirection);
    }
    Ok(ship)
}

// The first place that a search from p towards a point finds, or none.
pub fn get_closest_point_towards(
    file: &[u8],
    p: Vec2,
    towards: Vec2,
    deck: u32,
    out: &mut [u8],
) -> Answer
    ensures replied { TowardsReplied file.now p towards deck out.old out.new result }
    ensures surveyed { SnapSurveyed file.now p towards deck result out.new }
{
    let ship = towards_check(file, p, towards, deck)?;
    let line = Line {
        ship: &ship,
        p,
        direction: direction::direction_towards(p, towards),
    };
    match line.first_hit(deck) {
        None => Ok(0),
        Some(place) => line.put_place(place, out),
    }
}
