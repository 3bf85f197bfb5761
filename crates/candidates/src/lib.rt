// The polygons that a point may be on (document 01, section 8, `candidate_polygons`).
#![tactic(auto)]

ghost use Rattle.std.specs.Prelude.{◌≡◌, [], ◌∷◌, ◌*◌, ◌≤◌, length};
ghost use Rattle.answers.specs.Questions.{question20};
ghost use Rattle.ship.specs.Layout.{number_size};
ghost use Rattle.decks.specs.Opened.{opened};
ghost use Rattle.numbering.specs.Numbers.{merged_of};
ghost use Rattle.candidates.specs.Candidates.{candidate_check, CandidatesWorked, CandidatesMerged};
ghost use Rattle.candidates.specs.Written.{NumbersWorked, NumbersMerged, FoundReady, found_merged};

use answers::{Answer, Refusal};
use decks::Ship;
use geometry::Vec2;
use keeping::{KEPT_SIZE, NEAR_SIZE};
use ring::Directions;
use ship::NUMBER_SIZE;
use walking::{Search, Step};

// The most numbers that are merged in an array of one's own, and its bytes.
const OWN_NUMBERS: usize = 16384;

const OWN_BYTES: usize = NUMBER_SIZE * OWN_NUMBERS;

// Questions 1 to 16.
#[tactic(auto, using(answers::proofs::Asking::handed_on), unfolding(crate::specs::Candidates::candidate_check))]
fn candidate_check<'a>(file: &'a [u8], p: Vec2, blocked: &[u8]) -> Result<Ship<'a>, Refusal>
    ensures { result ≡ opened (candidate_check file.now p blocked.now) file.now }
{
    let ship = Ship::open(file)?;
    if !answers::blocked_whole(blocked) {
        return Err(Refusal::WrongLength);
    }
    if !calls::place_in_size(p) {
        return Err(Refusal::CallFloatOutOfRange);
    }
    Ok(ship)
}

// No polygon.
fn put_none(out: &mut [u8], work: &mut [u8]) -> Answer
    ensures { NumbersWorked [] out.old out.new work.old work.new result }
{
    words::clear(work);
    Ok(0)
}

// The polygon that was named.
fn put_named(polygon: u32, out: &mut [u8], work: &mut [u8]) -> Answer
    ensures { NumbersWorked (polygon ∷ []) out.old out.new work.old work.new result }
{
    if !answers::room_for(NUMBER_SIZE, 1, out.len()) {
        return Err(Refusal::NoRoom);
    }
    words::put_u32(out, 0, polygon);
    words::clear(work);
    Ok(1)
}

// Of the numbers of a step those that stay come first in the list. How many they are is returned.
fn merge_numbers(step: &Step<'_>, list: &mut [u8]) -> usize
    requires { number_size * step.now.count ≤ length list.old }
    ensures { NumbersMerged (merged_of step.now) list.old list.new result }
{
    numbering::put_numbers(step.search, step.number, list);
    merging::merge_touching_readings(step.search.ship, list, step.count)
}

// How many of them stay, with nothing lent altered.
fn count_staying(step: &Step<'_>) -> usize
    ensures { result ≡ length (merged_of step.now) }
{
    if step.count > OWN_NUMBERS {
        return numbering::count_by_midpoints(step);
    }
    let mut own = [0u8; OWN_BYTES];
    merge_numbers(step, &mut own)
}

// Question 20 of those that stay. Where all have room it needs no count of them.
fn staying_fit(step: &Step<'_>, room: usize) -> bool
    ensures { result ≡ question20 (number_size * length (merged_of step.now)) room }
{
    if answers::room_for(NUMBER_SIZE, step.count, room) {
        return true;
    }
    let stay = count_staying(step);
    answers::room_for(NUMBER_SIZE, stay, room)
}

// The numbers of a step that stay. They are merged in `work`, once question 20 has passed.
fn put_staying(step: &Step<'_>, out: &mut [u8], work: &mut [u8]) -> Answer
    requires { number_size * step.now.count ≤ length work.old }
    ensures { NumbersWorked (merged_of step.now) out.old out.new work.old work.new result }
{
    if !staying_fit(step, out.len()) {
        return Err(Refusal::NoRoom);
    }
    let stay = merge_numbers(step, work);
    words::put_front(work, NUMBER_SIZE * stay, out);
    words::clear(work);
    Ok(stay)
}

// The polygons around p, merged.
fn put_found(
    ship: &Ship<'_>,
    p: Vec2,
    deck: u32,
    blocked: &[u8],
    out: &mut [u8],
    work: &mut [u8],
) -> Answer
    requires { FoundReady ship.now p deck blocked.now work.old }
    ensures { NumbersWorked (found_merged ship.now p deck blocked.now) out.old out.new
        work.old work.new result }
{
    let directions = Directions::all();
    let seat = calls::asked_at(p, deck);
    let mut kept = [0u32; KEPT_SIZE];
    let mut near = [0u32; NEAR_SIZE];
    let found = placing::place_seat(ship, blocked, &directions, seat, &mut kept, &mut near);
    if records::unplaced(found) {
        return put_none(out, work);
    }
    let search = Search {
        ship,
        blocked,
        directions: &directions,
        seat,
        kept: &kept,
    };
    let step = Step {
        search: &search,
        number: found.step as usize,
        count: found.candidates as usize,
    };
    put_staying(&step, out, work)
}

// The polygons that a point may be on, without those that an earlier one reaches; or the one that is named.
pub fn candidate_polygons(
    file: &[u8],
    p: Vec2,
    deck: u32,
    polygon: u32,
    blocked: &[u8],
    out: &mut [u8],
    work: &mut [u8],
) -> Answer
    ensures replied { CandidatesWorked file.now p deck polygon blocked.now
        out.old out.new work.old work.new result }
    ensures merged { CandidatesMerged file.now p deck blocked.now }
{
    let ship = candidate_check(file, p, blocked)?;
    if !answers::room_for(NUMBER_SIZE, ship.polygon_total(), work.len()) {
        return Err(Refusal::NoRoom);
    }
    if polygon != words::ALL_ONES {
        return put_named(polygon, out, work);
    }
    if !answers::deck_there(ship.deck_count(), deck) {
        return put_none(out, work);
    }
    put_found(&ship, p, deck, blocked, out, work)
}
