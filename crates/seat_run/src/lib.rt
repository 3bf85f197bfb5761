// The seat run (document 01, section 7).
#![tactic(auto)]

ghost use Rattle.std.specs.Prelude.{◌≡◌, true, not, ◌+◌, ◌*◌, ◌≤◌, ◌<◌, T, Ok, length};
ghost use Rattle.std.specs.Float.{binary32};
ghost use Rattle.std.specs.Float.Ieee.{nan_bits};
ghost use Rattle.geometry.specs.Bounds.{PointWithin};
ghost use Rattle.words.specs.Bytes.{splice};
ghost use Rattle.answers.specs.Checks.{check_each};
ghost use Rattle.records.specs.Record.{record_size, record_bytes};
ghost use Rattle.ship.specs.Floats.{in_size};
ghost use Rattle.ship.specs.Decode.{decode};
ghost use Rattle.decks.specs.Opened.{opened};
ghost use Rattle.keeping.specs.Lists.{ListsRoom};
ghost use Rattle.seat_run.specs.SeatFile.{seat_size, seat_word, seat_float, seat_at, seat_count, kind_allowed, question16_seat, seat_check};
ghost use Rattle.seat_run.specs.Run.{record_of_seat, run_check, RunReplied, RecordsRoom, RecordsPut};
ghost use Rattle.seat_run.specs.Survey.{Surveyed};
ghost use Rattle.seat_run.specs.Blocked.{BlockedUnplaced};
ghost use Rattle.seat_run.specs.NoDecks.{NoDecksReplied};

use answers::{Answer, Check, Refusal};
use decks::Ship;
use geometry::Vec2;
use keeping::{KEPT_SIZE, NEAR_SIZE};
use records::{RECORD_SIZE, SeatRecord};
use ring::Directions;
use survey::{DeckChoice, Seat, Wish};

pub const SEAT_SIZE: usize = 20;

// Question 15.
#[tactic(auto, unfolding(crate::specs::SeatFile::kind_allowed))]
fn kind_allowed(kind: u32, height: u32) -> bool
    ensures { result ≡ kind_allowed kind height }
{
    (kind == 0 && height == 0) || kind == 1
}

// A seat of a list, by its number there.
#[derive(Clone, Copy)]
struct ListedSeat<'a> {
    seats: &'a [u8],
    number: usize,
    ghost there: { seat_size * number + seat_size ≤ length seats.now },
}

impl ListedSeat<'_> {
    // Number k of its five.
    fn word(&self, k: usize) -> u32
        requires { k < 5 }
        ensures { result ≡ seat_word self.now.seats.now self.now.number k }
    {
        words::u32_at(self.seats, SEAT_SIZE * self.number + 4 * k)
    }

    fn float(&self, k: usize) -> f32
        requires { (k < 5) × T (not (nan_bits binary32 (seat_word self.now.seats.now self.now.number k))) }
        ensures { result ≡ seat_float self.now.seats.now self.now.number k }
    {
        words::f32_at(self.seats, SEAT_SIZE * self.number + 4 * k)
    }

    // The seat itself.
    fn seat(&self) -> Seat
        requires { question16_seat self.now.seats.now self.now.number ≡ true }
        ensures { (result ≡ seat_at self.now.seats.now self.now.number) × PointWithin 1000000 result.place }
    {
        Seat {
            place: Vec2 {
                x: self.float(0),
                y: self.float(1),
            },
            choice: DeckChoice::from(self.word(2)),
            wish: if self.word(3) == 0 {
                Wish::NoWish
            } else {
                Wish::Wished(self.float(4))
            },
        }
    }

    // Question 16 of one of its floats, and of all three.
    fn float_in_size(&self, k: usize) -> bool
        requires { k < 5 }
        ensures { result ≡ in_size (seat_float self.now.seats.now self.now.number k) }
    {
        ship::in_size(self.word(k))
    }

    #[tactic(auto, unfolding(crate::specs::SeatFile::question16_seat))]
    fn floats_in_size(&self) -> bool
        ensures { result ≡ question16_seat self.now.seats.now self.now.number }
    {
        self.float_in_size(0) && self.float_in_size(1) && self.float_in_size(4)
    }

    // Questions 15 to 17.
    #[tactic(auto, using(crate::proofs::SeatAsks::seat_asks))]
    fn check(&self, decks: usize) -> Check
        ensures { result ≡ seat_check self.now.seats.now decks self.now.number }
    {
        if !kind_allowed(self.word(3), self.word(4)) {
            return Err(Refusal::KindNotAllowed);
        }
        if !self.floats_in_size() {
            return Err(Refusal::CallFloatOutOfRange);
        }
        if !answers::deck_there(decks, self.word(2)) {
            return Err(Refusal::NoSuchDeck);
        }
        Ok(())
    }
}

// Seat by seat.
fn seats_check(seats: &[u8], decks: usize) -> Check
    ensures { result ≡ check_each (seat_check seats.now decks) 0 (seat_count seats.now) }
{
    let count = seats.len() / SEAT_SIZE;
    'seats: for number in 0..count {
        ListedSeat { seats, number }.check(decks)?;
    }
    Ok(())
}

// Questions 1 to 17 of the run.
pub fn run_check<'a>(file: &'a [u8], blocked: &[u8], seats: &[u8]) -> Result<Ship<'a>, Refusal>
    ensures { result ≡ opened (run_check file.now blocked.now seats.now) file.now }
{
    let ship = Ship::open(file)?;
    if !answers::blocked_whole(blocked) {
        return Err(Refusal::WrongLength);
    }
    if seats.len() % SEAT_SIZE != 0 {
        return Err(Refusal::WrongLength);
    }
    seats_check(seats, ship.deck_count())?;
    Ok(ship)
}

// What a run asks of: the ship, the blocked decks, the directions, and a list of seats, all of which passed questions 1 to 17.
#[derive(Clone, Copy)]
pub struct SeatRun<'a> {
    pub ship: &'a Ship<'a>,
    pub blocked: &'a [u8],
    pub directions: &'a Directions,
    pub seats: &'a [u8],
    pub ghost passed: { run_check ship.now blocked.now seats.now ≡ Ok tt },
}

// The arrays that a run is lent: for the decks' kept lists, and for a step's own.
#[derive(Drop)]
pub struct Lists<'a> {
    pub kept: &'a mut [u32],
    pub near: &'a mut [u32],
    pub ghost room: { ListsRoom kept.now },
}

// Seat i is placed, and its record written at its place in the output.
pub fn put_seat(run: &SeatRun<'_>, i: usize, out: &mut [u8], lists: &mut Lists<'_>) -> SeatRecord
    requires { RecordsRoom run.now.seats.now out.old × (i < seat_count run.now.seats.now) }
    ensures recorded { (result ≡ record_of_seat (decode run.now.ship.now) run.now.blocked.now run.now.seats.now i)
        × (out.new ≡ splice out.old (record_size * i) (record_bytes result)) }
    ensures lengths { (length lists.new.kept.now ≡ length lists.old.kept.now)
        × (length lists.new.near.now ≡ length lists.old.near.now) }
{
    let listed = ListedSeat {
        seats: run.seats,
        number: i,
    };
    let record = placing::place_seat(
        run.ship,
        run.blocked,
        run.directions,
        listed.seat(),
        lists.kept,
        lists.near,
    );
    records::put_record(out, i, record);
    record
}

// One record a seat, in list order.
#[tactic(auto, using(crate::proofs::RunLoop::recording))]
fn put_records(run: &SeatRun<'_>, out: &mut [u8], lists: &mut Lists<'_>)
    requires { RecordsRoom run.now.seats.now out.old }
    ensures { RecordsPut run.now.ship.now run.now.blocked.now run.now.seats.now
        out.old out.new }
{
    let count = run.seats.len() / SEAT_SIZE;
    'seats: for seat in 0..count {
        put_seat(run, seat, out, lists);
    }
}

// The run, over two arrays of any length that it is lent for kept lists. They alter no answer. What it promises stands here and at `run`,
// since a caller learns no more than the function that it calls says.
pub fn run_over(
    file: &[u8],
    blocked: &[u8],
    seats: &[u8],
    out: &mut [u8],
    kept: &mut [u32],
    near: &mut [u32],
) -> Answer
    requires { ListsRoom kept.old }
    ensures replied { RunReplied file.now blocked.now seats.now
        out.old out.new result }
    ensures surveyed { Surveyed file.now blocked.now seats.now result out.new }
    ensures unsearched { BlockedUnplaced file.now blocked.now seats.now result out.new }
    ensures no_decks { NoDecksReplied file.now blocked.now seats.now
        out.old out.new result }
{
    let ship = run_check(file, blocked, seats)?;
    let count = seats.len() / SEAT_SIZE;
    if !answers::room_for(RECORD_SIZE, count, out.len()) {
        return Err(Refusal::NoRoom);
    }
    let directions = Directions::all();
    let run = SeatRun {
        ship: &ship,
        blocked,
        directions: &directions,
        seats,
    };
    let mut lists = Lists { kept, near };
    put_records(&run, out, &mut lists);
    Ok(count)
}

// The seat run. The surveyor's statement holds of every run that is not refused, and a seat that names a blocked deck is not searched for.
// On a hull with no decks yet no seat is placed.
pub fn run(file: &[u8], blocked: &[u8], seats: &[u8], out: &mut [u8]) -> Answer
    ensures replied { RunReplied file.now blocked.now seats.now
        out.old out.new result }
    ensures surveyed { Surveyed file.now blocked.now seats.now result out.new }
    ensures unsearched { BlockedUnplaced file.now blocked.now seats.now result out.new }
    ensures no_decks { NoDecksReplied file.now blocked.now seats.now
        out.old out.new result }
{
    let mut kept = [0u32; KEPT_SIZE];
    let mut near = [0u32; NEAR_SIZE];
    run_over(file, blocked, seats, out, &mut kept, &mut near)
}
