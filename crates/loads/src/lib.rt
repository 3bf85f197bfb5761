// The seat run with a load sheet beside the records (document 02, point 4). Table and work are the caller's memory, as C lends it, so places in them
// are numbers: nothing is allocated.
#![tactic(auto)]

ghost use Rattle.std.specs.Prelude.{◌≡◌, ◌+◌, ◌*◌, ◌^◌, ◌≤◌, ◌<◌, length};
ghost use Rattle.words.specs.Bytes.{count_at};
ghost use Rattle.words.specs.Rows.{every};
ghost use Rattle.ship.specs.Layout.{decks_in};
ghost use Rattle.ship.specs.Model.{deck_of, polygon_total};
ghost use Rattle.islands.specs.Islands.{question19};
ghost use Rattle.ship.specs.Decode.{decode};
ghost use Rattle.decks.specs.Opened.{opened};
ghost use Rattle.seat_run.specs.Survey.{Surveyed};
ghost use Rattle.seat_run.specs.Blocked.{BlockedUnplaced};
ghost use Rattle.loads.specs.Sheet.{sheet_length};
ghost use Rattle.loads.specs.Loads.{count_size, labels_check, loads_check, LoadsReplied};
ghost use Rattle.loads.specs.Totals.{Totalled};
ghost use Rattle.loads.specs.Portions.{Portioned};
ghost use Rattle.loads.specs.Counting.{DeckReady, DeckLabelled, LabelsReady, LabelsLeft};
ghost use Rattle.loads.specs.Counting.{one_more, ThreeReady, counted_at, PlacedReady, seat_counted, CountReady};
ghost use Rattle.loads.specs.Counting.{CountsReady, CountsPut, SheetReady, SheetPut, rooms_fit, TableReady, TablePut};

use answers::{Answer, Check, Refusal};
use decks::Ship;
use keeping::{KEPT_SIZE, NEAR_SIZE};
use records::RECORD_SIZE;
use ring::Directions;
use seat_run::{Lists, SEAT_SIZE, SeatRun};
use ship::NUMBER_SIZE;

pub const COUNT_SIZE: usize = 8;

// Question 19 of all decks.
#[tactic(auto, unfolding(words::specs::Rows::every))]
fn entries_inside(ship: &Ship<'_>) -> bool
    ensures { result ≡ every (λ d. question19 (deck_of (decode ship.now) d)) 0 (decks_in ship.now) }
{
    (0..ship.deck_count()).all(|d| islands::entries_inside(&ship.deck(d)))
}

// Put to each deck in rising order. All would refuse alike.
#[tactic(auto, using(crate::proofs::LabelLoop::label_asks))]
fn labels_check(ship: &Ship<'_>) -> Check
    ensures { result ≡ labels_check (decode ship.now) }
{
    if !entries_inside(ship) {
        return Err(Refusal::NoSuchNeighbour);
    }
    Ok(())
}

// Questions 1 to 19.
fn loads_check<'a>(file: &'a [u8], blocked: &[u8], seats: &[u8]) -> Result<Ship<'a>, Refusal>
    ensures { result ≡ opened (loads_check file.now blocked.now seats.now) file.now }
{
    let ship = seat_run::run_check(file, blocked, seats)?;
    labels_check(&ship)?;
    Ok(ship)
}

// The labels of deck d's polygons, at `at` in the work. The table is the queue of the walk. Returns where the next deck's labels begin.
fn label_deck(ship: &Ship<'_>, d: usize, at: usize, table: &mut [u8], work: &mut [u8]) -> usize
    requires { DeckReady ship.now d at table.old work.old }
    ensures { DeckLabelled ship.now d at table.old table.new
        work.old work.new result }
{
    let deck = ship.deck(d);
    islands::label_all(&deck, &mut work[at..], table);
    at + NUMBER_SIZE * deck.polygon_count()
}

// The labels of all decks' polygons, decks rising. The table's counts are still to come, and it is all zeros afterwards.
fn put_labels(ship: &Ship<'_>, table: &mut [u8], work: &mut [u8])
    requires { LabelsReady ship.now table.old work.old }
    ensures { LabelsLeft ship.now table.old table.new work.old work.new }
{
    words::clear(table);
    let decks = ship.deck_count();
    let mut at: usize = 0;
    'decks: for d in 0..decks {
        at = label_deck(ship, d, at, table, work);
    }
}

// One more at place k of the table.
#[tactic(auto, using(crate::proofs::Adding::adding))]
fn add_one(table: &mut [u8], k: usize)
    requires { (count_size * k + count_size ≤ length table.old) × (count_at table.old k + 1 < 2 ^ 64) }
    ensures { table.new ≡ one_more table.old k }
{
    let count = words::u64_at(table, COUNT_SIZE * k);
    words::put_u64(table, COUNT_SIZE * k, count + 1)
}

// One more at three places. A loop over an array of them would be no plainer.
fn add_three(table: &mut [u8], a: usize, b: usize, c: usize)
    requires { ThreeReady table.old a b c }
    ensures { table.new ≡ one_more (one_more (one_more table.old a) b) c }
{
    add_one(table, a);
    add_one(table, b);
    add_one(table, c);
}

// Where the counts of a ship's sheet stand: the ship, and how many polygons and decks it has.
#[derive(Clone, Copy)]
struct Places<'a> {
    ship: &'a Ship<'a>,
    total: usize,
    decks: usize,
    ghost total_is: { total ≡ polygon_total (decode ship.now) },
    ghost total_few: { total < 2 ^ 32 },
    ghost decks_is: { decks ≡ decks_in ship.now },
    ghost decks_few: { decks ≤ 256 },
}

impl<'a> Places<'a> {
    fn of(ship: &'a Ship<'a>) -> Self
        ensures { result.ship.now ≡ ship.now }
    {
        Places {
            ship,
            total: ship.polygon_total(),
            decks: ship.deck_count(),
        }
    }

    // How many counts there are.
    #[tactic(auto, using(crate::proofs::LoadsCall::sheet_many))]
    fn length(&self) -> usize
        ensures { (result ≡ sheet_length (decode self.now.ship.now)) × (result < 2 ^ 34) }
    {
        2 * self.total + self.decks + 1
    }

    // Counts a seat that stands on polygon k of deck d: there, at its island's place, and on the deck.
    fn count_placed(&self, d: usize, k: usize, table: &mut [u8], work: &[u8])
        requires { PlacedReady (decode self.now.ship.now) d k table.old work.now }
        ensures { table.new ≡ counted_at (decode self.now.ship.now) d k table.old }
    {
        let before = self.ship.polygons_before(d);
        let own = before + k;
        let label = words::size_at(work, NUMBER_SIZE * own);
        let island = self.total + (before + label);
        let deck = 2 * self.total + d;
        add_three(table, own, island, deck);
    }

    // Counts a seat whose record has this polygon, or all ones: among the unplaced then.
    fn count_seat(&self, polygon: u32, table: &mut [u8], work: &[u8])
        requires { CountReady (decode self.now.ship.now) polygon table.old work.now }
        ensures { table.new ≡ seat_counted (decode self.now.ship.now) polygon table.old }
    {
        if polygon == words::ALL_ONES {
            add_one(table, 2 * self.total + self.decks);
        } else {
            let d = decks::packed_deck(polygon);
            let k = decks::packed_polygon(polygon);
            self.count_placed(d, k, table, work);
        }
    }
}

// One pass over the seats: each is placed, its record written, and counted. Output, table and work stay apart here, in `put_sheet` and in `put_table`: the
// last cuts the table, `put_sheet` fills and clears the work, and this reads it, so that a type of the three would be taken apart in each.
fn put_counts(
    run: &SeatRun<'_>,
    out: &mut [u8],
    table: &mut [u8],
    work: &[u8],
    lists: &mut Lists<'_>,
)
    requires { CountsReady run.now.ship.now run.now.seats.now out.old table.old work.now }
    ensures { CountsPut run.now.ship.now run.now.blocked.now run.now.seats.now
        out.old out.new table.new }
{
    let places = Places::of(run.ship);
    let count = run.seats.len() / SEAT_SIZE;
    'seats: for seat in 0..count {
        let record = seat_run::put_seat(run, seat, out, lists);
        places.count_seat(record.polygon, table, work);
    }
}

// The labels, then records and counts. The table is as long as the sheet.
fn put_sheet(run: &SeatRun<'_>, out: &mut [u8], table: &mut [u8], work: &mut [u8])
    requires { SheetReady run.now.ship.now run.now.seats.now out.old table.old work.old }
    ensures { SheetPut run.now.ship.now run.now.blocked.now run.now.seats.now out.old out.new
        table.new work.old work.new }
{
    put_labels(run.ship, table, work);
    let mut kept = [0u32; KEPT_SIZE];
    let mut near = [0u32; NEAR_SIZE];
    let mut lists = Lists {
        kept: &mut kept,
        near: &mut near,
    };
    put_counts(run, out, table, work, &mut lists);
    words::clear(work);
}

// Question 20 of the output, the table and the work.
#[tactic(auto, unfolding(crate::specs::Counting::rooms_fit))]
fn rooms_fit(ship: &Ship<'_>, seats: usize, out: usize, table: usize, work: usize) -> bool
    ensures { result ≡ rooms_fit (decode ship.now) seats out table work }
{
    let places = Places::of(ship);
    answers::room_for(RECORD_SIZE, seats, out)
        && answers::room_for(COUNT_SIZE, places.length(), table)
        && answers::room_for(COUNT_SIZE, places.total, work)
}

// The sheet at the front of the table.
#[tactic(auto, using(crate::proofs::LoadsCall::table_putting))]
fn put_table(run: &SeatRun<'_>, out: &mut [u8], table: &mut [u8], work: &mut [u8])
    requires { TableReady run.now.ship.now run.now.seats.now out.old table.old work.old }
    ensures { TablePut run.now.ship.now run.now.blocked.now run.now.seats.now out.old out.new
        table.old table.new work.old work.new }
{
    let size = COUNT_SIZE * Places::of(run.ship).length();
    put_sheet(run, out, &mut table[..size], work);
}

// The seat run with a load sheet. The run's clauses hold of its records; the sheet's counts add up; and a list may be run in portions.
pub fn run_loads(
    file: &[u8],
    blocked: &[u8],
    seats: &[u8],
    out: &mut [u8],
    table: &mut [u8],
    work: &mut [u8],
) -> Answer
    ensures replied { LoadsReplied file.now blocked.now seats.now
        out.old out.new table.old table.new work.old work.new result }
    ensures surveyed { Surveyed file.now blocked.now seats.now result out.new }
    ensures unsearched { BlockedUnplaced file.now blocked.now seats.now result out.new }
    ensures totalled { Totalled file.now result out.new table.new }
    ensures portioned { Portioned file.now blocked.now seats.now result
        out.new table.new }
{
    let ship = loads_check(file, blocked, seats)?;
    let count = seats.len() / SEAT_SIZE;
    if !rooms_fit(&ship, count, out.len(), table.len(), work.len()) {
        return Err(Refusal::NoRoom);
    }
    let directions = Directions::all();
    let run = SeatRun {
        ship: &ship,
        blocked,
        directions: &directions,
        seats,
    };
    put_table(&run, out, table, work);
    Ok(count)
}
