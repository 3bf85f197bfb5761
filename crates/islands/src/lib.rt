// The label of each polygon of a deck: the least number that reaches it (document 01, section 8, `bake_islands_detection`).
// Output and work are the caller's memory, as C lends it, so places in them are numbers: nothing is allocated. Labels, queue and the queue's end are
// three parameters: each function of the walk writes both and moves the end, and a type of the three would be lent on at each call.
#![tactic(auto)]

ghost use Rattle.std.specs.Prelude.{◌≡◌, ◌||◌, ◌++◌, ◌+◌, ◌*◌, ◌≤◌, ◌<◌, eqb, ltb, length, drop, replicate};
ghost use Rattle.words.specs.Bytes.{all_ones, words_of, put_u32, number_at};
ghost use Rattle.ship.specs.Layout.{number_size};
ghost use Rattle.ship.specs.Model.{neighbours_of};
ghost use Rattle.decks.specs.Opened.{opened};
ghost use Rattle.islands.specs.Islands.{list_inside, polygon_inside, question19, islands_check, IslandsWorked, LabelsLeast};
ghost use Rattle.islands.specs.Walk.{no_label, Marked, MarkReady, ListReady, ListRead, PolygonReady, PolygonRead};
ghost use Rattle.islands.specs.Walk.{WalkReady, Walked, LabelReady, LabelsPut};

use answers::{Answer, Refusal};
use decks::{Deck, Ship};
use ship::NUMBER_SIZE;

// An entry that is no polygon, the outside. In a label's place: none yet.
const ALL_ONES: usize = words::ALL_ONES as usize;

// Number k of a slice.
fn number_at(s: &[u8], k: usize) -> usize
    requires { number_size * k + number_size ≤ length s.now }
    ensures { result ≡ number_at s.now k }
{
    words::size_at(s, NUMBER_SIZE * k)
}

fn put_number(s: &mut [u8], k: usize, x: usize)
    requires { (number_size * k + number_size ≤ length s.old) × (x ≤ all_ones) }
    ensures { s.new ≡ put_u32 s.old (number_size * k) x }
{
    words::put_u32(s, NUMBER_SIZE * k, x as u32)
}

// Question 19 of one entry.
fn entry_inside(e: usize, n: usize) -> bool
    ensures { result ≡ (eqb e all_ones || ltb e n) }
{
    e == ALL_ONES || e < n
}

// Of the list of vertex v.
#[tactic(auto, unfolding(crate::specs::Islands::list_inside, words::specs::Rows::every))]
fn list_inside(deck: &Deck<'_>, v: usize, n: usize) -> bool
    requires { v < length deck.now.vertices }
    ensures { result ≡ list_inside n (neighbours_of deck.now v) }
{
    (0..deck.neighbour_count(v)).all(|j| entry_inside(deck.neighbour(v, j) as usize, n))
}

// Of the lists of polygon k's vertices.
#[tactic(auto, unfolding(crate::specs::Islands::polygon_inside, words::specs::Rows::every))]
fn polygon_inside(deck: &Deck<'_>, k: usize, n: usize) -> bool
    requires { k < length deck.now.polygons }
    ensures { result ≡ polygon_inside deck.now n k }
{
    (0..deck.corner_count(k)).all(|c| list_inside(deck, deck.corner(k, c), n))
}

// Of all polygons.
#[tactic(auto, unfolding(crate::specs::Islands::question19, words::specs::Rows::every))]
pub fn entries_inside(deck: &Deck<'_>) -> bool
    ensures { result ≡ question19 deck.now }
{
    let n = deck.polygon_count();
    (0..n).all(|k| polygon_inside(deck, k, n))
}

// Questions 1 to 19.
fn islands_check(file: &[u8], deck: u32) -> Result<Ship<'_>, Refusal>
    ensures { result ≡ opened (islands_check file.now deck) file.now }
{
    let ship = Ship::open(file)?;
    let d = deck as usize;
    if d >= ship.deck_count() {
        return Err(Refusal::NoSuchDeck);
    }
    if !entries_inside(&ship.deck(d)) {
        return Err(Refusal::NoSuchNeighbour);
    }
    Ok(ship)
}

// No label in any of the n places.
fn no_labels(out: &mut [u8], n: usize)
    requires { number_size * n ≤ length out.old }
    ensures { out.new ≡ words_of (replicate n no_label) ++ drop (number_size * n) out.old }
{
    out[..NUMBER_SIZE * n].fill(0xFF);
}

// Polygon e, which i reaches: if it has no label yet it gets i, and goes to the end of the queue. Returns where the queue ends.
fn mark(e: usize, i: usize, tail: usize, out: &mut [u8], work: &mut [u8]) -> usize
    requires { MarkReady e i tail out.old work.old }
    ensures { Marked e i tail out.old out.new work.old work.new result }
{
    if number_at(out, e) != ALL_ONES {
        return tail;
    }
    put_number(out, e, i);
    put_number(work, tail, e);
    tail + 1
}

// Marks each polygon in the list of vertex v.
fn read_list(
    deck: &Deck<'_>,
    v: usize,
    i: usize,
    tail: usize,
    out: &mut [u8],
    work: &mut [u8],
) -> usize
    requires { ListReady deck.now v i out.old work.old tail }
    ensures { ListRead deck.now v i out.old out.new
        work.old work.new tail result }
{
    let end = deck.neighbour_count(v);
    let mut t = tail;
    'entries: for j in 0..end {
        let e = deck.neighbour(v, j) as usize;
        if e == ALL_ONES {
            continue;
        }
        t = mark(e, i, t, out, work);
    }
    t
}

// Marks each polygon in the lists of polygon k's vertices.
fn read_lists(
    deck: &Deck<'_>,
    k: usize,
    i: usize,
    tail: usize,
    out: &mut [u8],
    work: &mut [u8],
) -> usize
    requires { PolygonReady deck.now k i out.old work.old tail }
    ensures { PolygonRead deck.now k i out.old out.new
        work.old work.new tail result }
{
    let end = deck.corner_count(k);
    let mut t = tail;
    'corners: for c in 0..end {
        let v = deck.corner(k, c);
        t = read_list(deck, v, i, t, out, work);
    }
    t
}

// Marks all that i reaches. The queue in `work` is never reset, so each polygon is put there once.
fn walk(deck: &Deck<'_>, i: usize, tail: usize, out: &mut [u8], work: &mut [u8]) -> usize
    requires { WalkReady deck.now i out.old work.old tail }
    ensures { Walked deck.now i out.old out.new work.old work.new result }
{
    let mut t = mark(i, i, tail, out, work);
    let mut head = tail;
    // A while: the end moves.
    'queue: while head < t {
        let k = number_at(work, head);
        head += 1;
        t = read_lists(deck, k, i, t, out, work);
    }
    t
}

// Walks from each polygon in turn, so that the first to reach another is the least.
pub fn label_all(deck: &Deck<'_>, out: &mut [u8], work: &mut [u8])
    requires { LabelReady deck.now out.old work.old }
    ensures { LabelsPut deck.now out.old out.new
        work.old work.new }
{
    // A deck of the walks' own, since what is borrowed is read anew after each write.
    let own = deck.own();
    let n = deck.polygon_count();
    no_labels(out, n);
    let mut tail: usize = 0;
    'starts: for i in 0..n {
        tail = walk(&own, i, tail, out, work);
    }
    words::clear(work);
}

// The labels of a deck's polygons, 4 bytes each. `work` holds the polygons whose lists are still to be read, each once.
pub fn bake_islands_detection(file: &[u8], deck: u32, out: &mut [u8], work: &mut [u8]) -> Answer
    ensures replied { IslandsWorked file.now deck out.old out.new
        work.old work.new result }
    ensures labelled { LabelsLeast file.now deck }
{
    let ship = islands_check(file, deck)?;
    let labelled = ship.deck(deck as usize);
    let n = labelled.polygon_count();
    if !answers::room_for(NUMBER_SIZE, n, work.len()) {
        return Err(Refusal::NoRoom);
    }
    if !answers::room_for(NUMBER_SIZE, n, out.len()) {
        return Err(Refusal::NoRoom);
    }
    label_all(&labelled, out, work);
    Ok(n)
}
