// The record of a seat (document 01, section 7): read from bytes and written to them.
#![tactic(auto)]

ghost use Rattle.std.specs.Prelude.{◌≡◌, ◌+◌, ◌*◌, ◌≤◌, length};
ghost use Rattle.words.specs.Bytes.{splice};
ghost use Rattle.records.specs.Record.{record_size, word_at, record_at, record_bytes, is_unplaced};

pub const RECORD_SIZE: usize = 36;

// The nine numbers, in the record's order. Floats are there by their bits.
#[derive(Clone, Copy, Debug, PartialEq, Eq)]
pub struct SeatRecord {
    pub polygon: u32,
    pub x: u32,
    pub y: u32,
    pub kind: u32,
    pub height: u32,
    pub step: u32,
    pub sample: u32,
    pub tried: u32,
    pub candidates: u32,
}

// Number k of record i.
fn word_at(records: &[u8], i: usize, k: usize) -> u32
    requires { record_size * i + 4 * k + 4 ≤ length records.now }
    ensures { result ≡ word_at records.now i k }
{
    words::u32_at(records, RECORD_SIZE * i + 4 * k)
}

#[tactic(auto, unfolding(crate::specs::Record::record_at))]
pub fn record_at(records: &[u8], i: usize) -> SeatRecord
    requires { record_size * i + record_size ≤ length records.now }
    ensures { result ≡ record_at records.now i }
{
    // Each field beside its place: read by an array, the places would stand apart from the names.
    SeatRecord {
        polygon: word_at(records, i, 0),
        x: word_at(records, i, 1),
        y: word_at(records, i, 2),
        kind: word_at(records, i, 3),
        height: word_at(records, i, 4),
        step: word_at(records, i, 5),
        sample: word_at(records, i, 6),
        tried: word_at(records, i, 7),
        candidates: word_at(records, i, 8),
    }
}

#[tactic(auto, unfolding(crate::specs::Record::record_bytes))]
pub fn put_record(out: &mut [u8], i: usize, r: SeatRecord)
    requires { record_size * i + record_size ≤ length out.old }
    ensures { out.new ≡ splice out.old (record_size * i) (record_bytes r) }
{
    let words = [
        r.polygon,
        r.x,
        r.y,
        r.kind,
        r.height,
        r.step,
        r.sample,
        r.tried,
        r.candidates,
    ];
    words::put_words(out, RECORD_SIZE * i, &words)
}

// Whether it is the record of a seat that has no place.
pub fn unplaced(r: SeatRecord) -> bool
    ensures { result ≡ is_unplaced r }
{
    r.polygon == words::ALL_ONES
}
