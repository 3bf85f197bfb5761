// The text of `seatlist` from the bytes that it reads (document 01, section 7). Text and records stand in arrays of the most that an input
// can ask for: a run writes into what it is lent, and nothing is allocated.
#![tactic(auto)]

ghost use Rattle.std.specs.Prelude.{◌≡◌, ◌*◌, ◌≤◌, length, Ok};
ghost use Rattle.words.specs.Bytes.{Put};
ghost use Rattle.answers.specs.Replies.{Replied};
ghost use Rattle.listing.specs.Listing.{seat_lines, placed_in, run_text, list_text, seatlist_text, text_reply};
ghost use Rattle.listing.specs.Sizes.{seats_size, records_size, text_size, most_seats, record_count, records_of, Room, Written};

use answers::{Answer, Refusal};
use records::RECORD_SIZE;

// A line a seat, in list order.
fn put_seats(text: &mut [u8], records: &[u8]) -> usize
    requires { Room text.old records.now }
    ensures put { Put text.old 0 (seat_lines 0 (records_of records.now)) text.new result }
    ensures upper_bound { result ≤ 128 * record_count records.now }
{
    let count = records.len() / RECORD_SIZE;
    let mut at: usize = 0;
    'seats: for i in 0..count {
        at = lines::put_seat(text, at, i as u32, records::record_at(records, i));
    }
    at
}

fn count_placed(records: &[u8]) -> u32
    requires { record_count records.now ≤ most_seats }
    ensures { (result ≡ placed_in (records_of records.now)) × (result ≤ record_count records.now) }
{
    (0..records.len() / RECORD_SIZE)
        .filter(|&i| !records::unplaced(records::record_at(records, i)))
        .count() as u32
}

// The lines of a run that was not refused.
fn put_records(text: &mut [u8], records: &[u8]) -> usize
    requires { Room text.old records.now }
    ensures { Written text.old (run_text (Ok tt) (records_of records.now)) text.new result }
{
    let count = records.len() / RECORD_SIZE;
    let end = put_seats(text, records);
    let placed = count_placed(records);
    lines::put_end(text, end, placed, count as u32 - placed)
}

// The run on the parts of an input, with room for its records.
fn put_run(text: &mut [u8], records: &mut [u8], file: &[u8], blocked: &[u8], seats: &[u8]) -> usize
    requires { (length seats.now ≤ seats_size) × (records_size ≤ length records.old) × (text_size ≤ length text.old) }
    ensures { Written text.old (list_text file.now blocked.now seats.now)
        text.new result }
{
    match seat_run::run(file, blocked, seats, records) {
        Err(refusal) => lines::put_refused(text, 0, refusal.number()),
        Ok(count) => put_records(text, &records[..RECORD_SIZE * count]),
    }
}

// The text of an input, with room for its records.
fn put_text(text: &mut [u8], records: &mut [u8], input: &[u8]) -> usize
    requires { (records_size ≤ length records.old) × (text_size ≤ length text.old) }
    ensures { Written text.old (seatlist_text input.now) text.new result }
{
    if !lines::input_allowed(input) {
        return lines::put_refused(text, 0, Refusal::WrongInput.number());
    }
    let file_end = lines::file_end(input);
    let blocked_end = file_end + 32;
    put_run(
        text,
        records,
        &input[4..file_end],
        &input[file_end..blocked_end],
        &input[blocked_end..],
    )
}

// Writes the text of the input; 20 where the output is too short for it.
pub fn seatlist_text(input: &[u8], out: &mut [u8]) -> Answer
    ensures { Replied (text_reply input.now) out.old out.new result }
{
    // an input of 65,536 bytes holds at most 3,275 seats: 128 bytes a line, 36 a record
    let mut text = [0u8; 419328];
    let mut records = [0u8; 117900];
    let n = put_text(&mut text, &mut records, input);
    if out.len() < n {
        return Err(Refusal::NoRoom);
    }
    lines::put_bytes(out, 0, &text[..n]);
    Ok(n)
}
