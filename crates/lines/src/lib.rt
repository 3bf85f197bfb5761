// The lines of `seatlist` as bytes (document 01, section 7), and question 21. A line is made in room of its own and put at a position of
// the text; the position after it is answered. The text is any caller's memory.
#![tactic(auto)]

ghost use Rattle.std.specs.Prelude.{◌≡◌, true, ◌+◌, ◌≤◌, [], ◌∷◌, ◌++◌, length};
ghost use Rattle.arrayvec.specs.ArrayVec.{array_vec_len};
ghost use Rattle.words.specs.Bytes.{u32_at, Put};
ghost use Rattle.lines.specs.Text.{decimal, hex};
ghost use Rattle.lines.specs.Lines.{field, height_field, placed_fields, none_fields, seat_line, end_line, refused_line};
ghost use Rattle.lines.specs.Groups.{polygon_fields, point_fields, count_fields, seat_fields};
ghost use Rattle.lines.specs.Input.{question21};

use arrayvec::ArrayVec;
use records::SeatRecord;
use words::PACKED_DECK;

// A line while it is made; it never allocates. None has more than 121 bytes.
type Line = ArrayVec<u8, 128>;

// Question 21.
#[tactic(auto, unfolding(crate::specs::Input::question21))]
pub fn input_allowed(input: &[u8]) -> bool
    ensures { result ≡ question21 input.now }
{
    input.len() <= 65536 && input.len() >= 4 && words::size_at(input, 0) + 36 <= input.len()
}

// Where the file ends in an input that passed it; the blocked set and the seats follow.
#[tactic(auto, using(crate::proofs::Question21::parts))]
pub fn file_end(input: &[u8]) -> usize
    requires { question21 input.now ≡ true }
    ensures { (result ≡ 4 + u32_at input.now 0) × ((4 ≤ result) × (result + 32 ≤ length input.now)) }
{
    4 + words::size_at(input, 0)
}

pub fn put_bytes(text: &mut [u8], at: usize, bytes: &[u8]) -> usize
    requires { at + length bytes.now ≤ length text.old }
    ensures { Put text.old at bytes.now text.new result }
{
    words::copy(text, at, bytes);
    at + bytes.len()
}

fn add(line: &mut Line, bytes: &[u8])
    requires { array_vec_len line.old + length bytes.now ≤ 128 }
    ensures text { line.new.items ≡ line.old.items ++ bytes.now }
    ensures long { array_vec_len line.new ≡ array_vec_len line.old + length bytes.now }
{
    line.try_extend_from_slice(bytes).unwrap()
}

// n in decimal. By `io` and not by `write!`: std promises the bytes of what it formats only where it answers Ok, and nowhere that it does.
#[tactic(auto, using(crate::proofs::Digits::decimals))]
fn add_decimal(line: &mut Line, n: u32)
    requires { array_vec_len line.old + 10 ≤ 128 }
    ensures text { line.new.items ≡ line.old.items ++ decimal n }
    ensures long { array_vec_len line.new ≤ array_vec_len line.old + 10 }
{
    let mut digits = [0u8; 20];
    let count = io::decimal(n as u64, &mut digits);
    add(line, &digits[..count])
}

// n in eight hexadecimal digits, capitals.
#[tactic(auto, using(crate::proofs::Digits::hexes))]
fn add_hex(line: &mut Line, n: u32)
    requires { array_vec_len line.old + 8 ≤ 128 }
    ensures text { line.new.items ≡ line.old.items ++ hex n }
    ensures long { array_vec_len line.new ≤ array_vec_len line.old + 8 }
{
    let mut digits = [0u8; 16];
    let count = io::hex(n as u64, 8, &mut digits);
    digits.make_ascii_uppercase();
    add(line, &digits[..count])
}

// A space, and n in decimal.
fn add_number(line: &mut Line, n: u32)
    requires { array_vec_len line.old + 11 ≤ 128 }
    ensures text { line.new.items ≡ line.old.items ++ field (decimal n) }
    ensures long { array_vec_len line.new ≤ array_vec_len line.old + 11 }
{
    line.push(b' ');
    add_decimal(line, n)
}

// A space, and a float's bits.
fn add_bits(line: &mut Line, n: u32)
    requires { array_vec_len line.old + 9 ≤ 128 }
    ensures text { line.new.items ≡ line.old.items ++ field (hex n) }
    ensures long { array_vec_len line.new ≤ array_vec_len line.old + 9 }
{
    line.push(b' ');
    add_hex(line, n)
}

// A space, and the height's bits or `-`. The kind is the record's number.
fn add_height(line: &mut Line, kind: u32, bits: u32)
    requires { array_vec_len line.old + 9 ≤ 128 }
    ensures text { line.new.items ≡ line.old.items ++ field (height_field kind bits) }
    ensures long { array_vec_len line.new ≤ array_vec_len line.old + 9 }
{
    if kind == 0 {
        add(line, b" -")
    } else {
        add_bits(line, bits)
    }
}

// The deck, and the polygon in its deck.
fn add_polygon(line: &mut Line, polygon: u32)
    requires { array_vec_len line.old + 22 ≤ 128 }
    ensures text { line.new.items ≡ line.old.items ++ polygon_fields polygon }
    ensures long { array_vec_len line.new ≤ array_vec_len line.old + 22 }
{
    add_number(line, polygon / PACKED_DECK);
    add_number(line, polygon % PACKED_DECK)
}

// x, y and the height.
fn add_point(line: &mut Line, r: SeatRecord)
    requires { array_vec_len line.old + 27 ≤ 128 }
    ensures text { line.new.items ≡ line.old.items ++ point_fields r }
    ensures long { array_vec_len line.new ≤ array_vec_len line.old + 27 }
{
    add_bits(line, r.x);
    add_bits(line, r.y);
    add_height(line, r.kind, r.height)
}

// Step, sample, tried and candidates.
fn add_counts(line: &mut Line, r: SeatRecord)
    requires { array_vec_len line.old + 44 ≤ 128 }
    ensures text { line.new.items ≡ line.old.items ++ count_fields r }
    ensures long { array_vec_len line.new ≤ array_vec_len line.old + 44 }
{
    add_number(line, r.step);
    add_number(line, r.sample);
    add_number(line, r.tried);
    add_number(line, r.candidates)
}

#[tactic(auto, unfolding(crate::specs::Lines::placed_fields))]
fn add_placed(line: &mut Line, r: SeatRecord)
    requires { array_vec_len line.old + 110 ≤ 128 }
    ensures text { line.new.items ≡ line.old.items ++ placed_fields r }
    ensures long { array_vec_len line.new ≤ array_vec_len line.old + 110 }
{
    add(line, b" placed");
    add_polygon(line, r.polygon);
    add_point(line, r);
    add_counts(line, r)
}

#[tactic(auto, unfolding(crate::specs::Lines::none_fields))]
fn add_none(line: &mut Line, r: SeatRecord)
    requires { array_vec_len line.old + 110 ≤ 128 }
    ensures text { line.new.items ≡ line.old.items ++ none_fields r }
    ensures long { array_vec_len line.new ≤ array_vec_len line.old + 110 }
{
    add(line, b" none");
    add_number(line, r.tried)
}

fn add_fields(line: &mut Line, r: SeatRecord)
    requires { array_vec_len line.old + 110 ≤ 128 }
    ensures text { line.new.items ≡ line.old.items ++ seat_fields r }
    ensures long { array_vec_len line.new ≤ array_vec_len line.old + 110 }
{
    if records::unplaced(r) {
        add_none(line, r)
    } else {
        add_placed(line, r)
    }
}

// The line, and its end.
fn put_line(text: &mut [u8], at: usize, line: &mut Line) -> usize
    requires { (at + 128 ≤ length text.old) × (array_vec_len line.old + 1 ≤ 128) }
    ensures put { Put text.old at (line.old.items ++ 10 ∷ []) text.new result }
    ensures upper_bound { result ≤ at + 128 }
{
    line.push(b'\n');
    put_bytes(text, at, line.as_slice())
}

// The line of seat i from its record.
#[tactic(auto, unfolding(crate::specs::Lines::seat_line))]
pub fn put_seat(text: &mut [u8], at: usize, i: u32, r: SeatRecord) -> usize
    requires { at + 128 ≤ length text.old }
    ensures { Put text.old at (seat_line i r) text.new result × (result ≤ at + 128) }
{
    let mut line = Line::new();
    add_decimal(&mut line, i);
    add_fields(&mut line, r);
    put_line(text, at, &mut line)
}

// The last line: how many seats are placed, and how many are not.
#[tactic(auto, unfolding(crate::specs::Lines::end_line))]
pub fn put_end(text: &mut [u8], at: usize, placed: u32, unplaced: u32) -> usize
    requires { at + 128 ≤ length text.old }
    ensures { Put text.old at (end_line placed unplaced) text.new result × (result ≤ at + 128) }
{
    let mut line = Line::new();
    add(&mut line, b"end");
    add_number(&mut line, placed);
    add_number(&mut line, unplaced);
    put_line(text, at, &mut line)
}

// The one line of a refusal.
#[tactic(auto, unfolding(crate::specs::Lines::refused_line))]
pub fn put_refused(text: &mut [u8], at: usize, number: u32) -> usize
    requires { at + 128 ≤ length text.old }
    ensures { Put text.old at (refused_line number) text.new result × (result ≤ at + 128) }
{
    let mut line = Line::new();
    add(&mut line, b"refused");
    add_number(&mut line, number);
    put_line(text, at, &mut line)
}
