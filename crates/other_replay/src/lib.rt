// Runs stored cases of the calls of document 01, section 8, and document 02, point 2. The input is cases, one after the other. A case is
// nine words (u32, little-endian; a float by its bit pattern), the file and the blocked set:
//   the call's letter, file length, blocked length, x, y, deck, number, output length, work length
// A call takes of these what it has. The number is a packed polygon or a layer. The letters:
//   P get_point_location        L get_point_layer        C candidate_polygons          I bake_islands_detection
//   S find_stitch_points        R remove_stitches        T remove_stitches_to_layer    D get_closest_point_towards
// The last takes no blocked set: x and y of the point to go towards stand in its place.
// The answer's lines are those of the crate `cases`; a new file is printed a word a line. A location is one line: `found` and the
// packed polygon in 8 hexadecimal digits, or `refused` and the number. What is no case gives the one word `bad`, and nothing after it is
// read.
#![tactic(auto)]

use answers::Refusal;
use cases::{Input, Room, print_call, print_word, print_work_call};
use geometry::Vec2;
use std::io::{self, Write};

// Room for the new file of a ship of 256 decks.
const MOST_LENT: usize = 32768;

// The call of a letter, with what it takes that others do not.
#[derive(Clone, Copy)]
enum Call {
    PointLocation,
    PointLayer,
    CandidatePolygons,
    Islands,
    StitchPoints,
    RemoveStitches,
    RemoveStitchesToLayer(u8),
    ClosestPointTowards(Vec2),
}

// A case: a call, the words that come before its bytes, and the bytes.
#[derive(Clone, Copy)]
struct Case<'a> {
    call: Call,
    file: &'a [u8],
    blocked: &'a [u8],
    p: Vec2,
    deck: u32,
    number: u32,
    room: Room<MOST_LENT>,
    work: Room<MOST_LENT>,
}

// The point whose x and y are the bytes.
fn whole_place(bytes: &[u8]) -> Option<Vec2> {
    let mut input = Input { left: bytes };
    let place = input.place()?;
    if input.left.is_empty() {
        Some(place)
    } else {
        None
    }
}

impl Call {
    fn of(letter: u8, number: u32, blocked: &[u8]) -> Option<Self> {
        match letter {
            b'P' => Some(Call::PointLocation),
            b'L' => Some(Call::PointLayer),
            b'C' => Some(Call::CandidatePolygons),
            b'I' => Some(Call::Islands),
            b'S' => Some(Call::StitchPoints),
            b'R' => Some(Call::RemoveStitches),
            b'T' => Some(Call::RemoveStitchesToLayer(u8::try_from(number).ok()?)),
            b'D' => Some(Call::ClosestPointTowards(whole_place(blocked)?)),
            _ => None,
        }
    }
}

fn print_location<W: Write>(out: &mut W, location: Result<u32, Refusal>) -> io::Result<()> {
    match location {
        Err(refusal) => write!(out, "refused {refusal}")?,
        Ok(polygon) => {
            out.write_all(b"found")?;
            print_word(out, polygon)?;
        }
    }
    out.write_all(b"\n")
}

impl<'a> cases::Case<'a> for Case<'a> {
    fn read(input: &mut Input<'a>) -> Option<Self> {
        let letter = input.letter()?;
        let file = input.size()?;
        let blocked = input.size()?;
        let p = input.place()?;
        let deck = input.word()?;
        let number = input.word()?;
        let room = input.room()?;
        let work = input.room()?;
        let file = input.bytes(file)?;
        let blocked = input.bytes(blocked)?;
        Some(Case {
            call: Call::of(letter, number, blocked)?,
            file,
            blocked,
            p,
            deck,
            number,
            room,
            work,
        })
    }

    fn run<W: Write>(self, out: &mut W) -> io::Result<()> {
        let Case {
            call,
            file,
            blocked,
            p,
            deck,
            number,
            room,
            work,
        } = self;
        match call {
            Call::PointLocation => print_location(out, locating::get_point_location(file, p, deck)),
            Call::PointLayer => print_call(out, room, 4, 4, |lent| {
                locating::get_point_layer(file, p, deck, lent)
            }),
            Call::CandidatePolygons => print_work_call(out, room, work, 4, |lent, work| {
                candidates::candidate_polygons(file, p, deck, number, blocked, lent, work)
            }),
            Call::Islands => print_work_call(out, room, work, 4, |lent, work| {
                islands::bake_islands_detection(file, deck, lent, work)
            }),
            Call::StitchPoints => print_call(out, room, 16, 16, |lent| {
                stitching::find_stitch_points(file, lent)
            }),
            Call::RemoveStitches => print_call(out, room, 1, 4, |lent| {
                removal::remove_stitches(file, lent)
            }),
            Call::RemoveStitchesToLayer(layer) => print_call(out, room, 1, 4, |lent| {
                removal::remove_stitches_to_layer(file, layer, lent)
            }),
            Call::ClosestPointTowards(towards) => print_call(out, room, 12, 12, |lent| {
                towards::get_closest_point_towards(file, p, towards, deck, lent)
            }),
        }
    }
}

// The answers to all cases.
pub fn print_answers<W: Write>(out: &mut W, input: &[u8]) -> io::Result<()> {
    cases::print_answers::<Case<'_>, W>(out, input)
}
