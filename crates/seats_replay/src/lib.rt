// Runs stored cases of the calls of document 01, sections 5 to 7, and document 02, point 4. The input is cases, one after the other. A
// case is the letter of its call in a word, the call's lengths and numbers (all u32, little-endian; a float by its bit pattern), and then
// the bytes of the lengths:
//   R, the run: file length, blocked length, seats length, output length. It is made again with kept lists that overflow, and has to
//     answer the same
//   L, the run with a load sheet: the same, table length, work length, and how many bytes of the table the sheet takes
//   P, the closest points, and Q, the closest point: file length, blocked length, x, y, deck, output length
//   H, the height: file length, x, y, packed polygon, output length
// The answer's lines are those of the crate `cases`. What is no case gives the one word `bad`, and nothing after it is read.
#![tactic(auto)]

ghost use Rattle.std.specs.Prelude.{◌≤◌, length};

use answers::Answer;
use cases::{FILL, Input, Room, print_answer, print_call, print_tabled};
use geometry::Vec2;
use keeping::LISTS_SIZE;
use std::io::{self, Write};

const MOST_OUTPUT: usize = 4096;

// Room for so many numbers in the kept lists of a run that is to overflow them, after the decks' own.
const MOST_SHORT: usize = 3;

const KEPT_SHORT: usize = LISTS_SIZE + MOST_SHORT;

// Room for the records of more than 256 seats, and for the sheet of a ship of 256 decks.
const MOST_LENT: usize = 16384;

#[derive(Clone, Copy)]
struct Run<'a> {
    file: &'a [u8],
    blocked: &'a [u8],
    seats: &'a [u8],
    room: Room<MOST_OUTPUT>,
}

#[derive(Clone, Copy)]
struct Loads<'a> {
    file: &'a [u8],
    blocked: &'a [u8],
    seats: &'a [u8],
    room: Room<MOST_LENT>,
    table: Room<MOST_LENT>,
    work: Room<MOST_LENT>,
    sheet: usize,
}

#[derive(Clone, Copy)]
struct Closest<'a> {
    file: &'a [u8],
    blocked: &'a [u8],
    p: Vec2,
    deck: u32,
    room: Room<MOST_OUTPUT>,
}

#[derive(Clone, Copy)]
struct Height<'a> {
    file: &'a [u8],
    p: Vec2,
    polygon: u32,
    room: Room<MOST_OUTPUT>,
}

#[derive(Clone, Copy)]
enum Case<'a> {
    Run(Run<'a>),
    Loads(Loads<'a>),
    ClosestPoints(Closest<'a>),
    ClosestPoint(Closest<'a>),
    Height(Height<'a>),
}

// ---- each case, read after its letter, and its call with the lines
impl<'a> Run<'a> {
    fn read(input: &mut Input<'a>) -> Option<Self>
        ensures { length input.new.left.now ≤ length input.old.left.now }
    {
        let file = input.size()?;
        let blocked = input.size()?;
        let seats = input.size()?;
        Some(Run {
            room: input.room()?,
            file: input.bytes(file)?,
            blocked: input.bytes(blocked)?,
            seats: input.bytes(seats)?,
        })
    }

    // Whether the run answers the same over arrays with room for n numbers, so that its lists overflow.
    fn is_same_with_room(self, n: usize, answer: Answer, lent: &[u8]) -> bool
        requires { n ≤ 3 }
    {
        let mut kept = [0u32; KEPT_SHORT];
        let mut near = [0u32; MOST_SHORT];
        let mut memory = [FILL; MOST_OUTPUT];
        let again = &mut memory[..self.room.size];
        let end = LISTS_SIZE + n;
        let short = seat_run::run_over(
            self.file,
            self.blocked,
            self.seats,
            again,
            &mut kept[..end],
            &mut near[..n],
        );
        short == answer && *again == *lent
    }

    fn run<W: Write>(self, out: &mut W) -> io::Result<()> {
        let mut memory = [FILL; MOST_OUTPUT];
        let lent = &mut memory[..self.room.size];
        let answer = seat_run::run(self.file, self.blocked, self.seats, lent);
        for n in [0, 1, MOST_SHORT] {
            if !self.is_same_with_room(n, answer, lent) {
                out.write_all(b"other with short lists\n")?;
            }
        }
        print_answer(out, answer, 36, lent)
    }
}

impl<'a> Loads<'a> {
    fn read(input: &mut Input<'a>) -> Option<Self>
        ensures { length input.new.left.now ≤ length input.old.left.now }
    {
        let file = input.size()?;
        let blocked = input.size()?;
        let seats = input.size()?;
        Some(Loads {
            room: input.room()?,
            table: input.room()?,
            work: input.room()?,
            sheet: input.size()?,
            file: input.bytes(file)?,
            blocked: input.bytes(blocked)?,
            seats: input.bytes(seats)?,
        })
    }

    fn run<W: Write>(self, out: &mut W) -> io::Result<()> {
        let mut memory = [FILL; MOST_LENT];
        let lent = &mut memory[..self.room.size];
        let mut table_memory = [FILL; MOST_LENT];
        let table = &mut table_memory[..self.table.size];
        let mut work_memory = [FILL; MOST_LENT];
        let work = &mut work_memory[..self.work.size];
        let answer = loads::run_loads(self.file, self.blocked, self.seats, lent, table, work);
        print_tabled(out, answer, 36, self.sheet, lent, table, work)
    }
}

impl<'a> Closest<'a> {
    fn read(input: &mut Input<'a>) -> Option<Self>
        ensures { length input.new.left.now ≤ length input.old.left.now }
    {
        let file = input.size()?;
        let blocked = input.size()?;
        Some(Closest {
            p: input.place()?,
            deck: input.word()?,
            room: input.room()?,
            file: input.bytes(file)?,
            blocked: input.bytes(blocked)?,
        })
    }
}

impl<'a> Height<'a> {
    fn read(input: &mut Input<'a>) -> Option<Self>
        ensures { length input.new.left.now ≤ length input.old.left.now }
    {
        let file = input.size()?;
        Some(Height {
            p: input.place()?,
            polygon: input.word()?,
            room: input.room()?,
            file: input.bytes(file)?,
        })
    }
}

impl<'a> cases::Case<'a> for Case<'a> {
    fn read(input: &mut Input<'a>) -> Option<Self> {
        match input.letter()? {
            b'R' => Some(Case::Run(Run::read(input)?)),
            b'L' => Some(Case::Loads(Loads::read(input)?)),
            b'P' => Some(Case::ClosestPoints(Closest::read(input)?)),
            b'Q' => Some(Case::ClosestPoint(Closest::read(input)?)),
            b'H' => Some(Case::Height(Height::read(input)?)),
            _ => None,
        }
    }

    fn run<W: Write>(self, out: &mut W) -> io::Result<()> {
        match self {
            Case::Run(run) => run.run(out),
            Case::Loads(loads) => loads.run(out),
            Case::ClosestPoints(asked) => print_call(out, asked.room, 12, 12, |lent| {
                calls::get_closest_points_on_layers(
                    asked.file,
                    asked.p,
                    asked.deck,
                    asked.blocked,
                    lent,
                )
            }),
            Case::ClosestPoint(asked) => print_call(out, asked.room, 12, 12, |lent| {
                calls::get_closest_point_on_layers(
                    asked.file,
                    asked.p,
                    asked.deck,
                    asked.blocked,
                    lent,
                )
            }),
            Case::Height(asked) => print_call(out, asked.room, 4, 4, |lent| {
                calls::height(asked.file, asked.p, asked.polygon, lent)
            }),
        }
    }
}

// The answers to all cases.
pub fn print_answers<W: Write>(out: &mut W, input: &[u8]) -> io::Result<()> {
    cases::print_answers::<Case<'_>, W>(out, input)
}
