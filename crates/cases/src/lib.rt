// What the programs of stored cases share: how an input of cases is read, how lent memory is filled before a call, the lines of an answer.
// The answer's first line: `wrote` or `refused`, the number, and `kept` if the output past the answer (all of it for a refusal) is as
// it was filled, else `altered`. Of a call that is lent a table, the same word of the table. Of a call that is lent work, one word more:
// after an answer `zeros` if all of the work is zeros, after a refusal `untouched` if all of it is as it was filled, else `altered`. A
// line for each entry follows: each word a space and 8 hexadecimal digits, lower case. The table's counts are the last entries, two words
// each, the lower one first.
#![tactic(auto)]

ghost use Rattle.std.specs.Prelude.{◌^◌, ◌<◌};

mod input;

use answers::Answer;
pub use input::{Case, Input, Room, float_of, print_answers, replay};
use std::io::{self, Write};

// What every byte of lent memory is before a call.
pub const FILL: u8 = 0xA5;

// Bytes of a table's count, as `loads` has them: this crate knows no call that it prints, so `COUNT_SIZE` stands here again.
const COUNT_SIZE: usize = 8;

// ---- lines
pub fn print_word<W: Write>(out: &mut W, n: u32) -> io::Result<()> {
    write!(out, " {n:08x}")
}

fn print_entry<W: Write>(out: &mut W, entry: &[u8]) -> io::Result<()> {
    for word in entry.as_chunks::<4>().0 {
        print_word(out, u32::from_le_bytes(*word))?;
    }
    out.write_all(b"\n")
}

// A line for each entry of `width` bytes. A width is a constant of whoever prints; as `NonZeroUsize` it would have to be made there.
fn print_entries<W: Write>(out: &mut W, entries: &[u8], width: usize) -> io::Result<()>
    requires { 0 < width }
{
    for entry in entries.chunks_exact(width) {
        print_entry(out, entry)?;
    }
    Ok(())
}

fn is_filled(bytes: &[u8], fill: u8) -> bool {
    bytes.iter().all(|b| *b == fill)
}

// ---- answers
// The part of lent memory that an answer wrote, `size` bytes for each that it counts, and what is left of it. What the memory cannot
// hold takes all of it.
fn parts(answer: Answer, size: usize, lent: &[u8]) -> (&[u8], &[u8]) {
    let end = answer.map_or(0, |count| count.saturating_mul(size));
    lent.split_at(end.min(lent.len()))
}

// Whether what is left of lent memory is as it was filled.
fn print_kept<W: Write>(out: &mut W, left: &[u8]) -> io::Result<()> {
    out.write_all(if is_filled(left, FILL) {
        b" kept"
    } else {
        b" altered"
    })
}

// The first line up to the word of the output, of which the answer left `left`.
fn print_head<W: Write>(out: &mut W, answer: Answer, left: &[u8]) -> io::Result<()> {
    match answer {
        Err(refusal) => write!(out, "refused {refusal}")?,
        Ok(count) => write!(out, "wrote {count}")?,
    }
    print_kept(out, left)
}

// The last word of the first line of a call that is lent work.
fn print_work<W: Write>(out: &mut W, answer: Answer, work: &[u8]) -> io::Result<()> {
    match answer {
        Err(_) if is_filled(work, FILL) => out.write_all(b" untouched\n"),
        Ok(_) if is_filled(work, 0) => out.write_all(b" zeros\n"),
        _ => out.write_all(b" altered\n"),
    }
}

// The answer of a call that counts parts of `size` bytes, with a line for every `width` bytes.
fn print_parts<W: Write>(
    out: &mut W,
    answer: Answer,
    size: usize,
    width: usize,
    lent: &[u8],
) -> io::Result<()>
    requires { 0 < width }
{
    let (written, left) = parts(answer, size, lent);
    print_head(out, answer, left)?;
    out.write_all(b"\n")?;
    print_entries(out, written, width)
}

// The answer of a call that counts entries of `width` bytes.
pub fn print_answer<W: Write>(
    out: &mut W,
    answer: Answer,
    width: usize,
    lent: &[u8],
) -> io::Result<()>
    requires { 0 < width }
{
    print_parts(out, answer, width, width, lent)
}

// Makes a call that is lent `room` bytes and counts parts of `size` bytes, and prints its answer, with a line for every `width` bytes.
pub fn print_call<const N: usize, W: Write, F: FnOnce(&mut [u8]) -> Answer>(
    out: &mut W,
    room: Room<N>,
    size: usize,
    width: usize,
    call: F,
) -> io::Result<()>
    requires one_object { N < 2 ^ 63 }
    requires some_width { 0 < width }
    requires callable { F.IsAlwaysCallable call }
{
    let mut memory = [FILL; N];
    let lent = &mut memory[..room.size];
    let answer = call(lent);
    print_parts(out, answer, size, width, lent)
}

// The same of a call that is lent work too, and counts entries of `width` bytes.
pub fn print_work_call<const N: usize, W: Write, F: FnOnce(&mut [u8], &mut [u8]) -> Answer>(
    out: &mut W,
    room: Room<N>,
    work_room: Room<N>,
    width: usize,
    call: F,
) -> io::Result<()>
    requires one_object { N < 2 ^ 63 }
    requires some_width { 0 < width }
    requires callable { F.IsAlwaysCallable call }
{
    let mut memory = [FILL; N];
    let lent = &mut memory[..room.size];
    let mut work_memory = [FILL; N];
    let work = &mut work_memory[..work_room.size];
    let answer = call(lent, work);
    let (written, left) = parts(answer, width, lent);
    print_head(out, answer, left)?;
    print_work(out, answer, work)?;
    print_entries(out, written, width)
}

// The answer of a call that is lent a table too, of which an answer takes `counts` bytes.
pub fn print_tabled<W: Write>(
    out: &mut W,
    answer: Answer,
    width: usize,
    counts: usize,
    lent: &[u8],
    table: &[u8],
    work: &[u8],
) -> io::Result<()>
    requires { 0 < width }
{
    let (written, left) = parts(answer, width, lent);
    let (counted, table_left) = parts(answer.map(|_| 1), counts, table);
    print_head(out, answer, left)?;
    print_kept(out, table_left)?;
    print_work(out, answer, work)?;
    print_entries(out, written, width)?;
    print_entries(out, counted, COUNT_SIZE)
}
