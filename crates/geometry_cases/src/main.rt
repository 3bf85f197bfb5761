// Runs the cases of tools/geometry_cases.py. A case is a line: a letter for the function, then its arguments, each a space and 8
// hexadecimal digits, capitals (a float by its bit pattern). The answer is a line of the same form with lower-case digits, `nan` for a
// NaN, `-` for no height, and the one word `bad` for a line that is no case or asks for what the function does not take.
#![tactic(auto)]

ghost use Rattle.std.specs.Prelude.{IfSome, ◌≡◌, ◌+◌, ◌*◌, ◌<◌, ◌≤◌, length};

use cases::{float_of, print_word};
use geometry::{Height, HeightSum, Vec2};
use ring::{Directions, Ring};
use std::io::{self, Write};

// What a case's function says.
#[derive(Clone, Copy, Debug, PartialEq)]
enum Value {
    Number(u32),
    Float(f32),
    Height(Height),
    Point(Vec2),
}

// A word of a case, as a whole number and as the float of that pattern.
#[derive(Clone, Copy, Debug, PartialEq)]
struct Word {
    whole: u32,
    real: f32,
}

// How many words a function's case has; none for a letter that is no function. The letter stays one: it is read, matched and printed, and an enum of
// fourteen names would be matched as often.
fn words_of(letter: u8) -> Option<usize>
    ensures { IfSome result (λ count. count ≤ 8) }
{
    match letter {
        b'A' | b'R' => Some(1),
        b'N' | b'X' => Some(2),
        b'D' | b'C' | b'P' => Some(4),
        b'S' | b'M' => Some(5),
        b'E' | b'B' | b'G' | b'T' => Some(6),
        b'H' => Some(8),
        _ => None,
    }
}

// The value of a hexadecimal digit. `to_digit` alone would take those in lower case too.
fn digit(b: u8) -> Option<u32> {
    match b {
        b'0'..=b'9' | b'A'..=b'F' => (b as char).to_digit(16),
        _ => None,
    }
}

// The word at `at`, if it is one: a space and 8 digits. A NaN's pattern is refused: no function takes it, as a float or as a whole number.
fn word_at(line: &[u8], at: usize) -> Option<Word>
    requires { at + 9 ≤ length line.now }
{
    if line[at] != b' ' {
        return None;
    }
    let mut n: u32 = 0;
    for b in &line[at + 1..at + 9] {
        n = n << 4 | digit(*b)?;
    }
    Some(Word {
        whole: n,
        real: float_of(n)?,
    })
}

// The words of a line. Those past `count` are zeros.
fn read_words(line: &[u8], count: usize) -> Option<[Word; 8]>
    requires { (count ≤ 8) × (1 + 9 * count ≤ length line.now) }
{
    let mut words = [Word {
        whole: 0,
        real: 0.0,
    }; 8];
    for k in 0..count {
        words[k] = word_at(line, 1 + 9 * k)?;
    }
    Some(words)
}

fn point(words: &[Word; 8], k: usize) -> Vec2
    requires { k < 7 }
{
    Vec2 {
        x: words[k].real,
        y: words[k + 1].real,
    }
}

fn sample(directions: &Directions, p: Vec2, reach: f32, step: u32, number: u32) -> Option<Value> {
    let s = step as usize;
    let i = number as usize;
    if s >= 16 || i > 10 * s {
        return None;
    }
    let ring = Ring {
        center: p,
        reach,
        step: s,
    };
    Some(Value::Point(directions.sample(ring, i)))
}

fn probe(p: Vec2, reach: f32, number: u32) -> Option<Value> {
    let k = number as usize;
    if k >= 9 {
        return None;
    }
    Some(Value::Point(ring::probe(p, reach, k)))
}

// The mean of 1 to 4 heights, which follow their number.
fn mean(count: u32, words: &[Word; 8]) -> Option<Value> {
    if count < 1 || count > 4 {
        return None;
    }
    let mut sum = HeightSum::first(words[1].real);
    for word in &words[2..count as usize + 1] {
        sum = sum.plus(word.real);
    }
    Some(Value::Float(sum.mean()))
}

// The root of a pattern's number, which is above zero and finite.
#[tactic(auto, using(root::proofs::Floats::pattern_no_nan, root::proofs::Floats::pattern_positive))]
fn square_root(bits: u32) -> Option<Value> {
    if bits < 1 || bits >= 0x7F80_0000 {
        return None;
    }
    Some(Value::Float(root::sqrt(f32::from_bits(bits))))
}

// The functions of an edge and a point. A side and a test are numbered as their variants are declared, and a yes is 1.
fn at_edge(letter: u8, words: &[Word; 8]) -> Option<Value> {
    let p = point(words, 0);
    let a = point(words, 2);
    let b = point(words, 4);
    match letter {
        b'E' => Some(Value::Number(geometry::side(p, a, b) as u32)),
        b'B' => Some(Value::Number(u32::from(geometry::in_bounding_box(p, a, b)))),
        b'G' => Some(Value::Number(u32::from(geometry::on_segment(p, a, b)))),
        b'T' => Some(Value::Number(geometry::edge_test(p, a, b) as u32)),
        b'H' => Some(Value::Height(geometry::height_along(p, a, b, words[6].real, words[7].real))),
        _ => None,
    }
}

fn case_answer(directions: &Directions, letter: u8, words: &[Word; 8]) -> Option<Value> {
    match letter {
        b'S' => sample(
            directions,
            point(words, 0),
            words[2].real,
            words[3].whole,
            words[4].whole,
        ),
        b'P' => probe(point(words, 0), words[2].real, words[3].whole),
        b'M' => mean(words[0].whole, words),
        b'A' => Some(Value::Float(geometry::abs(words[0].real))),
        b'R' => square_root(words[0].whole),
        b'N' => Some(Value::Float(geometry::min(words[0].real, words[1].real))),
        b'X' => Some(Value::Float(geometry::max(words[0].real, words[1].real))),
        b'D' => Some(Value::Float(geometry::dot(point(words, 0), point(words, 2)))),
        b'C' => Some(Value::Float(geometry::perp_dot(point(words, 0), point(words, 2)))),
        _ => at_edge(letter, words),
    }
}

// The answer to a line, which ends with its newline; none for a line that is no case or asks for what the function does not take.
fn line_answer(directions: &Directions, line: &[u8]) -> Option<Value>
    requires { 0 < length line.now }
{
    let letter = line[0];
    let count = words_of(letter)?;
    if line.len() != 9 * count + 2 || line[9 * count + 1] != b'\n' {
        return None;
    }
    case_answer(directions, letter, &read_words(line, count)?)
}

// The bit pattern of a NaN cannot be asked for.
fn print_float<W: Write>(out: &mut W, x: f32) -> io::Result<()> {
    if x.is_nan() {
        out.write_all(b" nan")
    } else {
        print_word(out, x.to_bits())
    }
}

fn print_value<W: Write>(out: &mut W, value: Value) -> io::Result<()> {
    match value {
        Value::Number(n) => print_word(out, n),
        Value::Float(x) | Value::Height(Height::Known(x)) => print_float(out, x),
        Value::Height(Height::None) => out.write_all(b" -"),
        Value::Point(p) => {
            print_float(out, p.x)?;
            print_float(out, p.y)
        }
    }
}

fn print_answer<W: Write>(out: &mut W, letter: u8, answer: Option<Value>) -> io::Result<()> {
    let Some(value) = answer else {
        return out.write_all(b"bad\n");
    };
    out.write_all(&[letter])?;
    print_value(out, value)?;
    out.write_all(b"\n")
}

// Past the newline of the first line, or the end of the text.
fn line_end(text: &[u8]) -> usize
    requires { 0 < length text.now }
    ensures { (0 < result) × (result ≤ length text.now) }
{
    match text.iter().position(|b| *b == b'\n') {
        Some(i) => i + 1,
        None => text.len(),
    }
}

fn print_answers<W: Write>(out: &mut W, directions: &Directions, text: &[u8]) -> io::Result<()> {
    let mut rest = text;
    // A while: where a line ends is found by looking.
    while !rest.is_empty() {
        let (line, later) = rest.split_at(line_end(rest));
        print_answer(out, line[0], line_answer(directions, line))?;
        rest = later;
    }
    Ok(())
}

// An input that does not fit is cut: `bad`, or too few lines, shows it.
fn main(rt: HostRuntime) -> io::Result<()> {
    let mut buffer = [0u8; 65536];
    let n = reading::read_full(&mut rt.stdin(), &mut buffer)?;
    print_answers(&mut rt.stdout(), &Directions::all(), &buffer[..n])
}
