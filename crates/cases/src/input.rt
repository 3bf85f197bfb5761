// An input of cases, one after the other, and how it is read and run. Its words are u32, little-endian; a float is a word, by its bit
// pattern.
ghost use Rattle.std.specs.Prelude.{IfSome, MatchOption, ◌≡◌, ◌^◌, ◌<◌, ◌≤◌, length, drop};
ghost use Rattle.std.specs.List.{IsSplitAt};
ghost use Rattle.words.specs.Bytes.{u32_at};

use geometry::Vec2;
use std::io::{self, Read, Write};
use words::u32_at;

// What is left of an input.
#[derive(Clone, Copy, Debug, PartialEq, Eq)]
pub struct Input<'a> {
    pub left: &'a [u8],
}

// How much memory a call is lent: at most N bytes.
#[derive(Clone, Copy, Debug, PartialEq, Eq)]
pub struct Room<const N: usize> {
    pub size: usize,
    pub ghost fits: { size ≤ N },
}

// The float of a bit pattern, if it is one. No float can be made of a NaN's pattern.
#[tactic(auto, using(std::proofs::lemmas::Float::not_nan_f32_bits))]
pub fn float_of(bits: u32) -> Option<f32> {
    if bits % 0x8000_0000 > 0x7F80_0000 {
        return None;
    }
    Some(f32::from_bits(bits))
}

impl<'a> Input<'a> {
    // The next bytes, where there are so many.
    pub fn bytes(&mut self, count: usize) -> Option<&'a [u8]>
        ensures cases { MatchOption result (length self.old.left.now < count)
            (λ bytes. IsSplitAt self.old.left.now count bytes.now self.new.left.now) }
        ensures left { length self.new.left.now ≤ length self.old.left.now }
    {
        self.left.split_off(..count)
    }

    pub fn word(&mut self) -> Option<u32>
        ensures cases { MatchOption result (length self.old.left.now < 4)
            (λ word. (word ≡ u32_at self.old.left.now 0) × (self.new.left.now ≡ drop 4 self.old.left.now)) }
        ensures left { length self.new.left.now ≤ length self.old.left.now }
        ensures shorter { IfSome result (λ word. length self.new.left.now < length self.old.left.now) }
    {
        let left = self.left;
        self.bytes(4)?;
        Some(u32_at(left, 0))
    }

    // A length.
    pub fn size(&mut self) -> Option<usize>
        ensures cases { MatchOption result (length self.old.left.now < 4)
            (λ size. (size ≡ u32_at self.old.left.now 0) × (self.new.left.now ≡ drop 4 self.old.left.now)) }
        ensures left { length self.new.left.now ≤ length self.old.left.now }
        ensures shorter { IfSome result (λ size. length self.new.left.now < length self.old.left.now) }
    {
        Some(self.word()? as usize)
    }

    // A length of lent memory.
    pub fn room<const N: usize>(&mut self) -> Option<Room<N>>
        ensures given { IfSome result
            (λ room. (room.size ≡ u32_at self.old.left.now 0) × (self.new.left.now ≡ drop 4 self.old.left.now)) }
        ensures left { length self.new.left.now ≤ length self.old.left.now }
    {
        let size = self.size()?;
        if size > N {
            return None;
        }
        Some(Room { size })
    }

    pub fn place(&mut self) -> Option<Vec2>
        ensures left { length self.new.left.now ≤ length self.old.left.now }
    {
        Some(Vec2 {
            x: float_of(self.word()?)?,
            y: float_of(self.word()?)?,
        })
    }

    // The letter of a call, in the lowest byte of its word.
    pub fn letter(&mut self) -> Option<u8>
        ensures left { length self.new.left.now ≤ length self.old.left.now }
        ensures shorter { IfSome result (λ letter. length self.new.left.now < length self.old.left.now) }
    {
        let [letter, ..] = self.word()?.to_le_bytes();
        Some(letter)
    }
}

// The cases of a program.
pub trait Case<'a>: Sized {
    // Takes the next case, if what comes next is one.
    fn read(input: &mut Input<'a>) -> Option<Self>
        ensures { IfSome result (λ case. length input.new.left.now < length input.old.left.now) };

    // Makes the case's call and prints its answer.
    fn run<W: Write>(self, out: &mut W) -> io::Result<()>;
}

// The answers to all cases. What is no case gives the one word `bad`, and nothing after it is read.
pub fn print_answers<'a, C: Case<'a>, W: Write>(out: &mut W, cases: &'a [u8]) -> io::Result<()> {
    let mut input = Input { left: cases };
    // A while: how long a case is shows when it is read.
    while !input.left.is_empty() {
        let Some(case) = C::read(&mut input) else {
            return out.write_all(b"bad\n");
        };
        case.run(out)?;
    }
    Ok(())
}

// The same of cases that are read, N bytes at most. An input that does not fit is cut: `bad`, or too few lines, shows it.
pub fn replay<const N: usize, R: Read, W: Write, F: FnOnce(&mut W, &[u8]) -> io::Result<()>>(
    input: &mut R,
    out: &mut W,
    print: F,
) -> io::Result<()>
    requires one_object { N < 2 ^ 63 }
    requires callable { F.IsAlwaysCallable print }
{
    let mut buffer = [0u8; N];
    let n = reading::read_full(input, &mut buffer)?;
    print(out, &buffer[..n])
}
