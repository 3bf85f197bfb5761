// Runs the cases of tools/ship_cases.py. The input is cases, one after the other: a length (u32, little-endian), then a ship file of
// that many bytes. The answer is a line: `passed`, or `no` and the number of the first question that the file does not pass. What is no
// case gives the one word `bad`, and nothing after it is read.
#![tactic(auto)]

use cases::{Case, Input};
use std::io::{self, Write};

#[derive(Clone, Copy)]
struct Ship<'a> {
    file: &'a [u8],
}

impl<'a> Case<'a> for Ship<'a> {
    fn read(input: &mut Input<'a>) -> Option<Self> {
        let length = input.size()?;
        let file = input.bytes(length)?;
        Some(Ship { file })
    }

    fn run<W: Write>(self, out: &mut W) -> io::Result<()> {
        match ship::first_no(self.file) {
            Ok(()) => out.write_all(b"passed\n"),
            Err(refusal) => writeln!(out, "no {refusal}"),
        }
    }
}

fn print_answers<W: Write>(out: &mut W, input: &[u8]) -> io::Result<()> {
    cases::print_answers::<Ship<'_>, W>(out, input)
}

fn main(rt: HostRuntime) -> io::Result<()> {
    cases::replay::<262144, _, _, _>(&mut rt.stdin(), &mut rt.stdout(), print_answers)
}
