// Reads an input, and writes its text (document 01, section 7).
#![tactic(auto)]

ghost use Rattle.std.specs.Prelude.{IfSome, OnOk, take, ◌≡◌, ◌≤◌, length};
ghost use Rattle.std.specs.Io.KnownBytes.{Appends};
ghost use Rattle.listing.specs.Listing.{seatlist_text};
ghost use Rattle.listing.specs.Sizes.{longest_text};

use std::io::{self, Read, Write};

// One byte more than is allowed, so that a longer input shows.
const READ_LIMIT: usize = 65537;

// Room for the longest text: 192 bytes a line, of at most 3,275 seats and the last line.
const LINE: usize = 192;

const LINES: usize = 3276;

// Puts the text of an input into room for the longest text, so that it is never too short.
fn put_text(input: &[u8], text: &mut [u8]) -> usize
    requires { longest_text ≤ length text.old }
    ensures within { result ≤ length text.old }
    ensures prefix { take result text.new ≡ seatlist_text input.now }
{
    listing::seatlist_text(input, text).unwrap()
}

fn print_text<W: Write>(input: &[u8], text: &mut [u8], output: &mut W) -> io::Result<()>
    requires { longest_text ≤ length text.old }
    ensures { OnOk result (Appends (W.contents output.old) (W.contents output.new) (seatlist_text input.now)) }
{
    let n = put_text(input, text);
    output.write_all(&text[..n])
}

// Writes the text of what `input` gives, up to a full buffer. After a read that failed nothing is written.
fn list_over<R: Read, W: Write>(
    input: &mut R,
    buffer: &mut [u8],
    text: &mut [u8],
    output: &mut W,
) -> io::Result<()>
    requires { longest_text ≤ length text.old }
    ensures { OnOk result (IfSome (R.remaining input.old) (λ xs.
        Appends (W.contents output.old) (W.contents output.new) (seatlist_text (take (length buffer.old) xs)))) }
{
    let n = reading::read_full(input, buffer)?;
    print_text(&buffer[..n], text, output)
}

// The same over arrays of its own.
fn list<R: Read, W: Write>(input: &mut R, output: &mut W) -> io::Result<()>
    ensures { OnOk result (IfSome (R.remaining input.old) (λ xs.
        Appends (W.contents output.old) (W.contents output.new) (seatlist_text (take 65537 xs)))) }
{
    let mut buffer = [0u8; READ_LIMIT];
    let mut lines = [[0u8; LINE]; LINES];
    list_over(input, &mut buffer, lines.as_flattened_mut(), output)
}

fn main(rt: HostRuntime) -> io::Result<()> {
    list(&mut rt.stdin(), &mut rt.stdout())
}

#[cfg(test)]
mod tests {
    use super::*;
    use std::test::Fail;

    // A reader that fails past its bytes.
    #[derive(Drop)]
    struct Broken<'a>(&'a [u8]);

    impl<'a> Read for Broken<'a> {
        fn read(&mut self, buf: &mut [u8]) -> io::Result<usize> {
            if self.0.is_empty() {
                return Err(io::Error::from(io::ErrorKind::ConnectionReset));
            }
            self.0.read(buf)
        }
    }

    // An input without its first word, and one with an empty ship file.
    #[test]
    fn texts_are_appended(rt: HostRuntime) -> Result<(), Fail> {
        let mut output = Vec::new(rt.alloc());
        list(&mut b"".as_slice(), &mut output)?;
        list(&mut [0u8; 36].as_slice(), &mut output)?;
        assert_eq!(rt; output.as_slice(), b"refused 21\nrefused 1\n".as_slice());
        Ok(())
    }

    #[test]
    fn nothing_is_written_after_a_failed_read(rt: HostRuntime) -> Result<(), Fail> {
        let mut output = Vec::new(rt.alloc());
        let listed = list(&mut Broken([0u8; 36].as_slice()), &mut output);
        assert!(rt; listed.is_err());
        assert!(rt; output.is_empty());
        Ok(())
    }
}
