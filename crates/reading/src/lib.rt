// An input, read into a buffer.
#![tactic(auto)]

ghost use Rattle.std.specs.Prelude.{IfOk, IfSome, take, ◌≡◌, ◌≤◌, length};

use std::io::{self, Read};

// Reads until the buffer is full or the input ends, and answers how many bytes it read: the input's first ones.
pub fn read_full<R: Read>(input: &mut R, buffer: &mut [u8]) -> io::Result<usize>
    ensures within { IfOk result (λ n. n ≤ length buffer.new) }
    ensures bytes { IfOk result (λ n. IfSome (R.remaining input.old) (λ xs.
        take n buffer.new ≡ take (length buffer.old) xs)) }
{
    let mut n: usize = 0;
    // A while: a read may give fewer bytes than there is room for.
    'reads: while n < buffer.len() {
        let more = input.read(&mut buffer[n..])?;
        if more == 0 {
            break;
        }
        n += more;
    }
    Ok(n)
}
