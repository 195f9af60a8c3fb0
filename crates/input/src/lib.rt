// Reads an input into a buffer.
// Promises: for every reader whose bytes are known, what was read is the input, or as much of it as the buffer takes. The bytes of standard
// input are not known: what is read there is as std has it.
#![tactic(auto)]

ghost use Rattle.std.specs.Prelude.{◌≡◌, ◌≤◌, length, take, IfOk, IfSome};

use std::io;
use std::io::Read;

// Reads until the input ends or the buffer is full, and gives the count of bytes read.
pub fn read<R: Read>(from: &mut R, buffer: &mut [u8]) -> io::Result<usize>
    ensures within { IfOk result (λ n. n ≤ length buffer.new) }
    ensures begins { IfOk result (λ n. IfSome (R.remaining from.old) (λ bytes. take n buffer.new ≡ take (length buffer.new) bytes)) }
{
    // It reads on by a loop: a read may give less than is asked for, and of the library's calls that read on, `read_exact` fails at an input that is
    // shorter than the buffer, `read_to_end` wants a `Vec`, where there is no heap, and `io::copy` into a slice says nothing of its bytes.
    let mut done: usize = 0;
    while done < buffer.len() {
        let more = from.read(&mut buffer[done..])?;
        if more == 0 {
            break;
        }
        done += more;
    }
    Ok(done)
}
