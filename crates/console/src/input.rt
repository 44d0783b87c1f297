// Input that is read whole.
ghost use Rattle.std.specs.Prelude.{◌≤◌, length, IfOk};

use std::io;
use std::io::Read;

// Reads until the buffer is full or the input is over, and answers how many bytes stand at the buffer's start.
pub fn read_full(input: &mut impl Read, buffer: &mut [u8]) -> io::Result<usize>
    ensures { IfOk result (λ n. n ≤ length buffer.new) }
{
    let mut done: usize = 0;
    while done < buffer.len() {
        let got = input.read(&mut buffer[done..])?;
        if got == 0 {
            return Ok(done);
        }
        done += got;
    }
    Ok(done)
}
