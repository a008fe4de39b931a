// The program: an image from standard input, two lines to standard output.
#![tactic(auto)]

ghost use Rattle.std.specs.Prelude.{◌≤◌, length, IfOk};

use std::io;
use std::io::{Read, Write};

// Reads until the buffer is full or the input ends: how many bytes of the buffer were read.
// Not `read_exact`, which fails at an early end, nor `read_to_end`, which allocates.
fn read_full<R: Read>(input: &mut R, buffer: &mut [u8]) -> io::Result<usize>
    ensures { IfOk result (λ size. size ≤ length buffer.new) }
{
    let mut size: usize = 0;
    while size < buffer.len() {
        let n = input.read(&mut buffer[size..])?;
        if n == 0 {
            break;
        }
        size += n;
    }
    Ok(size)
}

fn main(rt: HostRuntime) -> io::Result<()> {
    let mut buffer = [0u8; 16385];
    let size = read_full(&mut rt.reader(), &mut buffer)?;
    let text = printer::lines(&buffer[..size]);
    rt.stdout().write_all(text.as_bytes())
}
