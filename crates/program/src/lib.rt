// What the programs do: a sheet from standard input, and its listing, or `refused N` and a line feed, to standard
// output.
#![tactic(auto)]

ghost use Rattle.std.specs.Prelude.{◌≤◌, length, IfOk};

use answers::Refusal;
use std::io;
use std::io::{Read, Write};

fn write_refusal<R: Print>(rt: &R, refusal: Refusal) -> io::Result<()> {
    println!(rt; "refused {refusal}")
}

// Reads until the buffer is full or the input ends, and says how many bytes came.
fn read_full<R: Read>(reader: &mut R, buffer: &mut [u8]) -> io::Result<usize>
    ensures { IfOk result (λ size. size ≤ length buffer.new) }
{
    let mut size = 0;
    while size < buffer.len() {
        let count = reader.read(&mut buffer[size..])?;
        if count == 0 {
            break;
        }
        size += count;
    }
    Ok(size)
}

// The input has room for one byte more than a sheet may have, so that check 2 refuses a longer one; the output for
// every listing.
pub fn run<R: Input + Print>(rt: &R, kind: i32) -> io::Result<()> {
    let mut input = [0u8; 12289];
    let mut output = [0u8; 2048];
    let mut reader = rt.reader();
    let size = read_full(&mut reader, &mut input)?;
    match farzhudyl::listing(kind, &input[..size], &mut output) {
        Ok(length) => io::writer(rt).write_all(&output[..length]),
        Err(refusal) => write_refusal(rt, refusal),
    }
}
