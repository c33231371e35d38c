// Standard input and output of the programs: a lent buffer filled from a reader, and what a call left in a lent buffer
// written to a writer. Neither allocates.
#![tactic(auto)]

ghost use Rattle.std.specs.Io.KnownBytes.{Appends, Consumes, IsAtEnd};
ghost use Rattle.std.specs.Prelude.{◌≡◌, ◌<◌, ◌≤◌, length, take, IfOk, OnOk, OnErr};
ghost use Rattle.console.specs.Printed.{printed};
ghost use Rattle.console.specs.Filled.{ReadPart};

use std::io;
use std::io::{Read, Write};

// The head of the buffer that the call wrote, nothing where it was refused, whatever the error.
#[tactic(auto, unfolding(crate::specs::Printed::printed))]
fn written<E: Copy>(out: &[u8], output: Result<usize, E>) -> &[u8]
    ensures text { result.now ≡ take (printed output out.now) out.now }
    ensures count { length result.now ≡ printed output out.now }
{
    match output {
        Ok(k) if k <= out.len() => &out[..k],
        _ => &[],
    }
}

// Writes what the call wrote; answers how many bytes that is. An error, which only the writer brings, leaves open how
// many of them were written; where there are none to write, none comes.
pub fn print<W: Write, E: Copy>(
    writer: &mut W,
    out: &[u8],
    output: Result<usize, E>,
) -> io::Result<usize>
    ensures count { IfOk result (λ n. n ≡ printed output out.now) }
    ensures bytes { OnOk result (Appends (W.contents writer.old) (W.contents writer.new) (take (printed output out.now) out.now)) }
    ensures err { OnErr result (0 < printed output out.now) }
{
    let head = written(out, output);
    if head.is_empty() {
        return Ok(0);
    }
    writer.write_all(head)?;
    Ok(head.len())
}

// Reads until the buffer is full or the input ends; answers how many bytes it read, which stand at the buffer's head.
// An error, which only the reader brings, leaves at the head what was read before it.
pub fn read_full<R: Read>(reader: &mut R, buffer: &mut [u8]) -> io::Result<usize>
    ensures bound { IfOk result (λ n. n ≤ length buffer.new) }
    ensures bytes { IfOk result (λ n. Consumes (R.remaining reader.old) (R.remaining reader.new) (take n buffer.new)) }
    ensures end { IfOk result (λ n. n < length buffer.new → IsAtEnd (R.remaining reader.new)) }
    ensures err { OnErr result (ReadPart (R.remaining reader.old) (R.remaining reader.new) buffer.new) }
{
    let mut at = 0;
    // a `while`, as each read takes as many bytes as the reader gives
    while at < buffer.len() {
        let n = reader.read(&mut buffer[at..])?;
        if n == 0 {
            return Ok(at);
        }
        at += n;
    }
    Ok(at)
}
