// Prints what the network and the timetable on standard input give: findings of the whole, of areas and of pairs,
// totals, projections, and whether the timetable is written as it was read. One byte more than an input may have is
// read, so that a longer one is told from it.
#![tactic(auto)]

use base::refusal::FileError;
use inspect_lines::parts;
use network::Network;
use std::io;
use std::io::Write;
use text::refusal;

// All parts, one behind the other; the buffer has room for any, so none is refused.
fn print_parts<W: Write>(
    writer: &mut W,
    sheet: &[u8],
    n: &Network,
    bytes: &[u8],
    out: &mut [u8],
) -> io::Result<()> {
    for k in 0..25 {
        let output = parts::inspect_part(sheet, n, bytes, k, out);
        console::print(writer, out, output)?;
    }
    Ok(())
}

// The line of a refusal.
fn print_refusal<W: Write>(writer: &mut W, e: FileError, out: &mut [u8]) -> io::Result<()> {
    let output = refusal::refusal_line(u8::from(e.refusal), e.place, out);
    console::print(writer, out, output)?;
    Ok(())
}

// The input is read once, into the lent sheet.
fn print_input<W: Write>(
    writer: &mut W,
    input: &[u8],
    sheet: &mut [u8],
    out: &mut [u8],
) -> io::Result<()> {
    match parts::read_input(input, sheet) {
        Ok(read) if read.first <= input.len() => {
            print_parts(writer, sheet, &read.network, &input[read.first..], out)
        }
        Ok(_) => Ok(()),
        Err(e) => print_refusal(writer, e, out),
    }
}

// The buffer for what is printed is lent.
fn print_read<W: Write>(writer: &mut W, input: &[u8], out: &mut [u8]) -> io::Result<()> {
    let mut sheet = [0u8; 8192];
    print_input(writer, input, &mut sheet, out)
}

// A buffer that has room for any part; made by a function of its own, so that no proof looks at its millions of zeros.
fn roomy() -> [u8; parts::MOST] {
    [0u8; parts::MOST]
}

fn main(rt: HostRuntime) -> io::Result<()> {
    let mut buffer = [0u8; 16385];
    let n = console::read_full(&mut rt.stdin(), &mut buffer)?;
    let mut out = roomy();
    print_read(&mut rt.stdout(), &buffer[..n], &mut out)
}
