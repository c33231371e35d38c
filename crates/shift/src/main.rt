// The program `shift`. Document 01: "Standard input (one file of at most 16,384 bytes, else 5): network, then edits,
// from an empty division." One byte more than that is read, so that a longer file is seen to be longer.
#![tactic(auto)]

use base::refusal::OutputError;
use shift_lines::listing;
use std::io;
use std::io::Write;

// A buffer that has room for any text; made by a function of its own, so that no proof looks at its millions of zeros.
fn roomy() -> [u8; listing::MOST] {
    [0u8; listing::MOST]
}

// A buffer that has room for any text, so none is refused. Where nothing was printed, it is tried again so many times.
// A function that calls itself is not merged into its caller: the buffer's pages are touched only where it is needed.
fn print_long<W: Write>(writer: &mut W, input: &[u8], tries: u8) -> io::Result<()> {
    let mut out = roomy();
    let output = listing::write_listing(input, &mut out);
    let printed = console::print(writer, &out, output)?;
    if printed == 0 && 0 < tries {
        return print_long(writer, input, tries - 1);
    }
    Ok(())
}

// Most texts are short: only for a longer one a large buffer is cleared.
fn print_listing<W: Write>(writer: &mut W, input: &[u8]) -> io::Result<()> {
    let mut out = [0u8; listing::SHORT];
    let output = listing::write_listing(input, &mut out);
    console::print(writer, &out, output)?;
    match output {
        Err(OutputError::TooShort(_)) => print_long(writer, input, 1),
        _ => Ok(()),
    }
}

fn main(rt: HostRuntime) -> io::Result<()> {
    let mut input = [0u8; 16385];
    let n = console::read_full(&mut rt.stdin(), &mut input)?;
    print_listing(&mut rt.stdout(), &input[..n])
}
