// "F: a central finding."
ghost use Rattle.std.specs.Prelude.{◌≡◌, [], ◌*◌, ◌≤◌, length, take};
ghost use Rattle.timetable.specs.Outputs.{Puts};
ghost use Rattle.text.specs.between.Lines.{far, findings_text};
ghost use Rattle.sheet_lines.specs.between.Sheets.{PutsWhole, Lists};

use base::refusal::OutputError;
use findings::calls;
use network::Network;
use text::found::Heading;
use text::{FAR, found};

// The place behind the lines, and how many they are.
#[derive(Clone, Copy, Debug, PartialEq, Eq, Hash)]
pub struct Whole {
    pub at: usize,
    pub count: u32,
}

// So many findings: a number of two bytes has at most five digits, so a line has at most 26 bytes.
fn put_lines(out: &mut [u8], at: usize, numbers: &[u16], count: usize) -> usize
    requires { (at ≤ far) × (count ≤ 200000) × (4 * count ≤ length numbers.now) }
    ensures { Puts at (findings_text 70 [] (take (4 * count) numbers.now)) out.old result out.new (26 * count) }
{
    let heading = Heading {
        letter: 70,
        one: 0,
        other: 0,
    };
    found::put_findings(out, at, heading, numbers, count)
}

// All findings of a sheet, listed in a lent array; none where the array has no room for the list.
fn put_listed(
    out: &mut [u8],
    at: usize,
    sheet: &[u8],
    n: &Network,
    numbers: &mut [u16],
) -> Option<Whole>
    requires { at ≤ far }
    ensures { Lists at n.now sheet.now (length numbers.old) out.old out.new result }
{
    match calls::sheet_findings(sheet, n, numbers) {
        Ok(k) => {
            let count = k / 4;
            let next = put_lines(out, at, numbers, count);
            Some(Whole {
                at: next,
                count: count as u32,
            })
        }
        Err(OutputError::Refused(_)) => Some(Whole { at: at, count: 0 }),
        Err(OutputError::TooShort(_)) => None,
    }
}

// In an array that has room for any list, so that it never calls itself. It is kept out of its caller, so that the
// array's pages are touched only where it is needed: a call of itself that comes last does not keep it out.
#[inline(never)]
fn put_any(out: &mut [u8], at: usize, sheet: &[u8], n: &Network) -> Whole
    requires { at ≤ far }
    ensures { PutsWhole at n.now sheet.now out.old result out.new }
{
    let mut numbers = [0u16; findings::MOST];
    match put_listed(out, at, sheet, n, &mut numbers) {
        Some(w) => w,
        None => put_any(out, at, sheet, n),
    }
}

// In a short array, which most lists fit, and else in one that has room for any.
fn put_near(out: &mut [u8], at: usize, sheet: &[u8], n: &Network) -> Whole
    requires { at ≤ far }
    ensures { PutsWhole at n.now sheet.now out.old result out.new }
{
    let mut numbers = [0u16; 8192];
    match put_listed(out, at, sheet, n, &mut numbers) {
        Some(w) => w,
        None => put_any(out, at, sheet, n),
    }
}

// Nothing where the place is too far.
pub fn put_whole(out: &mut [u8], at: usize, sheet: &[u8], n: &Network) -> Whole
    ensures { PutsWhole at n.now sheet.now out.old result out.new }
{
    if FAR < at {
        return Whole { at: at, count: 0 };
    }
    put_near(out, at, sheet, n)
}
