// One number of a file, and rows of numbers, each with its range.
ghost use Rattle.std.specs.Prelude.{◌≡◌, [], map, take, length, ◌%◌};
ghost use Rattle.std.specs.Prelude.{if◌then◌else◌};
ghost use Rattle.base.specs.Lists.{within};
ghost use Rattle.base.specs.RefusalNumbers.{number_of};
ghost use Rattle.timetable.specs.Formats.{field_at, read, row, accepted, refused};
ghost use Rattle.fields.specs.between.Answers.{outcome, filled, range_of, EndsAt};

use base::refusal::{FileError, Refusal};
use numbers::NumberError;

/// The least and the greatest value of a number. The least may be one above every value of a field.
#[derive(Clone, Copy, Debug, PartialEq, Eq, Hash)]
pub struct Span {
    pub lo: u32,
    pub hi: u16,
}

// A number as a byte.
pub fn narrow(n: u16) -> u8
    ensures { result ≡ n % 256 }
{
    (n % 256) as u8
}

// The refusal of a number that stands at a place and is out of range. It is kept out of its caller: merged into it, the
// compiler chooses between two places by the number, and the next number is not read before this one is known.
#[inline(never)]
fn out_of_range(place: usize) -> FileError
    ensures { (number_of result.refusal ≡ 3) × (result.place ≡ place) }
{
    FileError {
        refusal: Refusal::OutOfRange,
        place,
    }
}

// A number that stands at a place, with the place behind it, where it is of lo..hi.
fn ranged(n: u32, place: usize, next: usize, lo: u32, hi: u16) -> Result<(u16, usize), FileError>
    ensures { outcome result ≡ (if within lo hi n then accepted n next else refused 3 place) }
{
    if lo <= n && n <= u32::from(hi) {
        Ok((n as u16, next))
    } else {
        Err(out_of_range(place))
    }
}

/// The number of lo..hi at a place of the file, and the place behind it. Most numbers are below 128, a byte: for them
/// no part of the file is lent, and no function that calls itself is called, as that is not merged into its caller.
/// Place and bounds are arguments and no structs: a literal of a struct takes four lines at each call.
pub fn field(file: &[u8], at: usize, lo: u32, hi: u16) -> Result<(u16, usize), FileError>
    ensures { outcome result ≡ field_at lo hi file.now at }
{
    let end = file.len();
    if end <= at {
        return Err(FileError {
            refusal: Refusal::EndsOrGoesOn,
            place: end,
        });
    }
    let first = file[at];
    if first < 128 {
        return ranged(u32::from(first), at, at + 1, lo, hi);
    }
    match numbers::read(&file[at..]) {
        Ok((n, width)) => ranged(n, at, at + width, lo, hi),
        Err(NumberError::EndsEarly) => Err(FileError {
            refusal: Refusal::EndsOrGoesOn,
            place: end,
        }),
        Err(NumberError::NotShortest) => Err(FileError {
            refusal: Refusal::NotShortest,
            place: at,
        }),
    }
}

/// A row of numbers from a place of the file on, one for each range, and the place behind them. How many ranges there
/// are need not be known before: the row has room for N numbers, and holds zeros behind those that it reads.
pub fn row<const N: usize>(
    file: &[u8],
    at: usize,
    spans: &[Span],
) -> Result<([u16; N], usize), FileError>
    ensures told { outcome result ≡ filled N (read (row (map range_of (take N spans.now)) []) file.now at) }
    ensures whole { length spans.now ≡ N → outcome result ≡ read (row (map range_of spans.now) []) file.now at }
{
    let used = &spans[..N.min(spans.len())];
    let mut values = [0; N];
    let mut place = at;
    for i in 0..used.len() {
        let (value, next) = field(file, place, used[i].lo, used[i].hi)?;
        values[i] = value;
        place = next;
    }
    Ok((values, place))
}

/// Nothing may stand behind a place of the file.
pub fn ended(file: &[u8], place: usize) -> Result<(), FileError>
    ensures { EndsAt file.now place result }
{
    if place < file.len() {
        return Err(FileError {
            refusal: Refusal::EndsOrGoesOn,
            place,
        });
    }
    Ok(())
}
