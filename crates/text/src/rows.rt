// The rows of a projection, from their numbers: station, expected arrival, expected departure and lateness.
ghost use mathlib.Core.List.{flat_map};
ghost use Rattle.std.specs.Prelude.{◌+◌, ◌*◌, ◌≤◌, length, take};
ghost use Rattle.timetable.specs.Outputs.{Puts};
ghost use Rattle.text.specs.between.Lines.{far};
ghost use Rattle.text.specs.between.Rows.{signed_word, row_at, row_line, rows_text, rows_at};

use crate::{FAR, words};
use railway::sorts::{Station, Train};

// The four numbers of the row from i on.
fn put_numbers(out: &mut [u8], at: usize, rows: &[i32], i: usize) -> usize
    requires { (at ≤ 850000000) × (i ≤ 60) × (i + 4 ≤ length rows.now) }
    ensures { Puts at (flat_map signed_word (row_at rows.now i)) out.old result out.new 48 }
{
    let station = words::put_signed_word(out, at, rows[i]);
    let arrival = words::put_signed_word(out, station, rows[i + 1]);
    let departure = words::put_signed_word(out, arrival, rows[i + 2]);
    words::put_signed_word(out, departure, rows[i + 3])
}

// The line of that row, of the projection from s, t.
fn put_row(out: &mut [u8], at: usize, s: Station, t: Train, rows: &[i32], i: usize) -> usize
    requires { (at ≤ 840000000) × (i ≤ 60) × (i + 4 ≤ length rows.now) }
    ensures { Puts at (row_line s.0 t.0 (row_at rows.now i)) out.old result out.new 72 }
{
    let letter = words::put_byte(out, at, 74);
    let station = words::put_word(out, letter, u32::from(s.0));
    let train = words::put_word(out, station, u32::from(t.0));
    let end = put_numbers(out, train, rows, i);
    words::put_byte(out, end, 10)
}

// The first `count` rows.
fn put_each(out: &mut [u8], at: usize, s: Station, t: Train, rows: &[i32], count: usize) -> usize
    requires { (at ≤ far) × (count ≤ 16) × (4 * count ≤ length rows.now) }
    ensures { Puts at (rows_text s.0 t.0 (take (4 * count) rows.now)) out.old result out.new 1152 }
{
    let mut next = at;
    for i in 0..count {
        next = put_row(out, next, s, t, rows, 4 * i);
    }
    next
}

// The same; nothing where the place is too far, or the numbers are not there.
#[tactic(auto, unfolding(crate::specs::between::Rows::rows_at, timetable::specs::Outputs::put))]
pub fn put_rows(
    out: &mut [u8],
    at: usize,
    s: Station,
    t: Train,
    rows: &[i32],
    count: usize,
) -> usize
    ensures { Puts at (rows_at at s.0 t.0 count rows.now) out.old result out.new 1152 }
{
    if FAR < at || 16 < count || rows.len() < 4 * count {
        return at;
    }
    put_each(out, at, s, t, rows, count)
}
