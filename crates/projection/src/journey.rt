// The rows along a train's answered links, written one behind the other. Document 01, "Projection and tally": "expected
// departure from expected arrival, and the next arrival from that departure, along answered links, at most 16 visits".
// Numbers past the buffer's end are dropped, so that a pass over a short buffer counts them.
ghost use Rattle.std.specs.Prelude.{◌≡◌, ◌+◌, ◌*◌, ◌≤◌, length, set};
ghost use Rattle.timetable.specs.Tables.{visit_of};
ghost use Rattle.timetable.specs.Rules.{out_answered};
ghost use Rattle.sheet.specs.Sheets.{decode_sheet};
ghost use Rattle.timetable.specs.Outputs.{put};
ghost use Rattle.projection.specs.Numbers.{row_numbers, arrival_numbers, departure_numbers};

use crate::times;
use railway::sorts::{Station, Train};
use railway::visit::{OutLink, Outward, Visit};
use sheet::station_page;
use timetable::Row;

// The train's visit at a station.
pub(crate) fn visit_at(sheet: &[u8; 8192], s: Station, t: Train) -> Option<Visit>
    ensures { result ≡ visit_of t (decode_sheet sheet.now s) }
{
    page::visit_of(station_page::page_of(sheet, s), t)
}

// The out-link of the visit of t at s is answered: the far visit has s and the line as its in-link.
fn is_answered(sheet: &[u8; 8192], s: Station, t: Train, o: Outward) -> bool
    ensures { result ≡ out_answered s t o (decode_sheet sheet.now o.station) }
{
    match visit_at(sheet, o.station, t) {
        Some(w) => visits::is_from(w, s, o.line),
        None => false,
    }
}

// A number written at a place, dropped past the end.
fn put_number(out: &mut [i32], at: usize, x: i32)
    ensures { out.new ≡ set out.old at x }
{
    if at < out.len() {
        out[at] = x;
    }
}

fn put_row(out: &mut [i32], at: usize, r: Row)
    requires { (at ≤ 60) × (r.arrival ≤ 70000) × (r.departure ≤ 70000) }
    ensures { out.new ≡ put at (row_numbers r) out.old }
{
    put_number(out, at, r.station.0 as i32);
    put_number(out, at + 1, r.arrival as i32);
    put_number(out, at + 2, r.departure as i32);
    put_number(out, at + 3, r.lateness);
}

// From an arrival on, at most `left` visits: its row, and the rows from its departure on. Answers how many numbers they
// are.
#[cycle(arrive_depart)]
pub(crate) fn arrive(
    sheet: &[u8; 8192],
    t: Train,
    s: Station,
    a: u32,
    left: u8,
    out: &mut [i32],
    at: usize,
) -> usize
    requires { (left ≤ 16) × (a + 256 * left ≤ 70000) × (at + 4 * left ≤ 64) }
    ensures { (result ≡ length (arrival_numbers left sheet.now t s a))
        × (out.new ≡ put at (arrival_numbers left sheet.now t s a) out.old)
        × (result ≤ 4 * left) }
{
    if left == 0 {
        return 0;
    }
    match visit_at(sheet, s, t) {
        None => 0,
        Some(v) => {
            let r = times::row_of(s, v, times::expected_arrival(v, a));
            put_row(out, at, r);
            4 + depart(sheet, t, s, v, r.departure, left - 1, out, at + 4)
        }
    }
}

// From a departure on: the rows from the next arrival on, at most `left` visits, where the link is answered.
#[cycle(arrive_depart)]
fn depart(
    sheet: &[u8; 8192],
    t: Train,
    s: Station,
    v: Visit,
    d: u32,
    left: u8,
    out: &mut [i32],
    at: usize,
) -> usize
    requires { (left ≤ 15) × (d + 255 + 256 * left ≤ 70000) × (at + 4 * left ≤ 64) }
    ensures { (result ≡ length (departure_numbers left sheet.now t s v d))
        × (out.new ≡ put at (departure_numbers left sheet.now t s v d) out.old)
        × (result ≤ 4 * left) }
{
    match v.outward {
        OutLink::Nothing => 0,
        OutLink::To(o) => {
            if is_answered(sheet, s, t, o) {
                arrive(sheet, t, o.station, d + u32::from(o.run), left, out, at)
            } else {
                0
            }
        }
    }
}
