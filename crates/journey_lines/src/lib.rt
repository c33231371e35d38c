// The projection from each visit, station by station: the rows of its train from there on.
#![tactic(auto)]

ghost use Rattle.std.specs.Prelude.{◌≡◌, true, ◌+◌, ◌*◌, ◌≤◌, min};
ghost use mathlib.Core.List.{flat_map};
ghost use Rattle.railway.specs.Ranges.{train_ok, last_minute};
ghost use Rattle.network.specs.Networks.{listed};
ghost use Rattle.timetable.specs.Outputs.{Puts};
ghost use Rattle.timetable.specs.Tables.{has_visit};
ghost use Rattle.sheet.specs.Sheets.{decode_sheet};
ghost use Rattle.findings.specs.Lists.{sheet_list_refusal};
ghost use Rattle.listings.specs.Inspect.{visit_text, journeys_text};
ghost use Rattle.journey_lines.specs.between.Journeys.{journey_lines};

use network::Network;
use page::entries;
use projection::calls;
use railway::minute::Minute;
use railway::sorts::{Station, Train};
use railway::visit::Visit;
use records::record;
use text::rows;

// The stored arrival plus 5, at most the last minute.
fn expected(stored: Minute) -> Minute
    ensures { result.0 ≡ min (stored.0 + 5) last_minute }
{
    Minute(stored.0.saturating_add(5).min(Minute::LAST))
}

// The projection from a visit that the sheet holds.
fn put_projection(
    out: &mut [u8],
    at: usize,
    sheet: &[u8],
    n: &Network,
    s: Station,
    t: Train,
    v: Visit,
) -> usize
    requires { (at ≤ 500000000)
        × (sheet_list_refusal n.now sheet.now ≡ 0)
        × (listed n.now s ≡ true)
        × (train_ok t ≡ true)
        × (has_visit t (decode_sheet sheet.now s) ≡ true) }
    ensures { Puts at (visit_text n.now (decode_sheet sheet.now) s (record { train = t; visit = v })) out.old result out.new 1152 }
{
    let mut numbers = [0i32; 64];
    match calls::project(sheet, n, s, t, expected(v.arrival), &mut numbers) {
        Ok(k) => rows::put_rows(out, at, s, t, &numbers, k / 4),
        Err(_) => at,
    }
}

// The projections from the visits at a listed station.
fn put_visits(out: &mut [u8], at: usize, sheet: &[u8], n: &Network, s: Station) -> usize
    requires { (at ≤ 400000000) × (sheet_list_refusal n.now sheet.now ≡ 0) × (listed n.now s ≡ true) }
    ensures { Puts at (flat_map (visit_text n.now (decode_sheet sheet.now) s) (decode_sheet sheet.now s).visits) out.old result out.new 27648 }
{
    let first = 512 * (usize::from(s.0) - 1);
    let part = &sheet[first..first + 512];
    let mut next = at;
    for i in 0..page::visit_count(part) {
        let r = entries::entry_record(part, i);
        let t = record::train_in(r);
        let v = record::visit_in(r);
        next = put_projection(out, next, sheet, n, s, t, v);
    }
    next
}

// All of a good sheet.
fn put_stations(out: &mut [u8], sheet: &[u8], n: &Network) -> usize
    requires { sheet_list_refusal n.now sheet.now ≡ 0 }
    ensures { Puts 0 (journeys_text n.now (decode_sheet sheet.now)) out.old result out.new 442368 }
{
    let mut next = 0;
    for row in n.station_rows() {
        next = put_visits(out, next, sheet, n, row.station);
    }
    next
}

// The same of any sheet; nothing where its list of findings is refused.
pub fn put_journeys(out: &mut [u8], sheet: &[u8], n: &Network) -> usize
    ensures { Puts 0 (journey_lines n.now sheet.now) out.old result out.new 442368 }
{
    match findings::calls::sheet_refusal(sheet, n) {
        Ok(()) => put_stations(out, sheet, n),
        Err(_) => 0,
    }
}
