// The timetable that a sheet holds, as it stands in a timetable file: the stations rise, and so do the entries of each.
// Each function puts its numbers into the lent buffer from a place on and answers the place behind them; on a buffer
// that is too short it only counts.
ghost use Rattle.std.specs.Prelude.{List, ℕ, ◌≡◌, ◌+◌, ◌*◌, ◌≤◌, length, IfOk};
ghost use Rattle.std.specs.Borrow.{Bor, MutBor};
ghost use Rattle.base.specs.Lists.{sum};
ghost use Rattle.network.specs.Networks.{station_rows};
ghost use Rattle.timetable.specs.Tables.{Table};
ghost use Rattle.timetable.specs.Count.{visit_count, relation_count};
ghost use Rattle.timetable.specs.Formats.{bytes_of};
ghost use Rattle.timetable.specs.Outputs.{reply_of, put};
ghost use Rattle.timetable.specs.FileForms.{newest_form};
ghost use Rattle.timetable.specs.TimetableFile.{visit_numbers};
ghost use Rattle.page.specs.between.Changes.{table_in};
ghost use Rattle.sheet.specs.Sheets.{decode_sheet};
ghost use Rattle.fields.specs.between.Putting.{Places};
ghost use Rattle.timetable_writing.specs.between.Parts.{relation_row, visits_here, relations_here, of_rows, visit_part, relation_part, file_rows};
ghost use Rattle.timetable_writing.specs.Writing.{write_timetable, timetable_written, totals_told, sheet_totals};

use base::refusal::{OutputError, Refusal};
use fields::put;
use network::{Network, StationRow, in_use};
use page::entries;
use railway::edit::StationRelation;
use railway::relation::Relation;
use railway::sorts::{Station, Train};
use railway::visit::Visit;
use records::record;
use relation_files::row;
use sheet::test::Extent;
use sheet::{station_page, test};
use visit_files::row::visit_numbers;

/// How many visits and relations a sheet holds.
#[derive(Clone, Copy, Debug, PartialEq, Eq, Hash)]
pub struct Totals {
    pub visits: usize,
    pub relations: usize,
}

// An entry

fn put_visit(out: &mut [u8], at: usize, s: Station, t: Train, v: Visit) -> usize
    requires { at ≤ 800000000 }
    ensures { Places at (visit_numbers newest_form (record { station = s; train = t; visit = v })) out.old result out.new 108 }
{
    put::put_row(out, at, visit_numbers(s, t, v).in_use())
}

fn put_relation(out: &mut [u8], at: usize, s: Station, r: Relation) -> usize
    requires { at ≤ 900000000 }
    ensures { Places at (relation_row s r) out.old result out.new 39 }
{
    let entry = StationRelation {
        station: s,
        relation: r,
    };
    put::put_row(out, at, row::relation_numbers(entry).in_use())
}

// A station

fn put_visits(out: &mut [u8], at: usize, part: &[u8], s: Station) -> usize
    requires { at ≤ 700000000 }
    ensures { Places at (visits_here s (table_in part.now)) out.old result out.new 2592 }
{
    let mut next = at;
    for i in 0..page::visit_count(part) {
        let r = entries::entry_record(part, i);
        next = put_visit(out, next, s, record::train_in(r), record::visit_in(r));
    }
    next
}

fn put_relations(out: &mut [u8], at: usize, part: &[u8], s: Station) -> usize
    requires { at ≤ 700000000 }
    ensures { Places at (relations_here s (table_in part.now)) out.old result out.new 234 }
{
    let mut next = at;
    for i in 0..page::relation_count(part) {
        let r = entries::relation_record(part, i);
        next = put_relation(out, next, s, record::relation_in(r));
    }
    next
}

// The file

// The rows in use: sixteen at most.
#[tactic(auto, using(network::proofs::RowsInUse::in_use_rows), unfolding(network::specs::Networks::station_rows))]
fn rows(n: &Network) -> &[StationRow]
    ensures rows { result.now ≡ station_rows n.now }
    ensures few { length result.now ≤ 16 }
{
    let stations = &n.stations[..];
    &stations[..in_use(n.stationcount, 16)]
}

// What is counted on the pages of the rows' stations, in all.
fn total<F: Fn(&[u8]) -> usize>(sheet: &[u8; 8192], rows: &[StationRow], count: F) -> usize
    requires few { length rows.now ≤ 16 }
    requires callable { F.IsAlwaysCallable count }
    requires small { (x : Bor (List ℕ)) (k : ℕ) → F.post count x k → k ≤ 24 }
    ensures sum { (f : Table → ℕ) → ((x : Bor (List ℕ)) (k : ℕ) → F.post count x k → k ≡ f (table_in x.now)) → result ≡ sum (λ r. f (decode_sheet sheet.now r.station)) rows.now }
    ensures bound { (most : ℕ) → ((x : Bor (List ℕ)) (k : ℕ) → F.post count x k → k ≤ most) → result ≤ most * length rows.now }
{
    let mut total = 0;
    for row in rows {
        total += count(station_page::page_of(sheet, row.station));
    }
    total
}

fn visit_total(sheet: &[u8; 8192], n: &Network) -> usize
    ensures { (result ≡ visit_count n.now (decode_sheet sheet.now)) × (result ≤ 384) }
{
    total(sheet, rows(n), page::visit_count)
}

fn relation_total(sheet: &[u8; 8192], n: &Network) -> usize
    ensures { (result ≡ relation_count n.now (decode_sheet sheet.now)) × (result ≤ 96) }
{
    total(sheet, rows(n), page::relation_count)
}

/// What the sheet's pages say, whatever else they hold; 5 for what is no sheet.
pub fn sheet_totals(sheet: &[u8], n: &Network) -> Result<Totals, Refusal>
    ensures told { totals_told result ≡ sheet_totals n.now sheet.now }
    ensures few { IfOk result (λ t. (t.visits ≤ 384) × (t.relations ≤ 96)) }
{
    let Some(sheet) = sheet.as_array() else {
        return Err(Refusal::WrongLength);
    };
    Ok(Totals {
        visits: visit_total(sheet, n),
        relations: relation_total(sheet, n),
    })
}

// What is put of the pages of the rows' stations, one behind the other.
fn put_all<F: Fn(&mut [u8], usize, &[u8], Station) -> usize>(
    out: &mut [u8],
    at: usize,
    sheet: &[u8; 8192],
    rows: &[StationRow],
    put: F,
) -> usize
    requires few { length rows.now ≤ 16 }
    requires near { at ≤ 600000000 }
    requires callable { (b : MutBor (List ℕ)) (k : ℕ) (x : Bor (List ℕ)) (s : Station) → k ≤ 700000000 → F.pre put b k x s }
    requires small { (b : MutBor (List ℕ)) (k : ℕ) (x : Bor (List ℕ)) (s : Station) (r : ℕ) (c : MutBor (List ℕ)) → F.post put b k x s r c → r ≤ k + 2592 }
    ensures put { (f : Station → Table → List ℕ) (most : ℕ) → ((b : MutBor (List ℕ)) (k : ℕ) (x : Bor (List ℕ)) (s : Station) (r : ℕ) (c : MutBor (List ℕ)) → F.post put b k x s r c → Places k (f s (table_in x.now)) b.now r c.now most)
        → Places at (of_rows (decode_sheet sheet.now) f rows.now) out.old result out.new (most * length rows.now) }
{
    let mut next = at;
    for row in rows {
        next = put(
            out,
            next,
            station_page::page_of(sheet, row.station),
            row.station,
        );
    }
    next
}

fn put_all_visits(out: &mut [u8], at: usize, sheet: &[u8; 8192], n: &Network) -> usize
    requires { at ≤ 600000000 }
    ensures { Places at (visit_part n.now (decode_sheet sheet.now)) out.old result out.new 41472 }
{
    put_all(out, at, sheet, rows(n), put_visits)
}

fn put_all_relations(out: &mut [u8], at: usize, sheet: &[u8; 8192], n: &Network) -> usize
    requires { at ≤ 600000000 }
    ensures { Places at (relation_part n.now (decode_sheet sheet.now)) out.old result out.new 3744 }
{
    put_all(out, at, sheet, rows(n), put_relations)
}

// "count of visits (0..384), .. count of relations (0..96), .."
fn put_timetable(out: &mut [u8], sheet: &[u8; 8192], n: &Network) -> usize
    ensures { (result ≡ length (bytes_of (file_rows n.now (decode_sheet sheet.now))))
        × (out.new ≡ put 0 (bytes_of (file_rows n.now (decode_sheet sheet.now))) out.old) }
{
    let visits = put::put_number(out, 0, visit_total(sheet, n) as u16);
    let count = put_all_visits(out, visits, sheet, n);
    let relations = put::put_number(out, count, relation_total(sheet, n) as u16);
    put_all_relations(out, relations, sheet, n)
}

/// How many bytes were written. 5, 3 and 4 for a network that is not good, 6, 13.
pub fn write_timetable(sheet: &[u8], n: &Network, out: &mut [u8]) -> Result<usize, OutputError>
    ensures { (reply_of result ≡ write_timetable n.now sheet.now out.old)
        × (out.new ≡ timetable_written n.now sheet.now out.old) }
{
    let Some(sheet) = sheet.as_array() else {
        return Err(OutputError::Refused(Refusal::WrongLength));
    };
    n.check()?;
    if !test::good_sheet(sheet, n, Extent::Whole) {
        return Err(OutputError::Refused(Refusal::BadSheet));
    }
    let mut spare = [0; 1];
    let needed = put_timetable(&mut spare, sheet, n);
    if out.len() < needed {
        return Err(OutputError::TooShort(needed));
    }
    put_timetable(out, sheet, n);
    Ok(needed)
}
