// Whether a page, a sheet and a division are good: "byte for byte that of its timetable, within the limits, in the
// layout's order, with no visit or relation twice". A record is read, written anew and compared: what is not byte for
// byte its own is found so.
ghost use Rattle.std.specs.Prelude.{◌≡◌, true, not, ◌||◌, ◌*◌, ◌≤◌, eqb, length, get_or};
ghost use Rattle.base.specs.RefusalNumbers.{refusal_number};
ghost use Rattle.base.specs.Choice.{◌if◌else◌};
ghost use Rattle.base.specs.Lists.{same};
ghost use Rattle.network.specs.Networks.{runs, network_refusal};
ghost use Rattle.timetable.specs.Good.{visit_good};
ghost use Rattle.timetable.specs.Refusals.{or_else};
ghost use Rattle.railway.specs.Relations.{precedes};
ghost use Rattle.records.specs.Records.{decode_visit, decode_relation};
ghost use Rattle.page.specs.Pages.{good_page};
ghost use Rattle.sheet.specs.between.Passes.{tracks_at, values_pass, row_place, row_there, RowOfIn, RowOfOut, RowOfByte, train_if};
ghost use Rattle.sheet.specs.between.Passes.{in_passes, out_passes, passing_train, relation_passes, visit_run, relation_run};
ghost use Rattle.sheet.specs.between.Passes.{visits_pass, relations_pass, covers, place_passes, sheet_passes, division_passes};

use base::refusal::Refusal;
use network::{LineRow, Network};
use railway::relation::{Pair, Relation};
use railway::sorts::{Area, Line, Station, Train};
use railway::visit;
use railway::visit::{InLink, OutLink, Visit};
use records::{bytes, record};

// Whether the bytes are the same.
pub fn is_same(a: &[u8], b: &[u8]) -> bool
    ensures { result ≡ same a.now b.now }
{
    if a.len() != b.len() {
        return false;
    }
    let mut i: usize = 0;
    while i < a.len() {
        if a[i] != b[i] {
            return false;
        }
        i += 1;
    }
    true
}

// A visit's values: "it has only values that an edit could carry under the network without 3 or 7"

pub fn in_good(l: InLink, network: &Network, s: Station) -> bool
    ensures { result ≡ in_passes network.now s l }
{
    match l {
        InLink::Nothing => true,
        InLink::From(i) => {
            if i.station.valid() {
                if i.line.valid() {
                    if network.listed(i.station) {
                        return network.runs(i.line, i.station, s);
                    }
                }
            }
            false
        }
    }
}

pub fn out_good(l: OutLink, network: &Network, s: Station) -> bool
    ensures { result ≡ out_passes network.now s l }
{
    match l {
        OutLink::Nothing => true,
        OutLink::To(o) => {
            if o.station.valid() {
                if o.line.valid() {
                    if visit::run_valid(o.run) {
                        if network.listed(o.station) {
                            return network.runs(o.line, s, o.station);
                        }
                    }
                }
            }
            false
        }
    }
}

// Links in a good network: its rows of lines rise by number and join listed stations. So a line that runs is all that
// is asked, and a row in use that has the line's number is the line's.

// The index of a line's number, at which its row is looked for first.
fn place_of(l: Line) -> usize
    ensures { result ≡ row_place l }
{
    if l.valid() {
        return bytes::size(l.0) - 1;
    }
    0
}

// Searches only where another row stands there.
fn runs_by(row: LineRow, network: &Network, l: Line, from: Station, to: Station) -> bool
    requires { (network_refusal network.now ≡ 0) × (row ≡ row_there network.now l) }
    ensures { result ≡ runs network.now l from to }
{
    let _lines = &network.lines[..];
    if row.line.0 == l.0 {
        if 0 < l.0 {
            if l.0 <= network.linecount {
                return row.runs(from, to);
            }
        }
    }
    network.runs(l, from, to)
}

fn in_runs(l: InLink, row: LineRow, network: &Network, s: Station) -> bool
    requires { (network_refusal network.now ≡ 0) × RowOfIn network.now l row }
    ensures { result ≡ in_passes network.now s l }
{
    match l {
        InLink::Nothing => true,
        InLink::From(i) => runs_by(row, network, i.line, i.station, s),
    }
}

fn out_runs(l: OutLink, row: LineRow, network: &Network, s: Station) -> bool
    requires { (network_refusal network.now ≡ 0) × RowOfOut network.now l row }
    ensures { result ≡ out_passes network.now s l }
{
    match l {
        OutLink::Nothing => true,
        OutLink::To(o) => {
            if visit::run_valid(o.run) {
                return runs_by(row, network, o.line, s, o.station);
            }
            false
        }
    }
}

// The count of a station's tracks, 0 where it is not listed.
fn tracks_of(network: &Network, s: Station) -> u8
    ensures { result ≡ tracks_at network.now s }
{
    match network.station_row(s) {
        Some(row) => row.tracks,
        None => 0,
    }
}

fn good_values(v: Visit, tracks: u8) -> bool
    ensures { result ≡ values_pass tracks v }
{
    if v.track.valid() {
        if v.track.0 <= tracks {
            if v.arrival.valid() {
                return v.departure.valid();
            }
        }
    }
    false
}

// In a good network, with the count of tracks and the rows of the two links' lines looked up before.
fn known_visit(v: Visit, a: LineRow, b: LineRow, network: &Network, s: Station, tracks: u8) -> bool
    requires { (tracks ≡ tracks_at network.now s) × (network_refusal network.now ≡ 0) × RowOfIn network.now v.inward a × RowOfOut network.now v.outward b }
    ensures { result ≡ visit_good network.now s v }
{
    let inward = v.inward;
    let outward = v.outward;
    if good_values(v, tracks) {
        if in_runs(inward, a, network, s) {
            return out_runs(outward, b, network, s);
        }
    }
    false
}

// In any network.
fn any_visit(v: Visit, network: &Network, s: Station, tracks: u8) -> bool
    requires { tracks ≡ tracks_at network.now s }
    ensures { result ≡ visit_good network.now s v }
{
    let inward = v.inward;
    let outward = v.outward;
    if good_values(v, tracks) {
        if in_good(inward, network, s) {
            return out_good(outward, network, s);
        }
    }
    false
}

// Records

// The number of the train of a visit record, 0 where the bytes are not those of a train and its visit, or the visit
// does not fit: no train is 0.
fn own_train(r: &[u8], v: Visit, fits: bool) -> u16
    requires { v ≡ decode_visit r.now }
    ensures { result ≡ train_if fits r.now }
{
    let t = record::train_in(r);
    let own = record::visit_record(t, v);
    if is_same(r, &own) {
        if t.valid() {
            if fits {
                return t.0;
            }
        }
    }
    0
}

// The number of the train of a good visit record, and 0 for any other: in a good network, and in any.

fn known_train(r: &[u8], a: LineRow, b: LineRow, network: &Network, s: Station, tracks: u8) -> u16
    requires { (tracks ≡ tracks_at network.now s) × (network_refusal network.now ≡ 0) × RowOfByte network.now (get_or r.now 10 0) a × RowOfByte network.now (get_or r.now 12 0) b }
    ensures { result ≡ passing_train network.now s r.now }
{
    let v = record::visit_in(r);
    own_train(r, v, known_visit(v, a, b, network, s, tracks))
}

fn any_train(r: &[u8], network: &Network, s: Station, tracks: u8) -> u16
    requires { tracks ≡ tracks_at network.now s }
    ensures { result ≡ passing_train network.now s r.now }
{
    let v = record::visit_in(r);
    own_train(r, v, any_visit(v, network, s, tracks))
}

fn good_relation_record(r: &[u8], q: Relation) -> bool
    requires { q ≡ decode_relation r.now }
    ensures { result ≡ relation_passes r.now }
{
    let own = record::relation_record(q);
    if is_same(r, &own) {
        return q.valid();
    }
    false
}

// The first n records: each is good and comes after the one before it, whose train or relation is kept. The two tests
// are asked for here and not one function down, so that a good network is not copied for each record.
fn visit_run(slots: &[u8], n: usize, network: &Network, s: Station, good: bool) -> bool
    requires { (16 * n ≤ length slots.now) × (good ≡ true → network_refusal network.now ≡ 0) }
    ensures { result ≡ visit_run network.now s n slots.now }
{
    let tracks = tracks_of(network, s);
    let mut last: u16 = 0;
    let mut i: usize = 0;
    while i < n {
        let at = 16 * i;
        let a = network.lines[place_of(Line(slots[at + 10]))];
        let b = network.lines[place_of(Line(slots[at + 12]))];
        let mut t: u16 = 0;
        if good {
            t = known_train(&slots[at..at + 16], a, b, network, s, tracks);
        } else {
            t = any_train(&slots[at..at + 16], network, s, tracks);
        }
        if last < t {
            last = t;
            i += 1;
        } else {
            return false;
        }
    }
    true
}

fn comes_after(i: usize, last: Relation, q: Relation) -> bool
    ensures { result ≡ (eqb i 0 || precedes last q) }
{
    if i == 0 {
        return true;
    }
    last.precedes(q)
}

// Before the first there is none: what stands there is not looked at.
fn none_before() -> Relation {
    Relation::Dependency(
        0,
        Pair {
            arriver: Train(0),
            departer: Train(0),
        },
    )
}

fn relation_run(slots: &[u8], n: usize) -> bool
    requires { 16 * n ≤ length slots.now }
    ensures { result ≡ relation_run n slots.now }
{
    let mut last = none_before();
    let mut i: usize = 0;
    while i < n {
        let at = 16 * i;
        let q = record::relation_in(&slots[at..at + 16]);
        if good_relation_record(&slots[at..at + 16], q) {
            if comes_after(i, last, q) {
                last = q;
                i += 1;
            } else {
                return false;
            }
        } else {
            return false;
        }
    }
    true
}

// The records of a row of slots, and zeros behind them.
fn good_visits(slots: &[u8], n: usize, network: &Network, s: Station, good: bool) -> bool
    requires { (16 * n ≤ length slots.now) × (good ≡ true → network_refusal network.now ≡ 0) }
    ensures { result ≡ visits_pass network.now s n slots.now }
{
    if visit_run(slots, n, network, s, good) {
        let at = 16 * n;
        return bytes::is_blank(&slots[at..]);
    }
    false
}

fn good_relations(slots: &[u8], n: usize) -> bool
    requires { 16 * n ≤ length slots.now }
    ensures { result ≡ relations_pass n slots.now }
{
    if relation_run(slots, n) {
        let at = 16 * n;
        return bytes::is_blank(&slots[at..]);
    }
    false
}

// A station's page, where it may be known that the network is good.
fn page_under(page: &[u8], network: &Network, s: Station, good: bool) -> bool
    requires { good ≡ true → network_refusal network.now ≡ 0 }
    ensures { result ≡ good_page network.now s page.now }
{
    if page.len() != 512 {
        return false;
    }
    let n = bytes::size(page[0]);
    let m = bytes::size(page[1]);
    if 24 < n {
        return false;
    }
    if 6 < m {
        return false;
    }
    if bytes::is_blank(&page[2..32]) {
        if good_visits(&page[32..416], n, network, s, good) {
            return good_relations(&page[416..512], m);
        }
    }
    false
}

pub fn good_page(page: &[u8], network: &Network, s: Station) -> bool
    ensures { result ≡ good_page network.now s page.now }
{
    page_under(page, network, s, network.check().is_ok())
}

// The stations that a sheet is over: all that are listed, or those of an area.
#[derive(Clone, Copy, Debug, PartialEq, Eq, Hash)]
pub enum Extent {
    Whole,
    Of(Area),
}

fn is_over(network: &Network, extent: Extent, k: Station) -> bool
    ensures { result ≡ covers network.now extent k }
{
    match extent {
        Extent::Whole => network.listed(k),
        Extent::Of(a) => {
            if network.listed(k) {
                return a.0 == network.group_of(k);
            }
            false
        }
    }
}

// The page of a station of the sheet is good, any other is zeros.
fn good_place(page: &[u8], network: &Network, extent: Extent, k: Station, good: bool) -> bool
    requires { good ≡ true → network_refusal network.now ≡ 0 }
    ensures { result ≡ place_passes network.now extent k page.now }
{
    if is_over(network, extent, k) {
        return page_under(page, network, k, good);
    }
    bytes::is_blank(page)
}

// A sheet over those stations.
fn sheet_under(sheet: &[u8], network: &Network, extent: Extent, good: bool) -> bool
    requires { good ≡ true → network_refusal network.now ≡ 0 }
    ensures { result ≡ sheet_passes network.now extent sheet.now }
{
    if sheet.len() != 8192 {
        return false;
    }
    let mut i: usize = 0;
    let mut k: u8 = 1;
    while i < 16 {
        let at = 512 * i;
        if good_place(&sheet[at..at + 512], network, extent, Station(k), good) {
            i += 1;
            k += 1;
        } else {
            return false;
        }
    }
    true
}

pub fn good_sheet(sheet: &[u8], network: &Network, extent: Extent) -> bool
    ensures { result ≡ sheet_passes network.now extent sheet.now }
{
    sheet_under(sheet, network, extent, network.check().is_ok())
}

// What refuses a sheet under a network, which is asked once: 3 and 4 of the network, then 6.
pub fn sheet_refusal(sheet: &[u8], network: &Network, extent: Extent) -> Result<(), Refusal>
    ensures { refusal_number result ≡ or_else (network_refusal network.now) (6 if not (sheet_passes network.now extent sheet.now) else 0) }
{
    network.check()?;
    if !sheet_under(sheet, network, extent, true) {
        return Err(Refusal::BadSheet);
    }
    Ok(())
}

pub fn good_division(division: &[u8], network: &Network) -> bool
    ensures { result ≡ division_passes network.now division.now }
{
    if division.len() != 49152 {
        return false;
    }
    let good = network.check().is_ok();
    let mut i: usize = 0;
    let mut a: u8 = 1;
    while i < 6 {
        let at = 8192 * i;
        if sheet_under(&division[at..at + 8192], network, Extent::Of(Area(a)), good) {
            i += 1;
            a += 1;
        } else {
            return false;
        }
    }
    true
}
