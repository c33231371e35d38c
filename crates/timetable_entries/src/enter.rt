// An entry put into a sheet: "A timetable file is then tested for 7 and 12, entry by entry." The first refused entry is
// remembered, and later ones change nothing.
ghost use Rattle.std.specs.Prelude.{◌≡◌, ◌&&◌, T, length};
ghost use Rattle.base.specs.RefusalNumbers.{refusal_number};
ghost use Rattle.railway.specs.Ranges.{station_ok};
ghost use Rattle.network.specs.Networks.{track_known};
ghost use Rattle.timetable.specs.Good.{links_good};
ghost use Rattle.page.specs.between.Changes.{table_in};
ghost use Rattle.timetable_entries.specs.Answers.{fault_told};
ghost use Rattle.timetable_entries.specs.between.Entering.{visit_refused, relation_refused, page_with_relation, visit_step, relation_step};

use base::refusal::{FileError, Refusal};
use network::Network;
use railway::edit::StationRelation;
use railway::relation::Relation;
use railway::sorts::Station;
use railway::visit::Visit;
use sheet::test;
use visit_files::visit::VisitEntry;

// Track and lines are known, and the lines run that way.
#[tactic(auto, using(sheet::proofs::PassLaws::links_pass))]
fn visit_known(v: Visit, n: &Network, s: Station) -> bool
    ensures { result ≡ (track_known n.now s v.track && links_good n.now s v) }
{
    n.track_known(s, v.track) && test::in_good(v.inward, n, s) && test::out_good(v.outward, n, s)
}

// 7 or 12.
fn visit_refusal(part: &[u8], n: &Network, s: Station, v: Visit) -> Result<(), Refusal>
    ensures { refusal_number result ≡ visit_refused n.now s v (table_in part.now) }
{
    if !visit_known(v, n, s) {
        return Err(Refusal::NotKnown);
    }
    if page::visit_count(part) < 24 {
        return Ok(());
    }
    Err(Refusal::LimitReached)
}

fn relation_refusal(part: &[u8], n: &Network, s: Station) -> Result<(), Refusal>
    ensures { refusal_number result ≡ relation_refused n.now s (table_in part.now) }
{
    if !n.listed(s) {
        return Err(Refusal::NotKnown);
    }
    if page::relation_count(part) < 6 {
        return Ok(());
    }
    Err(Refusal::LimitReached)
}

// A relation put in its place; one that is there already stays one.
fn put_relation(part: &mut [u8], q: Relation)
    ensures { part.new ≡ page_with_relation q part.old }
{
    if !page::has_relation(part, q) {
        page::add_relation(part, q);
    }
}

// A visit, whose entry starts at a place of the file, put in. Answers the first refused entry.
pub(crate) fn enter_visit(
    sheet: &mut [u8],
    n: &Network,
    entry: VisitEntry,
    place: usize,
    fault: Option<FileError>,
) -> Option<FileError>
    requires { (length sheet.old ≡ 8192) × T (station_ok entry.station) }
    ensures { record { sheet = sheet.new; fault = fault_told result } ≡ visit_step n.now (record { place = place; entry = record { station = entry.station; train = entry.train; visit = entry.visit } }) (record { sheet = sheet.old; fault = fault_told fault }) }
{
    if fault.is_some() {
        return fault;
    }
    let at = 512 * (usize::from(entry.station.0) - 1);
    let end = at + 512;
    match visit_refusal(&sheet[at..end], n, entry.station, entry.visit) {
        Err(refusal) => Some(FileError { refusal, place }),
        Ok(()) => {
            page::add_visit(&mut sheet[at..end], entry.train, entry.visit);
            None
        }
    }
}

pub(crate) fn enter_relation(
    sheet: &mut [u8],
    n: &Network,
    x: StationRelation,
    place: usize,
    fault: Option<FileError>,
) -> Option<FileError>
    requires { (length sheet.old ≡ 8192) × T (station_ok x.station) }
    ensures { record { sheet = sheet.new; fault = fault_told result } ≡ relation_step n.now (record { place = place; entry = x }) (record { sheet = sheet.old; fault = fault_told fault }) }
{
    if fault.is_some() {
        return fault;
    }
    let at = 512 * (usize::from(x.station.0) - 1);
    let end = at + 512;
    match relation_refusal(&sheet[at..end], n, x.station) {
        Err(refusal) => Some(FileError { refusal, place }),
        Ok(()) => {
            put_relation(&mut sheet[at..end], x.relation);
            None
        }
    }
}
