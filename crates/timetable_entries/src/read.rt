// The entries of a timetable file, read one after the other and put into a sheet on the way. A faulty number anywhere
// in the file comes before 7 and 12, so the first refused entry waits for the end.
ghost use Rattle.std.specs.Prelude.{◌≡◌, ◌≤◌, length, OnOk};
ghost use Rattle.timetable.specs.Formats.{read};
ghost use Rattle.timetable.specs.TimetableFile.{visits_format, relations_format, timetable_format};
ghost use Rattle.timetable_entries.specs.Answers.{fault_told};
ghost use Rattle.timetable_entries.specs.between.Entering.{no_fault, entries_told, visit_step, relation_step, entries_read, entries_sheet};
ghost use Rattle.timetable_entries.specs.between.Entering.{visit_part, relation_part, timetable_entries, timetable_sheet};

use crate::enter;
use base::refusal::FileError;
use fields::field::field;
use fields::put::Numbers;
use network::Network;
use railway::sorts::{Station, Train};
use relation_files::{reading, row};
use timetable::FileForm;
use visit_files::visit;

// Each function answers the first refused entry, if any, and the place behind the entries that it reads.

fn visits(
    file: &[u8],
    at: usize,
    form: FileForm,
    count: usize,
    n: &Network,
    sheet: &mut [u8],
) -> Result<(Option<FileError>, usize), FileError>
    requires { (length sheet.old ≡ 8192) × (count ≤ 384) }
    ensures read { entries_told result ≡ entries_read (visit_step n.now) (record { sheet = sheet.old; fault = no_fault }) (read (visits_format form count) file.now at) }
    ensures ok { OnOk result (sheet.new ≡ entries_sheet (visit_step n.now) (record { sheet = sheet.old; fault = no_fault }) (read (visits_format form count) file.now at)) }
{
    let mut place = at;
    let mut station = Station(0);
    let mut train = Train(0);
    let mut first = None;
    for _ in 0..count {
        let (entry, next) = visit::visit_entry(file, place, form, station, train)?;
        first = enter::enter_visit(sheet, n, entry, place, first);
        station = entry.station;
        train = entry.train;
        place = next;
    }
    Ok((first, place))
}

// The relations behind visits whose first refused one this is.
fn relations(
    file: &[u8],
    at: usize,
    count: usize,
    n: &Network,
    sheet: &mut [u8],
    fault: Option<FileError>,
) -> Result<(Option<FileError>, usize), FileError>
    requires { (length sheet.old ≡ 8192) × (count ≤ 384) }
    ensures read { entries_told result ≡ entries_read (relation_step n.now) (record { sheet = sheet.old; fault = fault_told fault }) (read (relations_format count) file.now at) }
    ensures ok { OnOk result (sheet.new ≡ entries_sheet (relation_step n.now) (record { sheet = sheet.old; fault = fault_told fault }) (read (relations_format count) file.now at)) }
{
    let mut place = at;
    let mut floor = Numbers::new(&[]);
    let mut first = fault;
    for _ in 0..count {
        let (entry, next) = reading::relation_entry(file, place, floor.in_use())?;
        first = enter::enter_relation(sheet, n, entry, place, first);
        floor = row::relation_numbers(entry);
        place = next;
    }
    Ok((first, place))
}

// "count of visits (0..384)", and the visits.
fn visit_part(
    file: &[u8],
    at: usize,
    form: FileForm,
    n: &Network,
    sheet: &mut [u8],
) -> Result<(Option<FileError>, usize), FileError>
    requires { length sheet.old ≡ 8192 }
    ensures read { entries_told result ≡ entries_read (visit_step n.now) (record { sheet = sheet.old; fault = no_fault }) (read (visit_part form) file.now at) }
    ensures ok { OnOk result (sheet.new ≡ entries_sheet (visit_step n.now) (record { sheet = sheet.old; fault = no_fault }) (read (visit_part form) file.now at)) }
{
    let (count, next) = field(file, at, 0, 384)?;
    visits(file, next, form, usize::from(count), n, sheet)
}

// "count of relations (0..96)", and the relations.
fn relation_part(
    file: &[u8],
    at: usize,
    n: &Network,
    sheet: &mut [u8],
    fault: Option<FileError>,
) -> Result<(Option<FileError>, usize), FileError>
    requires { length sheet.old ≡ 8192 }
    ensures read { entries_told result ≡ entries_read (relation_step n.now) (record { sheet = sheet.old; fault = fault_told fault }) (read relation_part file.now at) }
    ensures ok { OnOk result (sheet.new ≡ entries_sheet (relation_step n.now) (record { sheet = sheet.old; fault = fault_told fault }) (read relation_part file.now at)) }
{
    let (count, next) = field(file, at, 0, 96)?;
    relations(file, next, usize::from(count), n, sheet, fault)
}

// All entries from a place of the file on, put into the sheet.
pub(crate) fn entries(
    file: &[u8],
    at: usize,
    form: FileForm,
    n: &Network,
    sheet: &mut [u8],
) -> Result<(Option<FileError>, usize), FileError>
    requires { length sheet.old ≡ 8192 }
    ensures read { entries_told result ≡ timetable_entries n.now (record { sheet = sheet.old; fault = no_fault }) (read (timetable_format form) file.now at) }
    ensures ok { OnOk result (sheet.new ≡ timetable_sheet n.now (record { sheet = sheet.old; fault = no_fault }) (read (timetable_format form) file.now at)) }
{
    let (fault, next) = visit_part(file, at, form, n, sheet)?;
    relation_part(file, next, n, sheet, fault)
}
