// One edit of a file: "kind and fields", in the form that is named.
ghost use Rattle.std.specs.Prelude.{◌≡◌};
ghost use Rattle.timetable.specs.Formats.{read};
ghost use Rattle.timetable.specs.EditsFile.{edit_fields, edit_entry};
ghost use Rattle.fields.specs.between.Answers.{outcome};
ghost use Rattle.edit_files.specs.Answers.{next_outcome};
ghost use Rattle.edit_files.specs.Entries.{plan_entry, extension_entry, deletion_entry, report_entry};

use base::refusal::FileError;
use fields::field::{field, narrow};
use railway::edit::{Cancellation, Deletion, Edit, Extension, Plan, Report};
use railway::minute::Minute;
use railway::sorts::{Line, Station, Track, Train};
use relation_files::reading::relation_entry;
use timetable::FileForm;

/// A place in a file of edits.
#[derive(Clone, Copy, Debug, PartialEq, Eq, Hash)]
pub struct Cursor {
    pub at: usize,
}

// "(s, t, track, arrival, departure)", the mark after the track where the form has it.
#[tactic(auto, unfolding(crate::specs::Entries::opened, timetable::specs::EditsFile::opened, timetable::specs::FileForms::opened, timetable::specs::Formats::opened))]
fn plan(file: &[u8], at: usize, form: FileForm) -> Result<(Plan, usize), FileError>
    ensures { outcome result ≡ read (plan_entry form) file.now at }
{
    let (station, next) = field(file, at, 1, 16)?;
    let (train, next) = field(file, next, 1, 9999)?;
    let (track, next) = field(file, next, 1, 8)?;
    let (mark, next) = match form {
        FileForm::Earlier => (0, next),
        FileForm::Newest => field(file, next, 0, 1)?,
    };
    let (arrival, next) = field(file, next, 0, Minute::LAST)?;
    let (departure, next) = field(file, next, 0, Minute::LAST)?;
    let plan = Plan {
        station: Station(narrow(station)),
        train: Train(train),
        track: Track(narrow(track)),
        marked: mark == 1,
        arrival: Minute(arrival),
        departure: Minute(departure),
    };
    Ok((plan, next))
}

// "(as 1, then p, line, running time)"
#[tactic(auto, using(fields::proofs::ReadLaws::read_then, fields::proofs::EntryLaws::field_bounded, crate::proofs::EditLaws::plan_first), unfolding(timetable::specs::Formats::read, timetable::specs::Formats::behind))]
fn extension(file: &[u8], at: usize, form: FileForm) -> Result<(Extension, usize), FileError>
    ensures { outcome result ≡ read (extension_entry form) file.now at }
{
    let (plan, next) = plan(file, at, form)?;
    let (other, next) = field(file, next, 1, 16)?;
    let (line, next) = field(file, next, 1, 32)?;
    let (run, next) = field(file, next, 1, 240)?;
    let extension = Extension {
        plan,
        other: Station(narrow(other)),
        line: Line(narrow(line)),
        run: narrow(run),
    };
    Ok((extension, next))
}

// "(s, t, p)"
#[tactic(auto, unfolding(crate::specs::Entries::opened, timetable::specs::EditsFile::opened, timetable::specs::FileForms::opened, timetable::specs::Formats::opened))]
fn deletion(file: &[u8], at: usize) -> Result<(Deletion, usize), FileError>
    ensures { outcome result ≡ read deletion_entry file.now at }
{
    let (station, next) = field(file, at, 1, 16)?;
    let (train, next) = field(file, next, 1, 9999)?;
    let (other, next) = field(file, next, 1, 16)?;
    let deletion = Deletion {
        station: Station(narrow(station)),
        train: Train(train),
        other: Station(narrow(other)),
    };
    Ok((deletion, next))
}

// "(s, t, time)", the present minute last where the form has it, and the last minute where it has none.
#[tactic(auto, unfolding(crate::specs::Entries::opened, timetable::specs::EditsFile::opened, timetable::specs::FileForms::opened, timetable::specs::Formats::opened))]
fn report(file: &[u8], at: usize, form: FileForm) -> Result<(Report, usize), FileError>
    ensures { outcome result ≡ read (report_entry form) file.now at }
{
    let (station, next) = field(file, at, 1, 16)?;
    let (train, next) = field(file, next, 1, 9999)?;
    let (time, next) = field(file, next, 0, Minute::LAST)?;
    let (present, next) = match form {
        FileForm::Earlier => (Minute::LAST, next),
        FileForm::Newest => field(file, next, 0, Minute::LAST)?,
    };
    let report = Report {
        station: Station(narrow(station)),
        train: Train(train),
        time: Minute(time),
        present: Minute(present),
    };
    Ok((report, next))
}

// The kinds stay numbers: `edit_fields` of specs says each number's fields, and what is none of the first ten deletes a
// train.
#[tactic(auto, using(crate::proofs::EditLaws::kinds), unfolding(timetable::specs::Formats::behind))]
fn edit_of_kind(
    file: &[u8],
    at: usize,
    form: FileForm,
    kind: u16,
) -> Result<(Edit, usize), FileError>
    ensures { outcome result ≡ read (edit_fields form kind) file.now at }
{
    match kind {
        1 => {
            let (plan, next) = plan(file, at, form)?;
            Ok((Edit::Place(plan), next))
        }
        2 => {
            let (extension, next) = extension(file, at, form)?;
            Ok((Edit::Prepend(extension), next))
        }
        3 => {
            let (extension, next) = extension(file, at, form)?;
            Ok((Edit::Append(extension), next))
        }
        4 => {
            let (deletion, next) = deletion(file, at)?;
            Ok((Edit::DeleteFirst(deletion), next))
        }
        5 => {
            let (deletion, next) = deletion(file, at)?;
            Ok((Edit::DeleteLast(deletion), next))
        }
        6 => {
            let (plan, next) = plan(file, at, form)?;
            Ok((Edit::Amend(plan), next))
        }
        7 => {
            let (report, next) = report(file, at, form)?;
            Ok((Edit::ReportArrival(report), next))
        }
        8 => {
            let (report, next) = report(file, at, form)?;
            Ok((Edit::ReportDeparture(report), next))
        }
        9 => {
            let (relation, next) = relation_entry(file, at, &[])?;
            Ok((Edit::AddRelation(relation), next))
        }
        10 => {
            let (relation, next) = relation_entry(file, at, &[])?;
            Ok((Edit::RemoveRelation(relation), next))
        }
        _ => {
            let (train, next) = field(file, at, 1, 9999)?;
            let cancellation = Cancellation {
                train: Train(train),
            };
            Ok((Edit::DeleteTrain(cancellation), next))
        }
    }
}

/// The edit at a place, and the place behind it.
#[tactic(auto, unfolding(timetable::specs::EditsFile::edit_entry, timetable::specs::Formats::behind, timetable::specs::Formats::read))]
pub fn read_edit(file: &[u8], at: usize, form: FileForm) -> Result<(Edit, usize), FileError>
    ensures { outcome result ≡ read (edit_entry form) file.now at }
{
    let (kind, next) = field(file, at, 1, 11)?;
    edit_of_kind(file, next, form, kind)
}

/// The edit at a cursor, tested by itself, and the cursor behind it.
pub fn next_edit(file: &[u8], c: Cursor, form: FileForm) -> Result<(Edit, Cursor), FileError>
    ensures { next_outcome result ≡ read (edit_entry form) file.now c.at }
{
    let (edit, at) = read_edit(file, c.at, form)?;
    Ok((edit, Cursor { at }))
}
