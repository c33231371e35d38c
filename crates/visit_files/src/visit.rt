// A visit entry of a timetable file: "s, t, track, arrival, status, departure, status, in-link, out-link (fields as
// listed, or a single 0 for none)"; a stop mark "after its track", where the form has it.
ghost use Rattle.std.specs.Prelude.{◌≡◌, [], ◌∷◌, ◌≤◌};
ghost use Rattle.timetable.specs.Formats.{read};
ghost use Rattle.timetable.specs.TimetableFile.{in_link_entry, out_link_entry, visit_entry};
ghost use Rattle.fields.specs.between.Answers.{outcome};
ghost use Rattle.visit_files.specs.between.Answers.{visit_values, visit_outcome};

use base::refusal::FileError;
use fields::field::{field, narrow};
use fields::floor::{compared, floor_after};
use railway::minute::Minute;
use railway::sorts::{Line, Station, Track, Train};
use railway::visit::{InLink, Inward, OutLink, Outward, Visit};
use timetable::FileForm;

/// A visit with its station and train.
#[derive(Clone, Copy, Debug, PartialEq, Eq, Hash)]
pub struct VisitEntry {
    pub station: Station,
    pub train: Train,
    pub visit: Visit,
}

fn in_link(file: &[u8], at: usize) -> Result<(InLink, usize), FileError>
    ensures { outcome result ≡ read in_link_entry file.now at }
{
    let (station, next) = field(file, at, 0, 16)?;
    if station == 0 {
        return Ok((InLink::Nothing, next));
    }
    let (line, end) = field(file, next, 1, 32)?;
    let link = Inward {
        station: Station(narrow(station)),
        line: Line(narrow(line)),
    };
    Ok((InLink::From(link), end))
}

fn out_link(file: &[u8], at: usize) -> Result<(OutLink, usize), FileError>
    ensures { outcome result ≡ read out_link_entry file.now at }
{
    let (station, next) = field(file, at, 0, 16)?;
    if station == 0 {
        return Ok((OutLink::Nothing, next));
    }
    let (line, behind) = field(file, next, 1, 32)?;
    let (run, end) = field(file, behind, 1, 240)?;
    let link = Outward {
        station: Station(narrow(station)),
        line: Line(narrow(line)),
        run: narrow(run),
    };
    Ok((OutLink::To(link), end))
}

// Behind the station and the train: "track, arrival, status, departure, status", the mark after the track where the
// form has it.
#[tactic(auto, using(fields::proofs::ReadLaws::read_then), unfolding(crate::specs::between::Answers::opened, timetable::specs::FileForms::opened, timetable::specs::Formats::opened, timetable::specs::TimetableFile::station_visit_of))]
fn visit_values(
    file: &[u8],
    at: usize,
    form: FileForm,
    s: u16,
    t: u16,
) -> Result<(VisitEntry, usize), FileError>
    ensures { s ≤ 16 → visit_outcome result ≡ read (visit_values form s t) file.now at }
{
    let (track, next) = field(file, at, 1, 8)?;
    let (mark, next) = match form {
        FileForm::Earlier => (0, next),
        FileForm::Newest => field(file, next, 0, 1)?,
    };
    let (arrival, next) = field(file, next, 0, Minute::LAST)?;
    let (arrived, next) = field(file, next, 0, 1)?;
    let (departure, next) = field(file, next, 0, Minute::LAST)?;
    let (departed, next) = field(file, next, 0, 1)?;
    let (inward, next) = in_link(file, next)?;
    let (outward, next) = out_link(file, next)?;
    let visit = Visit {
        track: Track(narrow(track)),
        marked: mark == 1,
        arrival: Minute(arrival),
        arrived: arrived == 1,
        departure: Minute(departure),
        departed: departed == 1,
        inward,
        outward,
    };
    let entry = VisitEntry {
        station: Station(narrow(s)),
        train: Train(t),
        visit,
    };
    Ok((entry, next))
}

/// The visit entry at a place, behind the station and the train of the entry before; both 0 are below every entry. The
/// place behind it comes along.
pub fn visit_entry(
    file: &[u8],
    at: usize,
    form: FileForm,
    station: Station,
    train: Train,
) -> Result<(VisitEntry, usize), FileError>
    ensures { visit_outcome result ≡ read (visit_entry form (station.0 ∷ train.0 ∷ [])) file.now at }
{
    // "rising by s and t alone"
    let floor = [u16::from(station.0), train.0];
    let (s, next) = compared(file, at, 1, 16, &floor)?;
    let (t, next) = compared(file, next, 1, 9999, floor_after(&floor, s))?;
    visit_values(file, next, form, s, t)
}
