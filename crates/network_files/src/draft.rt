// A network as it stands at the head of a file. Its lines are looked at for 4 on the way, but any faulty number of the
// file comes before that.
ghost use Rattle.std.specs.Prelude.{◌≡◌, [], ◌∷◌, ◌≤◌};
ghost use Rattle.network.specs.Networks.{blank_station, blank_line, ends_listed};
ghost use Rattle.timetable.specs.Formats.{read};
ghost use Rattle.timetable.specs.NetworkFile.{station_entry, stations_format, line_fields, lines_format, network_format_as, network_format, blank_network};
ghost use Rattle.fields.specs.between.Answers.{outcome};
ghost use Rattle.network_files.specs.between.Rows.{line_with};
ghost use Rattle.network_files.specs.Answers.{Tells, StationsOf, LinesOf, DraftOf};

use crate::closures::{closures, empty_closure};
use crate::faults::next_fault;
use base::refusal::{FileError, Refusal};
use fields::field::{Span, field, narrow, row};
use network::{LineRow, Network, StationRow};
use railway::sorts::{Area, Line, Station};
use timetable::NetworkForm;

// The rows, and the first that is not joined by the known stations.
#[derive(Clone, Copy, Debug, PartialEq, Eq, Hash)]
pub struct LineRows {
    pub rows: [LineRow; 32],
    pub fault: Option<FileError>,
}

/// The network, and the first fault that only the whole of it shows.
#[derive(Clone, Copy, Debug, PartialEq, Eq, Hash)]
pub struct Draft {
    pub network: Network,
    pub fault: Option<FileError>,
}

// Rows that are not used.
pub fn empty_station() -> StationRow
    ensures { result ≡ blank_station }
{
    StationRow {
        station: Station(0),
        area: Area(0),
        tracks: 0,
    }
}

pub fn empty_line() -> LineRow
    ensures { result ≡ blank_line }
{
    LineRow {
        line: Line(0),
        first: Station(0),
        second: Station(0),
        kind: 0,
        passenger: 0,
        freight: 0,
        capacity: 0,
    }
}

// A network that lists nothing.
pub fn blank_network() -> Network
    ensures { result ≡ blank_network }
{
    Network {
        stationcount: 0,
        stations: [empty_station(); 16],
        headway: 0,
        linecount: 0,
        lines: [empty_line(); 32],
        closurecount: 0,
        closures: [empty_closure(); 32],
    }
}

// "(number, area, count of tracks 1..8)", the number above the one before.
fn station_row(file: &[u8], at: usize, before: u8) -> Result<(StationRow, usize), FileError>
    ensures { outcome result ≡ read (station_entry (before ∷ [])) file.now at }
{
    let number = Span {
        lo: u32::from(before) + 1,
        hi: 16,
    };
    let area = Span { lo: 1, hi: 6 };
    let tracks = Span { lo: 1, hi: 8 };
    let ([station, area, tracks], place) = row::<3>(file, at, &[number, area, tracks])?;
    let row = StationRow {
        station: Station(narrow(station)),
        area: Area(narrow(area)),
        tracks: narrow(tracks),
    };
    Ok((row, place))
}

// Rows of one kind; lines and closures have loops of their own, as one for all would have to hand out each row's place
// for the faults that they show, and go over the rows again.
fn stations(file: &[u8], at: usize, count: u16) -> Result<([StationRow; 16], usize), FileError>
    requires { count ≤ 16 }
    ensures { Tells StationsOf result (read (stations_format count) file.now at) }
{
    let mut rows = [empty_station(); 16];
    let mut place = at;
    let mut before = 0;
    for i in 0..usize::from(count) {
        let (row, next) = station_row(file, place, before)?;
        rows[i] = row;
        before = row.station.0;
        place = next;
    }
    Ok((rows, place))
}

// A line of these numbers as bytes.
fn line_from(v: [u16; 7]) -> LineRow
    ensures { result ≡ line_with v }
{
    LineRow {
        line: Line(narrow(v[0])),
        first: Station(narrow(v[1])),
        second: Station(narrow(v[2])),
        kind: narrow(v[3]),
        passenger: narrow(v[4]),
        freight: narrow(v[5]),
        capacity: narrow(v[6]),
    }
}

// "(number, first station, second station, kind, least running time, capacity 1..9)", the number above the one before;
// W3: two least times, where the form has them: "giving both times the old number".
fn line_row(
    file: &[u8],
    at: usize,
    form: NetworkForm,
    before: u8,
) -> Result<(LineRow, usize), FileError>
    ensures { outcome result ≡ read (line_fields form (before ∷ [])) file.now at }
{
    let number = Span {
        lo: u32::from(before) + 1,
        hi: 32,
    };
    let end = Span { lo: 1, hi: 16 };
    let kind = Span { lo: 1, hi: 3 };
    let least = Span { lo: 1, hi: 240 };
    let capacity = Span { lo: 1, hi: 9 };
    match form {
        NetworkForm::OneTime => {
            let spans = [number, end, end, kind, least, capacity];
            let ([l, a, b, k, time, c], place) = row::<6>(file, at, &spans)?;
            Ok((line_from([l, a, b, k, time, time, c]), place))
        }
        NetworkForm::TwoTimes => {
            let spans = [number, end, end, kind, least, least, capacity];
            let (numbers, place) = row(file, at, &spans)?;
            Ok((line_from(numbers), place))
        }
    }
}

// "4 a line's ends aren't two different listed stations"
#[tactic(auto, unfolding(network::specs::Networks::ends_listed))]
fn is_joined(known: &Network, row: LineRow) -> bool
    ensures { result ≡ ends_listed known.now row }
{
    known.listed(row.first) && known.listed(row.second) && row.first != row.second
}

// The lines, with the fault that the known stations show.
fn lines(
    file: &[u8],
    at: usize,
    form: NetworkForm,
    count: u16,
    known: &Network,
) -> Result<(LineRows, usize), FileError>
    requires { count ≤ 32 }
    ensures { Tells (LinesOf known.now) result (read (lines_format form count) file.now at) }
{
    let mut rows = [empty_line(); 32];
    let mut fault = None;
    let mut place = at;
    let mut before = 0;
    for i in 0..usize::from(count) {
        let (row, next) = line_row(file, place, form, before)?;
        rows[i] = row;
        fault = next_fault(Refusal::NotJoined, is_joined(known, row), place, fault);
        before = row.line.0;
        place = next;
    }
    Ok((LineRows { rows, fault }, place))
}

/// The network at the head of a file of this form, and the place behind it.
pub fn read_draft_as(file: &[u8], form: NetworkForm) -> Result<(Draft, usize), FileError>
    ensures { Tells DraftOf result (read (network_format_as form) file.now 0) }
{
    let mut network = blank_network();
    let (count, place) = field(file, 0, 1, 16)?;
    let (rows, place) = stations(file, place, count)?;
    network.stationcount = narrow(count);
    network.stations = rows;
    let (headway, place) = field(file, place, 1, 30)?;
    network.headway = narrow(headway);
    let (count, place) = field(file, place, 0, 32)?;
    let (lines, place) = lines(file, place, form, count, &network)?;
    network.linecount = narrow(count);
    let rows = lines.rows;
    network.lines = rows;
    let (count, place) = field(file, place, 0, 32)?;
    let (closures, place) = closures(file, place, count, &network)?;
    network.closurecount = narrow(count);
    let rows = closures.rows;
    network.closures = rows;
    let fault = closures.unended.or(lines.fault).or(closures.unlisted);
    Ok((Draft { network, fault }, place))
}

/// The same in the newest form.
#[tactic(auto, unfolding(timetable::specs::NetworkFile::network_format))]
pub fn read_draft(file: &[u8]) -> Result<(Draft, usize), FileError>
    ensures { Tells DraftOf result (read network_format file.now 0) }
{
    read_draft_as(file, NetworkForm::TwoTimes)
}
