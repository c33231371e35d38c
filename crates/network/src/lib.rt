// A network by value: rows of stations and lines with their counts. Rows past the count are not read.
#![tactic(auto, unfolding(crate::specs::Networks::opened, base::specs::Lists::every, base::specs::Lists::first))]

ghost use Rattle.std.specs.Prelude.{◌≡◌, true, ◌&&◌, min, Bool, ℕ, ◌<◌, map};
ghost use Rattle.base.specs.Lists.{every, rising};
ghost use Rattle.base.specs.RefusalNumbers.{refusal_number};
ghost use Rattle.network.specs.Positive.{station_positive, line_positive, closure_positive};
ghost use Rattle.network.specs.Networks.{station_row_ok, line_row_ok, way_open, row_runs, least_time, area_in, station_row, line_row};
ghost use Rattle.network.specs.Networks.{listed, area_of, track_known, runs, station_rows, line_rows, closure_rows, lines_in_range, network_in_range, ends_listed, lines_joined, network_refusal};
ghost use Rattle.network.specs.Networks.{closure_ok, closure_number, closures_in_range, ends_after, closures_end, line_listed, closures_listed};

use base::refusal::Refusal;
use railway::minute::{Minute, WindowEnd};
use railway::sorts::{Area, Line, Station, Track, Train};
use railway::visit::run_valid;

// "(number, area, count of tracks 1..8)"
#[derive(Clone, Copy, Debug, PartialEq, Eq, Hash)]
pub struct StationRow {
    pub station: Station,
    pub area: Area,
    pub tracks: u8,
}

// "(number, first station, second station, kind, least running time, capacity 1..9)"; W3: "Each line gets two, passenger
// first"
#[derive(Clone, Copy, Debug, PartialEq, Eq, Hash)]
pub struct LineRow {
    pub line: Line,
    pub first: Station,
    pub second: Station,
    pub kind: u8,
    pub passenger: u8,
    pub freight: u8,
    pub capacity: u8,
}

// A line shut both ways "from a first minute up to but not including an end".
#[derive(Clone, Copy, Debug, PartialEq, Eq, Hash)]
pub struct Closure {
    pub line: Line,
    pub start: Minute,
    pub end: WindowEnd,
}

#[derive(Clone, Copy, Debug, PartialEq, Eq, Hash)]
pub struct Network {
    pub stationcount: u8,
    pub stations: [StationRow; 16],
    pub headway: u8,
    pub linecount: u8,
    pub lines: [LineRow; 32],
    pub closurecount: u8,
    pub closures: [Closure; 32],
}

impl StationRow {
    pub fn valid(self) -> bool
        ensures { result ≡ station_row_ok self }
    {
        self.station.valid() && self.area.valid() && base::is_within(1, 8, u16::from(self.tracks))
    }
}

impl LineRow {
    pub fn valid(self) -> bool
        ensures { result ≡ line_row_ok self }
    {
        let ends = self.line.valid() && self.first.valid() && self.second.valid();
        let kind = base::is_within(1, 3, u16::from(self.kind));
        let least = run_valid(self.passenger) && run_valid(self.freight);
        ends && kind && least && base::is_within(1, 9, u16::from(self.capacity))
    }

    // "Kind 1 runs first to second, 2 second to first, 3 either way."
    pub fn runs(self, from: Station, to: Station) -> bool
        ensures { result ≡ row_runs self from to }
    {
        runs_on(self.kind, 2, self.first, from, self.second, to)
            || runs_on(self.kind, 1, self.second, from, self.first, to)
    }

    // "The least time is then that of a line and a train"
    pub fn least_time(self, train: Train) -> u8
        ensures { result ≡ least_time self train }
    {
        if train.is_freight() {
            return self.freight;
        }
        self.passenger
    }
}

impl Closure {
    pub fn valid(self) -> bool
        ensures { result ≡ closure_ok self }
    {
        self.line.valid() && self.start.valid() && self.end.valid()
    }

    // Closures rise by line and start: a start is below 2880, so the two are one number.
    pub fn number(self) -> u32
        ensures { result ≡ closure_number self }
    {
        2880 * u32::from(self.line.0) + u32::from(self.start.0)
    }

    // The end is after the start.
    pub fn ends_after(self) -> bool
        ensures { result ≡ ends_after self }
    {
        self.start.0 < self.end.0
    }
}

// A row of a table whose rows rise by their number.
trait Row {
    ghost in_range: { Self → Bool };

    ghost number_of: { Self → ℕ };

    fn is_valid(&self) -> bool
        ensures { result ≡ in_range self.now };

    fn key(&self) -> u32
        ensures { result ≡ number_of self.now };

    ghost positive: { (row : Self) → in_range row ≡ true → 0 < number_of row };
}

impl Row for StationRow {
    ghost in_range = { station_row_ok };

    ghost number_of = { λ r. r.station.0 };

    ghost positive = { station_positive };

    fn is_valid(&self) -> bool {
        self.valid()
    }

    fn key(&self) -> u32 {
        u32::from(self.station.0)
    }
}

impl Row for LineRow {
    ghost in_range = { line_row_ok };

    ghost number_of = { λ r. r.line.0 };

    ghost positive = { line_positive };

    fn is_valid(&self) -> bool {
        self.valid()
    }

    fn key(&self) -> u32 {
        u32::from(self.line.0)
    }
}

impl Row for Closure {
    ghost in_range = { closure_ok };

    ghost number_of = { closure_number };

    ghost positive = { closure_positive };

    fn is_valid(&self) -> bool {
        self.valid()
    }

    fn key(&self) -> u32 {
        self.number()
    }
}

// Each row is in range, and its number is above the one before it.
fn rise<R: Row>(rows: &[R]) -> bool
    ensures { result ≡ (every R.in_range rows.now && rising (map R.number_of rows.now)) }
{
    let mut last = 0;
    for row in rows {
        if !row.is_valid() {
            return false;
        }
        let number = row.key();
        if number <= last {
            return false;
        }
        last = number;
    }
    true
}

// The kind is not the other way's, and the two ends are those asked for.
fn runs_on(kind: u8, other: u8, a: Station, from: Station, b: Station, to: Station) -> bool
    ensures { result ≡ way_open kind other a from b to }
{
    kind != other && a == from && b == to
}

// As many rows as are in use, at most those that there are.
pub fn in_use(count: u8, rows: usize) -> usize
    ensures { result ≡ min count rows }
{
    usize::from(count).min(rows)
}

impl Network {
    // The rows in use.
    #[tactic(auto, using(crate::proofs::RowsInUse::in_use_rows), unfolding(crate::specs::Networks::station_rows))]
    pub fn station_rows(&self) -> &[StationRow]
        ensures { result.now ≡ station_rows self.now }
    {
        &self.stations[..in_use(self.stationcount, 16)]
    }

    #[tactic(auto, using(crate::proofs::RowsInUse::in_use_rows), unfolding(crate::specs::Networks::line_rows))]
    pub fn line_rows(&self) -> &[LineRow]
        ensures { result.now ≡ line_rows self.now }
    {
        &self.lines[..in_use(self.linecount, 32)]
    }

    #[tactic(auto, using(crate::proofs::RowsInUse::in_use_rows), unfolding(crate::specs::Networks::closure_rows))]
    pub fn closure_rows(&self) -> &[Closure]
        ensures { result.now ≡ closure_rows self.now }
    {
        &self.closures[..in_use(self.closurecount, 32)]
    }

    pub fn station_row(&self, s: Station) -> Option<StationRow>
        ensures { result ≡ station_row self.now s }
    {
        self.station_rows()
            .iter()
            .find(|row| row.station == s)
            .copied()
    }

    pub fn line_row(&self, l: Line) -> Option<LineRow>
        ensures { result ≡ line_row self.now l }
    {
        self.line_rows().iter().find(|row| row.line == l).copied()
    }

    // The row in use at the index of its number is the station's, as in a network that lists its stations without a
    // gap.
    fn stands_in_place(&self, s: Station) -> bool
        ensures { result ≡ true → listed self.now s ≡ true }
    {
        let k = usize::from(s.0);
        let n = in_use(self.stationcount, 16);
        0 < k && k <= n && self.stations[k - 1].station == s
    }

    // The station is listed.
    #[tactic(auto, using(crate::proofs::RowsInUse::listed_found))]
    pub fn listed(&self, s: Station) -> bool
        ensures { result ≡ listed self.now s }
    {
        self.stands_in_place(s) || self.station_row(s).is_some()
    }

    // The area of a station, or nothing where it is not listed.
    pub fn area_of(&self, s: Station) -> Option<Area>
        ensures { result ≡ area_in (station_row self.now s) }
    {
        self.station_row(s).map(|row| row.area)
    }

    // Areas as a grouping of the stations: the number of a station's area, 0 where it is in none.
    pub fn group_of(&self, s: Station) -> u8
        ensures { result ≡ area_of self.now s }
    {
        self.area_of(s).map_or(0, |area| area.0)
    }

    // The station is listed and has the track.
    pub fn track_known(&self, s: Station, t: Track) -> bool
        ensures { result ≡ track_known self.now s t }
    {
        self.station_row(s).is_some_and(|row| t.0 <= row.tracks)
    }

    // The line is listed and runs from the one station to the other.
    pub fn runs(&self, l: Line, from: Station, to: Station) -> bool
        ensures { result ≡ runs self.now l from to }
    {
        self.line_row(l).is_some_and(|row| row.runs(from, to))
    }

    fn lines_in_range(&self) -> bool
        ensures { result ≡ lines_in_range self.now }
    {
        self.linecount <= 32 && rise(self.line_rows())
    }

    fn closures_in_range(&self) -> bool
        ensures { result ≡ closures_in_range self.now }
    {
        self.closurecount <= 32 && rise(self.closure_rows())
    }

    fn in_range(&self) -> bool
        ensures { result ≡ network_in_range self.now }
    {
        base::is_within(1, 16, u16::from(self.stationcount))
            && rise(self.station_rows())
            && base::is_within(1, 30, u16::from(self.headway))
            && self.lines_in_range()
            && self.closures_in_range()
    }

    fn ends_listed(&self, row: LineRow) -> bool
        ensures { result ≡ ends_listed self.now row }
    {
        self.listed(row.first) && self.listed(row.second) && row.first != row.second
    }

    fn lines_joined(&self) -> bool
        ensures { result ≡ lines_joined self.now }
    {
        self.line_rows().iter().all(|row| self.ends_listed(*row))
    }

    // The end of each closure is after its start.
    fn closures_end(&self) -> bool
        ensures { result ≡ closures_end self.now }
    {
        self.closure_rows().iter().all(|row| row.ends_after())
    }

    // The line is listed.
    pub fn line_listed(&self, l: Line) -> bool
        ensures { result ≡ line_listed self.now l }
    {
        self.line_row(l).is_some()
    }

    // Each closure is of a listed line.
    fn closures_listed(&self) -> bool
        ensures { result ≡ closures_listed self.now }
    {
        self.closure_rows()
            .iter()
            .all(|row| self.line_listed(row.line))
    }

    // "A good network's closures are ones that 3, 4 and 14 don't refuse": a network that is not good is out of range,
    // has a closure that ends before it starts, or names what it does not list, and the first of these is told.
    pub fn check(&self) -> Result<(), Refusal>
        ensures { refusal_number result ≡ network_refusal self.now }
    {
        if !self.in_range() {
            return Err(Refusal::OutOfRange);
        }
        if !self.closures_end() {
            return Err(Refusal::ClosureBackwards);
        }
        if !(self.lines_joined() && self.closures_listed()) {
            return Err(Refusal::NotJoined);
        }
        Ok(())
    }
}
