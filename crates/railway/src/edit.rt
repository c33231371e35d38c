// The eleven edits of document 01, each with a struct of its fields.
ghost use Rattle.std.specs.Prelude.{◌≡◌};
ghost use Rattle.railway.specs.Edits.{plan_ok, extension_ok, deletion_ok, report_ok, station_relation_ok, edit_ok};

use crate::minute::Minute;
use crate::relation::Relation;
use crate::sorts::{Line, Station, Track, Train};
use crate::visit::run_valid;

// "(s, t, track, arrival, departure)", and a stop mark "after its track in every edit that carries a track"
#[derive(Clone, Copy, Debug, PartialEq, Eq, Hash)]
pub struct Plan {
    pub station: Station,
    pub train: Train,
    pub track: Track,
    pub marked: bool,
    pub arrival: Minute,
    pub departure: Minute,
}

// "(as 1, then p, line, running time)"
#[derive(Clone, Copy, Debug, PartialEq, Eq, Hash)]
pub struct Extension {
    pub plan: Plan,
    pub other: Station,
    pub line: Line,
    pub run: u8,
}

// "(s, t, p)"
#[derive(Clone, Copy, Debug, PartialEq, Eq, Hash)]
pub struct Deletion {
    pub station: Station,
    pub train: Train,
    pub other: Station,
}

// "(s, t, time)", and "the present minute .. as a last field"
#[derive(Clone, Copy, Debug, PartialEq, Eq, Hash)]
pub struct Report {
    pub station: Station,
    pub train: Train,
    pub time: Minute,
    pub present: Minute,
}

// "(s, relation)"
#[derive(Clone, Copy, Debug, PartialEq, Eq, Hash)]
pub struct StationRelation {
    pub station: Station,
    pub relation: Relation,
}

// "(t)"
#[derive(Clone, Copy, Debug, PartialEq, Eq, Hash)]
pub struct Cancellation {
    pub train: Train,
}

#[derive(Clone, Copy, Debug, PartialEq, Eq, Hash)]
pub enum Edit {
    Place(Plan),
    Prepend(Extension),
    Append(Extension),
    DeleteFirst(Deletion),
    DeleteLast(Deletion),
    Amend(Plan),
    ReportArrival(Report),
    ReportDeparture(Report),
    AddRelation(StationRelation),
    RemoveRelation(StationRelation),
    DeleteTrain(Cancellation),
}

impl Plan {
    pub fn valid(self) -> bool
        ensures { result ≡ plan_ok self }
    {
        self.station.valid()
            && self.train.valid()
            && self.track.valid()
            && self.arrival.valid()
            && self.departure.valid()
    }
}

impl Extension {
    pub fn valid(self) -> bool
        ensures { result ≡ extension_ok self }
    {
        self.plan.valid() && self.other.valid() && self.line.valid() && run_valid(self.run)
    }
}

impl Deletion {
    pub fn valid(self) -> bool
        ensures { result ≡ deletion_ok self }
    {
        self.station.valid() && self.train.valid() && self.other.valid()
    }
}

impl Report {
    pub fn valid(self) -> bool
        ensures { result ≡ report_ok self }
    {
        self.station.valid() && self.train.valid() && self.time.valid() && self.present.valid()
    }
}

impl StationRelation {
    pub fn valid(self) -> bool
        ensures { result ≡ station_relation_ok self }
    {
        self.station.valid() && self.relation.valid()
    }
}

impl Edit {
    // Every value is in its range.
    pub fn valid(self) -> bool
        ensures { result ≡ edit_ok self }
    {
        match self {
            Edit::Place(p) => p.valid(),
            Edit::Prepend(x) => x.valid(),
            Edit::Append(x) => x.valid(),
            Edit::DeleteFirst(d) => d.valid(),
            Edit::DeleteLast(d) => d.valid(),
            Edit::Amend(p) => p.valid(),
            Edit::ReportArrival(r) => r.valid(),
            Edit::ReportDeparture(r) => r.valid(),
            Edit::AddRelation(r) => r.valid(),
            Edit::RemoveRelation(r) => r.valid(),
            Edit::DeleteTrain(c) => c.train.valid(),
        }
    }
}
