// Visits and relations as records of 16 bytes: docs/LAYOUT.md has the layout.
ghost use Rattle.std.specs.Prelude.{ℕ, List, ◌≡◌, ◌<◌, length, get_or};
ghost use Rattle.records.specs.Records.{in_station, in_line, out_station, out_line, out_run, in_link, out_link};
ghost use Rattle.records.specs.Records.{visit_bytes, decode_train, decode_visit, relation_bytes, encode_relation, decode_trains, decode_relation};

use crate::bytes;
use railway::minute::Minute;
use railway::relation::{Pair, Relation, Trains};
use railway::sorts::{Line, Station, Track, Train};
use railway::visit::{InLink, Inward, OutLink, Outward, Visit};

// The station and the line of an in-link, zeros for none.
fn in_bytes(link: InLink) -> (u8, u8)
    ensures { (result.0 ≡ in_station link) × (result.1 ≡ in_line link) }
{
    match link {
        InLink::Nothing => (0, 0),
        InLink::From(i) => (i.station.0, i.line.0),
    }
}

// The station, the line and the run time of an out-link, zeros for none.
fn out_bytes(link: OutLink) -> (u8, u8, u8)
    ensures { (result.0 ≡ out_station link) × (result.1 ≡ out_line link) × (result.2 ≡ out_run link) }
{
    match link {
        OutLink::Nothing => (0, 0, 0),
        OutLink::To(o) => (o.station.0, o.line.0, o.run),
    }
}

#[tactic(auto, unfolding(crate::specs::Records::in_link))]
fn in_link(station: u8, line: u8) -> InLink
    ensures { result ≡ in_link station line }
{
    match station {
        0 => InLink::Nothing,
        _ => InLink::From(Inward {
            station: Station(station),
            line: Line(line),
        }),
    }
}

#[tactic(auto, unfolding(crate::specs::Records::out_link))]
fn out_link(station: u8, line: u8, run: u8) -> OutLink
    ensures { result ≡ out_link station line run }
{
    match station {
        0 => OutLink::Nothing,
        _ => OutLink::To(Outward {
            station: Station(station),
            line: Line(line),
            run,
        }),
    }
}

// The record of a train's visit.
#[tactic(auto, unfolding(crate::specs::Records::visit_bytes))]
pub fn visit_record(train: Train, visit: Visit) -> [u8; 16]
    ensures { result ≡ visit_bytes train visit }
{
    let train = train.0.to_le_bytes();
    let arrival = visit.arrival.0.to_le_bytes();
    let departure = visit.departure.0.to_le_bytes();
    let inward = in_bytes(visit.inward);
    let outward = out_bytes(visit.outward);
    [
        train[0],
        train[1],
        visit.track.0,
        arrival[0],
        arrival[1],
        u8::from(visit.arrived),
        departure[0],
        departure[1],
        u8::from(visit.departed),
        inward.0,
        inward.1,
        outward.0,
        outward.1,
        outward.2,
        u8::from(visit.marked),
        0,
    ]
}

// The train of a visit record.
#[tactic(auto, unfolding(crate::specs::Records::decode_train))]
pub fn train_in(r: &[u8]) -> Train
    ensures { result ≡ decode_train r.now }
{
    Train(bytes::word_at(r, 0))
}

// The visit of a record, by what its bytes are.
fn visit_by<F: Fn(usize) -> u8>(byte: F) -> Visit
    requires callable { (i : ℕ) → i < 16 → F.pre byte i }
    ensures { (b : List ℕ) → ((i x : ℕ) → F.post byte i x → x ≡ get_or b i 0) → result ≡ decode_visit b }
{
    Visit {
        track: Track(byte(2)),
        marked: byte(14) == 1,
        arrival: Minute(u16::from_le_bytes([byte(3), byte(4)])),
        arrived: byte(5) == 1,
        departure: Minute(u16::from_le_bytes([byte(6), byte(7)])),
        departed: byte(8) == 1,
        inward: in_link(byte(9), byte(10)),
        outward: out_link(byte(11), byte(12), byte(13)),
    }
}

// The visit of a visit record; of other bytes those past the end read as zeros. It is merged into its callers: they read
// a record for each two trains, of which a rule needs few bytes, and a call would build the whole visit.
#[inline(always)]
pub fn visit_in(r: &[u8]) -> Visit
    ensures { result ≡ decode_visit r.now }
{
    if r.len() == 16 {
        return visit_by(
            |i|
                requires { i < length r.now }
            { r[i] },
        );
    }
    visit_by(|i| bytes::byte_at(r, i))
}

#[tactic(auto, unfolding(crate::specs::Records::relation_bytes))]
fn group_record(kind: u8, interval: u8, trains: Trains) -> [u8; 16]
    ensures { result ≡ relation_bytes kind interval trains.a.0 trains.b.0 trains.c.0 trains.d.0 }
{
    let a = trains.a.0.to_le_bytes();
    let b = trains.b.0.to_le_bytes();
    let c = trains.c.0.to_le_bytes();
    let d = trains.d.0.to_le_bytes();
    [
        kind, interval, a[0], a[1], b[0], b[1], c[0], c[1], d[0], d[1], 0, 0, 0, 0, 0, 0,
    ]
}

// The record of a relation.
#[tactic(auto, unfolding(crate::specs::Records::encode_relation))]
pub fn relation_record(relation: Relation) -> [u8; 16]
    ensures { result ≡ encode_relation relation }
{
    match relation {
        Relation::Connection(i, trains) => group_record(1, i, trains),
        Relation::Disconnection(i, trains) => group_record(2, i, trains),
        Relation::Dependency(i, pair) => group_record(
            3,
            i,
            Trains {
                a: pair.arriver,
                b: pair.departer,
                c: Train(0),
                d: Train(0),
            },
        ),
    }
}

#[tactic(auto, unfolding(crate::specs::Records::decode_trains))]
fn trains_in(r: &[u8]) -> Trains
    ensures { result ≡ decode_trains r.now }
{
    Trains {
        a: Train(bytes::word_at(r, 2)),
        b: Train(bytes::word_at(r, 4)),
        c: Train(bytes::word_at(r, 6)),
        d: Train(bytes::word_at(r, 8)),
    }
}

// The relation of a relation record.
#[tactic(auto, unfolding(crate::specs::Records::decode_relation))]
pub fn relation_in(r: &[u8]) -> Relation
    ensures { result ≡ decode_relation r.now }
{
    let interval = bytes::byte_at(r, 1);
    match bytes::byte_at(r, 0) {
        1 => Relation::Connection(interval, trains_in(r)),
        2 => Relation::Disconnection(interval, trains_in(r)),
        _ => Relation::Dependency(
            interval,
            Pair {
                arriver: Train(bytes::word_at(r, 2)),
                departer: Train(bytes::word_at(r, 4)),
            },
        ),
    }
}
