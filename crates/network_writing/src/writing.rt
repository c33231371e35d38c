// A network, as it stands in a network file.
ghost use Rattle.std.specs.Prelude.{◌≡◌, ◌≤◌, ℕ, List, length};
ghost use mathlib.Core.List.{◌∷◌, flat_map};
ghost use Rattle.timetable.specs.Formats.{bytes_of};
ghost use Rattle.timetable.specs.NetworkFile.{station_numbers, newest, line_numbers, closure_numbers, network_numbers};
ghost use Rattle.timetable.specs.Outputs.{reply_of, put};
ghost use Rattle.fields.specs.between.Putting.{Places};
ghost use Rattle.network_writing.specs.Writing.{write_network, network_written};

use base::refusal::OutputError;
use fields::put::{put_number, put_row};
use network::{Closure, LineRow, Network, StationRow};

// A row of a network, as the numbers that are written of it.
trait Written {
    ghost numbers: { Self → List ℕ };

    fn put(&self, out: &mut [u8], at: usize) -> usize
        requires { at ≤ 900000000 }
        ensures { Places at (numbers self.now) out.old result out.new 39 };
}

// "(number, area, count of tracks 1..8)"
impl Written for StationRow {
    ghost numbers = { station_numbers };

    fn put(&self, out: &mut [u8], at: usize) -> usize {
        let numbers = [
            u16::from(self.station.0),
            u16::from(self.area.0),
            u16::from(self.tracks),
        ];
        put_row(out, at, &numbers)
    }
}

// "(number, first station, second station, kind, least running time, capacity 1..9)"; W3: "two, passenger first"
impl Written for LineRow {
    ghost numbers = { line_numbers newest };

    fn put(&self, out: &mut [u8], at: usize) -> usize {
        let numbers = [
            u16::from(self.line.0),
            u16::from(self.first.0),
            u16::from(self.second.0),
            u16::from(self.kind),
            u16::from(self.passenger),
            u16::from(self.freight),
            u16::from(self.capacity),
        ];
        put_row(out, at, &numbers)
    }
}

// "starts are 0..2879, ends 1..2880"
impl Written for Closure {
    ghost numbers = { closure_numbers };

    fn put(&self, out: &mut [u8], at: usize) -> usize {
        put_row(out, at, &[u16::from(self.line.0), self.start.0, self.end.0])
    }
}

// Rows with their count before them.
fn put_counted<R: Written>(out: &mut [u8], at: usize, count: u8, rows: &[R]) -> usize
    requires near { at ≤ 700000000 }
    requires few { length rows.now ≤ count }
    ensures { Places at (count ∷ flat_map R.numbers rows.now) out.old result out.new 9948 }
{
    let mut next = put_number(out, at, u16::from(count));
    for row in rows {
        next = row.put(out, next);
    }
    next
}

// "station count, stations rising, headway, line count, lines rising"; "closures, with their count before them"
fn put_network(out: &mut [u8], n: &Network) -> usize
    ensures { (result ≡ length (bytes_of (network_numbers n.now))) × (out.new ≡ put 0 (bytes_of (network_numbers n.now)) out.old) }
{
    let headway = put_counted(out, 0, n.stationcount, n.station_rows());
    let lines = put_number(out, headway, u16::from(n.headway));
    let closures = put_counted(out, lines, n.linecount, n.line_rows());
    put_counted(out, closures, n.closurecount, n.closure_rows())
}

/// 3, 14 and 4 for a network that is not good, 13.
pub fn write_network(n: &Network, out: &mut [u8]) -> Result<usize, OutputError>
    ensures { (reply_of result ≡ write_network n.now out.old) × (out.new ≡ network_written n.now out.old) }
{
    n.check()?;
    // a pass over a spare byte counts
    let needed = put_network(&mut [0; 1], n);
    if out.len() < needed {
        return Err(OutputError::TooShort(needed));
    }
    put_network(out, n);
    Ok(needed)
}
