// The closures of a network file, "rising by line and start". They are looked at for 14 and for 4 on the way, but any
// faulty number of the file comes before those.
ghost use Rattle.std.specs.Prelude.{◌≡◌, [], ◌∷◌, ◌≤◌};
ghost use Rattle.network.specs.Networks.{blank_closure};
ghost use Rattle.timetable.specs.Formats.{read};
ghost use Rattle.timetable.specs.NetworkFile.{closure_fields, closures_format};
ghost use Rattle.fields.specs.between.Answers.{outcome};
ghost use Rattle.network_files.specs.Answers.{Tells, ClosuresOf};

use crate::faults::next_fault;
use base::refusal::{FileError, Refusal};
use fields::field::{field, narrow};
use fields::floor::{compared, floor_after};
use network::{Closure, Network};
use railway::minute::{Minute, WindowEnd};
use railway::sorts::Line;

// The rows, and the first that does not end after its start and the first of an unlisted line.
#[derive(Clone, Copy, Debug, PartialEq, Eq, Hash)]
pub struct ClosureRows {
    pub rows: [Closure; 32],
    pub unended: Option<FileError>,
    pub unlisted: Option<FileError>,
}

// A row that is not used.
pub fn empty_closure() -> Closure
    ensures { result ≡ blank_closure }
{
    Closure {
        line: Line(0),
        start: Minute(0),
        end: WindowEnd(0),
    }
}

// "starts are 0..2879, ends 1..2880", behind the line and the start of the closure before; both 0 are below every one.
fn closure_row(file: &[u8], at: usize, before: Closure) -> Result<(Closure, usize), FileError>
    ensures { outcome result ≡ read (closure_fields (before.line.0 ∷ before.start.0 ∷ [])) file.now at }
{
    let floor = [u16::from(before.line.0), before.start.0];
    let (line, place) = compared(file, at, 1, 32, &floor)?;
    let left = floor_after(&floor, line);
    let (start, place) = compared(file, place, 0, Minute::LAST, left)?;
    let (end, place) = field(file, place, 1, WindowEnd::LAST)?;
    let row = Closure {
        line: Line(narrow(line)),
        start: Minute(start),
        end: WindowEnd(end),
    };
    Ok((row, place))
}

// The closures, with the faults that the known lines show.
pub(crate) fn closures(
    file: &[u8],
    at: usize,
    count: u16,
    known: &Network,
) -> Result<(ClosureRows, usize), FileError>
    requires { count ≤ 32 }
    ensures { Tells (ClosuresOf known.now) result (read (closures_format count) file.now at) }
{
    let mut rows = [empty_closure(); 32];
    let mut unended = None;
    let mut unlisted = None;
    let mut place = at;
    let mut before = empty_closure();
    for i in 0..usize::from(count) {
        let (row, next) = closure_row(file, place, before)?;
        rows[i] = row;
        unended = next_fault(Refusal::ClosureBackwards, row.ends_after(), place, unended);
        unlisted = next_fault(
            Refusal::NotJoined,
            known.line_listed(row.line),
            place,
            unlisted,
        );
        before = row;
        place = next;
    }
    let closures = ClosureRows {
        rows,
        unended,
        unlisted,
    };
    Ok((closures, place))
}
