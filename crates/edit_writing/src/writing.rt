// Edits written: one, or a whole file, which is their count and then the edits, one behind the other.
ghost use Rattle.std.specs.Prelude.{◌≡◌, ◌≤◌, OnErr};
ghost use Rattle.timetable.specs.Outputs.{reply_of};
ghost use Rattle.timetable.specs.FileForms.{newest_form};
ghost use Rattle.timetable.specs.EditsFile.{plan_numbers, extension_numbers, deletion_numbers, report_numbers, edit_numbers};
ghost use Rattle.fields.specs.between.Answers.{row_of};
ghost use Rattle.fields.specs.between.Putting.{Puts};
ghost use Rattle.edit_writing.specs.Writing.{write_edit, edit_written, write_edits, edits_written, PutsList};
ghost use mathlib.Core.List.{[], ◌∷◌, flat_map};

use base::refusal::{OutputError, Refusal};
use edit_files::edit::read_edit;
use edit_files::list::{EditList, read_edits};
use fields::put::{Numbers, put_number, put_row};
use railway::edit::{Deletion, Edit, Extension, Plan, Report};
use relation_files::row::led_numbers;
use timetable::FileForm;

// "(s, t, track, mark, arrival, departure)"
fn plan_numbers(p: Plan) -> [u16; 6]
    ensures { result ≡ plan_numbers newest_form p }
{
    [
        u16::from(p.station.0),
        p.train.0,
        u16::from(p.track.0),
        u16::from(p.marked),
        p.arrival.0,
        p.departure.0,
    ]
}

fn plan_row(kind: u16, p: Plan) -> Numbers
    ensures { result ≡ row_of (kind ∷ plan_numbers newest_form p) }
{
    let [s, t, k, mark, a, d] = plan_numbers(p);
    Numbers::new(&[kind, s, t, k, mark, a, d])
}

fn extension_row(kind: u16, x: Extension) -> Numbers
    ensures { result ≡ row_of (kind ∷ extension_numbers newest_form x) }
{
    let [s, t, k, mark, a, d] = plan_numbers(x.plan);
    let p = u16::from(x.other.0);
    let l = u16::from(x.line.0);
    let r = u16::from(x.run);
    Numbers::new(&[kind, s, t, k, mark, a, d, p, l, r])
}

fn deletion_row(kind: u16, d: Deletion) -> Numbers
    ensures { result ≡ row_of (kind ∷ deletion_numbers d) }
{
    let s = u16::from(d.station.0);
    let p = u16::from(d.other.0);
    Numbers::new(&[kind, s, d.train.0, p])
}

fn report_row(kind: u16, r: Report) -> Numbers
    ensures { result ≡ row_of (kind ∷ report_numbers newest_form r) }
{
    let s = u16::from(r.station.0);
    Numbers::new(&[kind, s, r.train.0, r.time.0, r.present.0])
}

// The numbers of an edit.
fn edit_row(e: Edit) -> Numbers
    ensures { result ≡ row_of (edit_numbers newest_form e) }
{
    match e {
        Edit::Place(p) => plan_row(1, p),
        Edit::Prepend(x) => extension_row(2, x),
        Edit::Append(x) => extension_row(3, x),
        Edit::DeleteFirst(d) => deletion_row(4, d),
        Edit::DeleteLast(d) => deletion_row(5, d),
        Edit::Amend(p) => plan_row(6, p),
        Edit::ReportArrival(r) => report_row(7, r),
        Edit::ReportDeparture(r) => report_row(8, r),
        Edit::AddRelation(r) => led_numbers(9, r),
        Edit::RemoveRelation(r) => led_numbers(10, r),
        Edit::DeleteTrain(c) => Numbers::new(&[11, c.train.0]),
    }
}

fn put_edit(out: &mut [u8], at: usize, e: Edit) -> usize
    ensures { Puts at (edit_numbers newest_form e) out.old result out.new 39 }
{
    put_row(out, at, edit_row(e).in_use())
}

/// 3 for an edit whose values are out of range, 13.
pub fn write_edit(e: Edit, out: &mut [u8]) -> Result<usize, OutputError>
    ensures answer { reply_of result ≡ write_edit e out.old }
    ensures after { out.new ≡ edit_written e out.old }
    ensures err { OnErr result (out.new ≡ out.old) }
{
    if !e.valid() {
        return Err(OutputError::Refused(Refusal::OutOfRange));
    }
    let mut spare = [0u8; 1];
    let needed = put_edit(&mut spare, 0, e);
    if out.len() < needed {
        return Err(OutputError::TooShort(needed));
    }
    put_edit(out, 0, e);
    Ok(needed)
}

// So many edits of a file, from a place of it on, put one behind the other.
fn put_edits(out: &mut [u8], at: usize, file: &[u8], list: EditList) -> usize
    requires { at ≤ 3 }
    ensures { PutsList file.now list.first list.count (flat_map (edit_numbers newest_form)) at out.old result out.new }
{
    let mut next = at;
    let mut place = list.first;
    for i in 0..list.count {
        match read_edit(file, place, FileForm::Newest) {
            Ok((e, behind)) => {
                next = put_edit(out, next, e);
                place = behind;
            }
            Err(_) => return next,
        }
    }
    next
}

// "count (0..1000), then kind and fields"
fn put_list(out: &mut [u8], file: &[u8], list: EditList) -> usize
    ensures { PutsList file.now list.first list.count (λ es. list.count ∷ flat_map (edit_numbers newest_form) es) 0 out.old result out.new }
{
    let at = put_number(out, 0, list.count);
    put_edits(out, at, file, list)
}

/// The list of edits that a file holds, lent as that file: what the file is refused with, 13.
pub fn write_edits(file: &[u8], out: &mut [u8]) -> Result<usize, OutputError>
    ensures answer { reply_of result ≡ write_edits file.now out.old }
    ensures after { out.new ≡ edits_written file.now out.old }
    ensures err { OnErr result (out.new ≡ out.old) }
{
    let list = match read_edits(file, FileForm::Newest) {
        Ok(list) => list,
        Err(e) => return Err(OutputError::Refused(e.refusal)),
    };
    let mut spare = [0u8; 1];
    let needed = put_list(&mut spare, file, list);
    if out.len() < needed {
        return Err(OutputError::TooShort(needed));
    }
    put_list(out, file, list);
    Ok(needed)
}
