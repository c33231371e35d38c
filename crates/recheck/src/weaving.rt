// What stays of a list and what is redone, put together in place: the redone findings stand at the end of their room,
// and the gap before them is as long as what is still to come of the list, so no finding is written over unread.
ghost use Rattle.std.specs.Prelude.{◌≡◌, ◌+◌, ◌≤◌, length};
ghost use Rattle.timetable.specs.Outputs.{put};
ghost use Rattle.recheck.specs.between.Kept.{four_at, part, comes_first, run_first, Ordered, CanWeave, woven};

use crate::lists::{is_before, run_end};
use scope::redone;
use scope::redone::Marks;

// Numbers, to a place.
fn put_numbers(out: &mut [u16], to: usize, numbers: &[u16])
    requires { to + length numbers.now ≤ length out.old }
    ensures { out.new ≡ put to numbers.now out.old }
{
    let end = to + numbers.len();
    out[to..end].copy_from_slice(numbers);
}

// Four numbers moved to another place.
fn move_four(out: &mut [u16], to: usize, from: usize)
    requires { (to + 4 ≤ length out.old) × (from + 4 ≤ length out.old) }
    ensures { out.new ≡ put to (four_at from out.old) out.old }
{
    out.copy_within(from..from + 4, to);
}

// There is a redone finding left at `from`, and it is before the list's at i.
#[tactic(auto, unfolding(crate::specs::between::Kept::comes_first))]
fn comes_first(out: &[u16], from: usize, end: usize, list: &[u16], i: usize) -> bool
    requires { (from ≤ end) × (end ≤ length out.now) × (i + 4 ≤ length list.now) }
    ensures { result ≡ comes_first from end out.now i list.now }
{
    from + 4 <= end && is_before(out, from, list, i)
}

// Nothing is redone at the station, and no redone finding is left, or the next is of a greater station: what the list
// has of the station comes next, all of it.
#[tactic(auto, unfolding(crate::specs::between::Kept::run_first))]
fn run_first(out: &[u16], from: usize, end: usize, station: u16, level: u8) -> bool
    requires { (from ≤ end) × (end ≤ length out.now) }
    ensures { result ≡ run_first from end out.now station level }
{
    level == 0 && (end < from + 4 || station < out[from])
}

// The redone findings stand from `kept` to `end`. Where all or nothing is redone at a station, what the list has of it
// is left out or copied at once. The loop stays a `while`, since how far a step goes in which list depends on what is
// read there.
pub(crate) fn weave(out: &mut [u16], list: &[u16], marks: Marks, kept: usize, end: usize)
    requires { Ordered list.now × CanWeave marks list.now kept end out.old }
    ensures { out.new ≡ woven marks list.now kept end out.old }
{
    let k = list.len();
    let mut i: usize = 0;
    let mut to: usize = 0;
    let mut from = kept;
    while 4 <= k - i {
        let level = redone::level(marks, list[i]);
        if level == 2 {
            i = run_end(list, i);
        } else if run_first(out, from, end, list[i], level) {
            let stop = run_end(list, i);
            put_numbers(out, to, &list[i..stop]);
            to += stop - i;
            i = stop;
        } else if redone::is_redone(marks, list[i], list[i + 1]) {
            i += 4;
        } else if comes_first(out, from, end, list, i) {
            move_four(out, to, from);
            from += 4;
            to += 4;
        } else {
            put_numbers(out, to, &list[i..i + 4]);
            i += 4;
            to += 4;
        }
    }
}
