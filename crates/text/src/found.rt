// The lines of a list of findings, from their numbers.
ghost use Rattle.std.specs.Prelude.{◌++◌, ◌+◌, ◌*◌, ◌≤◌, length, take};
ghost use Rattle.timetable.specs.Outputs.{Puts};
ghost use Rattle.listings.specs.Text.{line};
ghost use Rattle.text.specs.between.Lines.{far, of_areas, four_at, findings_text, findings_at};

use crate::{FAR, words};

// Which list: its letter, and the areas that it is of, 0 for none.
#[derive(Clone, Copy, Debug, PartialEq, Eq, Hash)]
pub struct Heading {
    pub letter: u8,
    pub one: u8,
    pub other: u8,
}

// The finding whose four numbers start at i.
fn put_finding(out: &mut [u8], at: usize, h: Heading, numbers: &[u16], i: usize) -> usize
    requires { (at ≤ 900000000) × (i + 4 ≤ length numbers.now) × (i ≤ 1000000) }
    ensures { Puts at (line h.letter (of_areas h.one h.other ++ four_at numbers.now i)) out.old result out.new 68 }
{
    let s = u32::from(numbers[i]);
    let rule = u32::from(numbers[i + 1]);
    let first = u32::from(numbers[i + 2]);
    let second = u32::from(numbers[i + 3]);
    let a = u32::from(h.one);
    let b = u32::from(h.other);
    if h.one == 0 {
        return words::put_line(out, at, h.letter, &[s, rule, first, second]);
    }
    if h.other == 0 {
        return words::put_line(out, at, h.letter, &[a, s, rule, first, second]);
    }
    words::put_line(out, at, h.letter, &[a, b, s, rule, first, second])
}

// The first `count` findings of a list of numbers.
fn put_each(out: &mut [u8], at: usize, h: Heading, numbers: &[u16], count: usize) -> usize
    requires { (at ≤ far) × (count ≤ 200000) × (4 * count ≤ length numbers.now) }
    ensures { Puts at (findings_text h.letter (of_areas h.one h.other) (take (4 * count) numbers.now)) out.old result out.new (68 * count) }
{
    let mut next = at;
    for i in 0..count {
        next = put_finding(out, next, h, numbers, 4 * i);
    }
    next
}

// The same; nothing where the place is too far, or the numbers are not there.
#[tactic(auto, unfolding(crate::specs::between::Lines::findings_at, timetable::specs::Outputs::put))]
pub fn put_findings(out: &mut [u8], at: usize, h: Heading, numbers: &[u16], count: usize) -> usize
    ensures { Puts at (findings_at at h.letter (of_areas h.one h.other) count numbers.now) out.old result out.new (68 * count) }
{
    if FAR < at || 200000 < count || numbers.len() < 4 * count {
        return at;
    }
    put_each(out, at, h, numbers, count)
}
