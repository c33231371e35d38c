// A line: a letter and at most six numbers.
ghost use Rattle.timetable.specs.Outputs.{Puts};
ghost use Rattle.text.specs.between.Lines.{line_at};

use crate::{FAR, words};

// The line of these numbers; nothing where the place is too far, or they are more than six.
#[tactic(auto, unfolding(crate::specs::between::Lines::line_at, timetable::specs::Outputs::put))]
pub fn put_line(out: &mut [u8], at: usize, letter: u8, xs: &[u32]) -> usize
    ensures { Puts at (line_at at letter xs.now) out.old result out.new 68 }
{
    if FAR < at || 6 < xs.len() {
        return at;
    }
    words::put_line(out, at, letter, xs)
}
