// "A file refusal prints only R, number, place."
ghost use Rattle.std.specs.Prelude.{◌≡◌, ◌≤◌};
ghost use Rattle.timetable.specs.Outputs.{Puts, reply_of, output, output_after};
ghost use Rattle.listings.specs.Shift.{refusal_text};
ghost use Rattle.text.specs.RefusalLine.{line_refusal};
ghost use Rattle.text.specs.between.Lines.{refusal_at};

use crate::{draft, words};
use base::refusal::{OutputError, Refusal};

// The line from the start on.
#[tactic(auto, unfolding(listings::specs::Shift::refusal_text))]
fn line_of(out: &mut [u8], number: u8, place: usize) -> usize
    requires { place ≤ 16384 }
    ensures { Puts 0 (refusal_text number place) out.old result out.new 68 }
{
    words::put_line(out, 0, 82, &[u32::from(number), place as u32])
}

// The same; nothing for a place that no input has.
pub fn put_refusal(out: &mut [u8], number: u8, place: usize) -> usize
    ensures { Puts 0 (refusal_at number place) out.old result out.new 68 }
{
    if 16384 < place {
        return 0;
    }
    line_of(out, number, place)
}

// The line of a refusal, as a text; nothing for a place that no input has.
#[derive(Clone, Copy, Debug, PartialEq, Eq, Hash)]
struct RefusalLine {
    number: u8,
    place: usize,
}

impl draft::Text for RefusalLine {
    ghost text = { λ l. refusal_at l.number l.place };

    ghost bound = { 68 };

    fn most(&self) -> usize {
        68
    }

    fn put(&self, out: &mut [u8]) -> usize {
        put_refusal(out, self.number, self.place)
    }
}

// The line of a refusal; 3 for a place that no input has.
pub fn refusal_line(number: u8, place: usize, out: &mut [u8]) -> Result<usize, OutputError>
    ensures { (reply_of result ≡ output (line_refusal place) (refusal_text number place) out.old)
        × (out.new ≡ output_after (line_refusal place) (refusal_text number place) out.old) }
{
    if 16384 < place {
        return Err(OutputError::Refused(Refusal::OutOfRange));
    }
    draft::write_text(out, &mut [], &RefusalLine { number, place })
}
