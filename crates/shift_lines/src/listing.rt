// All that the program `shift` prints of the bytes of its input.
ghost use Rattle.std.specs.Prelude.{◌≡◌, true, ◌+◌, ◌*◌, ◌≤◌, length};
ghost use Rattle.network.specs.Networks.{network_refusal};
ghost use Rattle.timetable.specs.FileForms.{newest_form};
ghost use Rattle.timetable.specs.Listing.{tally_line};
ghost use Rattle.timetable.specs.Outputs.{Puts, reply_of, output, output_after};
ghost use Rattle.sheet.specs.Sheets.{decode_sheet, merged};
ghost use Rattle.records.specs.Bytes.{zeros};
ghost use Rattle.edit_calls.specs.Lists.{known_good};
ghost use Rattle.edit_calls.specs.between.Taken.{edits_at};
ghost use Rattle.builder.specs.between.Builder.{findings_most};
ghost use Rattle.listings.specs.Shift.{line_text, shift_text};
ghost use Rattle.text.specs.between.Lines.{far};
ghost use Rattle.shift_lines.specs.between.Listing.{shift_most, EditsFile, end_text, run_text};

use crate::answers;
use base::refusal::OutputError;
use edit_files::input::read_shift;
use network::Network;
use sheet_lines::{totals, whole};
use text::{draft, line, refusal};
use timetable::{FileForm, Tally};

// As many bytes as are printed at most: shift_most of specs/between/Listing.antt.
pub const MOST: usize = 68 * 1000 + (26 * (findings::MOST / 4) + 136);

// A short text, as most are, has at most as many.
pub const SHORT: usize = 98304;

// "A: the tally."
fn put_tally(out: &mut [u8], at: usize, y: Tally) -> usize
    requires { at ≤ far }
    ensures { Puts at (line_text (tally_line y)) out.old result out.new 68 }
{
    line::put_line(out, at, 65, &[y.accepted, y.refused, y.added, y.removed])
}

// What stands behind the lines of the edits, of the division that they left, merged into a lent sheet.
fn end_in(
    out: &mut [u8],
    at: usize,
    division: &[u8],
    n: &Network,
    y: Tally,
    sheet: &mut [u8],
) -> usize
    requires { (known_good n.now division.now ≡ true) × (at ≤ 1000000) × (length sheet.old ≡ 8192) }
    ensures { Puts at (end_text n.now (decode_sheet (merged n.now division.now)) y) out.old result out.new (26 * findings_most + 136) }
{
    // a division that is known to be good merges
    let _ = division::merge(division, sheet, n);
    let found = whole::put_whole(out, at, sheet, n);
    let next = totals::put_totals(out, found.at, sheet, n, found.count);
    put_tally(out, next, y)
}

// The same with a sheet of its own.
fn put_end(out: &mut [u8], at: usize, division: &[u8], n: &Network, y: Tally) -> usize
    requires { (known_good n.now division.now ≡ true) × (at ≤ 1000000) }
    ensures { Puts at (end_text n.now (decode_sheet (merged n.now division.now)) y) out.old result out.new (26 * findings_most + 136) }
{
    let mut sheet = [0u8; 8192];
    end_in(out, at, division, n, y, &mut sheet)
}

// The edits of a file run on a lent empty division: all lines. `answers` has room for two bytes an edit.
fn run_in(
    out: &mut [u8],
    file: &[u8],
    n: &Network,
    first: usize,
    count: u32,
    answers: &mut [u8],
    division: &mut [u8],
) -> usize
    requires { (network_refusal n.now ≡ 0)
        × EditsFile file.now first count
        × (length answers.old ≡ 2000)
        × (division.old ≡ zeros 49152) }
    ensures { Puts 0 (run_text n.now (edits_at newest_form count file.now first)) out.old result out.new shift_most }
{
    // the file can be read, and there is room for the answers
    let _ = edit_calls::run_list(division, n, file, FileForm::Newest, answers);
    let progress = answers::put_answers(out, file, first, count, answers);
    put_end(out, progress.at, division, n, progress.tally)
}

// "network, then edits, from an empty division": the edits' file, from the place of its first edit on.
fn put_run(out: &mut [u8], file: &[u8], n: &Network, first: usize, count: u32) -> usize
    requires { (network_refusal n.now ≡ 0) × EditsFile file.now first count }
    ensures { Puts 0 (run_text n.now (edits_at newest_form count file.now first)) out.old result out.new shift_most }
{
    let mut answers = [0u8; 2000];
    let mut division = [0u8; 49152];
    run_in(out, file, n, first, count, &mut answers, &mut division)
}

// What is printed, put at the head of the buffer as far as it fits; its length.
fn put_listing(out: &mut [u8], input: &[u8]) -> usize
    ensures { Puts 0 (shift_text input.now) out.old result out.new shift_most }
{
    // "one file of at most 16,384 bytes, else 5"
    if 16384 < input.len() {
        return refusal::put_refusal(out, 5, 0);
    }
    match read_shift(input) {
        Err(e) => refusal::put_refusal(out, u8::from(e.refusal), e.place),
        Ok(read) => {
            // behind the network stands an edits file: its count, and then the first edit
            let width = numbers::width_of(read.edits.count);
            let at = read.edits.first - width;
            put_run(
                out,
                &input[at..],
                &read.network,
                width,
                u32::from(read.edits.count),
            )
        }
    }
}

// What is printed, as a text.
#[derive(Clone, Copy, Debug, PartialEq, Eq, Hash)]
struct Listing<'a> {
    input: &'a [u8],
}

impl draft::Text for Listing<'_> {
    ghost text = { λ l. shift_text l.input.now };

    ghost bound = { shift_most };

    fn most(&self) -> usize {
        MOST
    }

    fn put(&self, out: &mut [u8]) -> usize {
        put_listing(out, self.input)
    }
}

// All lines.
pub fn write_listing(input: &[u8], out: &mut [u8]) -> Result<usize, OutputError>
    ensures { (reply_of result ≡ output 0 (shift_text input.now) out.old)
        × (out.new ≡ output_after 0 (shift_text input.now) out.old) }
{
    draft::write_text(out, &mut [0u8; SHORT], &Listing { input })
}
