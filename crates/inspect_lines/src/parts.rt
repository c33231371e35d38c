// What `inspect` reads, and the parts of what it prints, each by its index: central findings, six areas, fifteen pairs,
// totals, projections, and whether the timetable is written as it was read.
ghost use Rattle.std.specs.Prelude.{◌≡◌, [], ◌<◌, ◌≤◌, length, get_or};
ghost use Rattle.base.specs.Lists.{pairs};
ghost use Rattle.timetable.specs.Outputs.{Puts, reply_of, output, output_after};
ghost use Rattle.sheet.specs.Sheets.{decode_sheet};
ghost use Rattle.findings.specs.Lists.{sheet_list_refusal};
ghost use Rattle.timetable_files.specs.Inspect.{inspect_told};
ghost use Rattle.inspect_lines.specs.between.Bounds.{part_most};
ghost use Rattle.inspect_lines.specs.Parts.{input_answer, input_after, part_refusal, part_text};
ghost use Rattle.timetable.specs.Groups.{six};
ghost use Rattle.listings.specs.Inspect.{pair_text, parts_of};

use crate::written;
use base::refusal::{FileError, OutputError, Refusal};
use findings::calls;
use network::Network;
use railway::sorts::Area;
use sheet_lines::{totals, whole};
use text::{draft, pairs};
use timetable_files::input::{InspectRead, read_inspect};

// As many bytes as a part has at most: part_most of specs/between/Bounds.antt.
pub const MOST: usize = 30 * (findings::MOST / 4);

// The findings of the pair with this index.
fn put_pair_at(out: &mut [u8], i: usize, sheet: &[u8], n: &Network) -> usize
    requires { (sheet_list_refusal n.now sheet.now ≡ 0) × (i < 15) }
    ensures { Puts 0 (pair_text n.now (decode_sheet sheet.now) (get_or (pairs six) i (0, 0))) out.old result out.new part_most }
{
    let pair = pairs::pair_at(i);
    area_lines::put_pair(out, sheet, n, pair.first, pair.second)
}

// The part of an accepted input, from its sheet and the bytes of its timetable.
fn put_part(out: &mut [u8], k: usize, sheet: &[u8], n: &Network, bytes: &[u8]) -> usize
    requires { (sheet_list_refusal n.now sheet.now ≡ 0) × (length bytes.now ≤ 16384) }
    ensures { Puts 0 (get_or (parts_of n.now (decode_sheet sheet.now) bytes.now) k []) out.old result out.new part_most }
{
    match k {
        0 => whole::put_whole(out, 0, sheet, n).at,
        1..=6 => area_lines::put_area(out, sheet, n, Area(k as u8)),
        7..=21 => put_pair_at(out, k - 7, sheet, n),
        22 => {
            let whole = whole::put_whole(&mut [], 0, sheet, n);
            totals::put_totals(out, 0, sheet, n, whole.count)
        }
        23 => journey_lines::put_journeys(out, sheet, n),
        24 => written::put_written(out, sheet, n, bytes),
        _ => 0,
    }
}

// A part of what is printed of a sheet that can be printed, as a text.
#[derive(Clone, Copy, Debug, PartialEq, Eq, Hash)]
struct Part<'a> {
    k: usize,
    sheet: &'a [u8],
    n: &'a Network,
    bytes: &'a [u8],
    ghost printable: { (sheet_list_refusal n.now sheet.now ≡ 0) × (length bytes.now ≤ 16384) },
}

impl draft::Text for Part<'_> {
    ghost text = { λ p. part_text p.n.now p.sheet.now p.bytes.now p.k };

    ghost bound = { part_most };

    fn most(&self) -> usize {
        MOST
    }

    fn put(&self, out: &mut [u8]) -> usize {
        put_part(out, self.k, self.sheet, self.n, self.bytes)
    }
}

// The part with index k of what is printed of a sheet and the bytes that were read as its timetable. Where the buffer
// may be too short the bytes are counted first, so that it is then left as it was.
pub fn inspect_part(
    sheet: &[u8],
    n: &Network,
    bytes: &[u8],
    k: usize,
    out: &mut [u8],
) -> Result<usize, OutputError>
    ensures { (reply_of result ≡ output (part_refusal n.now sheet.now bytes.now) (part_text n.now sheet.now bytes.now k) out.old)
        × (out.new ≡ output_after (part_refusal n.now sheet.now bytes.now) (part_text n.now sheet.now bytes.now k) out.old) }
{
    if 16384 < bytes.len() {
        return Err(OutputError::Refused(Refusal::WrongLength));
    }
    calls::sheet_refusal(sheet, n)?;
    draft::write_text(out, &mut [], &Part { k, sheet, n, bytes })
}

// The input, read into the lent sheet: 5 for one that is too long, as for a sheet of another length.
pub fn read_input(input: &[u8], sheet: &mut [u8]) -> Result<InspectRead, FileError>
    ensures { (inspect_told result ≡ input_answer input.now sheet.old)
        × (sheet.new ≡ input_after input.now sheet.old) }
{
    if 16384 < input.len() {
        return Err(FileError {
            refusal: Refusal::WrongLength,
            place: 0,
        });
    }
    read_inspect(input, sheet)
}
