// The line W: whether a timetable is written as it was read.
ghost use Rattle.std.specs.Prelude.{◌≡◌, ◌≤◌, length};
ghost use Rattle.base.specs.Lists.{same};
ghost use Rattle.timetable.specs.Outputs.{Puts};
ghost use Rattle.sheet.specs.Sheets.{decode_sheet};
ghost use Rattle.timetable_writing.specs.Writing.{timetable_bytes};
ghost use Rattle.findings.specs.Lists.{sheet_list_refusal};
ghost use Rattle.listings.specs.Inspect.{written_text};

use network::Network;
use text::line;
use timetable_writing::calls::write_timetable;

// Whether the bytes are the file of the sheet's timetable. A file that is longer than any input is not.
fn is_written(sheet: &[u8], n: &Network, bytes: &[u8]) -> bool
    requires { (sheet_list_refusal n.now sheet.now ≡ 0) × (length bytes.now ≤ 16384) }
    ensures { result ≡ same (timetable_bytes n.now sheet.now) bytes.now }
{
    let mut file = [0u8; 16384];
    match write_timetable(sheet, n, &mut file) {
        Ok(k) => &file[..k] == bytes,
        Err(_) => false,
    }
}

// 1 where it is, else 0.
pub(crate) fn put_written(out: &mut [u8], sheet: &[u8], n: &Network, bytes: &[u8]) -> usize
    requires { (sheet_list_refusal n.now sheet.now ≡ 0) × (length bytes.now ≤ 16384) }
    ensures { Puts 0 (written_text n.now (decode_sheet sheet.now) bytes.now) out.old result out.new 68 }
{
    line::put_line(out, 0, 87, &[u32::from(is_written(sheet, n, bytes))])
}
