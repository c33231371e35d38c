// "T: visits, relations, findings."
ghost use Rattle.timetable.specs.Outputs.{Puts};
ghost use Rattle.sheet_lines.specs.between.Sheets.{totals_at};

use network::Network;
use text::line;
use timetable_writing::calls::sheet_totals;

// The line of a sheet with so many findings; nothing where the place is too far.
pub fn put_totals(out: &mut [u8], at: usize, sheet: &[u8], n: &Network, count: u32) -> usize
    ensures { Puts at (totals_at at n.now sheet.now count) out.old result out.new 68 }
{
    match sheet_totals(sheet, n) {
        Ok(held) => {
            let visits = held.visits as u32;
            let relations = held.relations as u32;
            line::put_line(out, at, 84, &[visits, relations, count])
        }
        Err(_) => line::put_line(out, at, 84, &[0, 0, count]),
    }
}
