// The findings of an area and of two areas, printed from the sheets of a division.
#![tactic(auto)]

ghost use Rattle.std.specs.Prelude.{◌≡◌, ◌*◌, ◌/◌, ◌≤◌, length, take};
ghost use Rattle.timetable.specs.Outputs.{Puts};
ghost use Rattle.builder.specs.between.Builder.{list_most, findings_most};
ghost use Rattle.text.specs.between.Lines.{of_areas, findings_text};
ghost use Rattle.area_lines.specs.between.Areas.{area_lines, pair_lines};

use findings::calls;
use network::Network;
use railway::sorts::Area;
use text::found;
use text::found::Heading;

// The findings whose k numbers the slice begins with, with at most 30 bytes a line.
fn put_list(out: &mut [u8], h: Heading, numbers: &[u16], k: usize) -> usize
    requires { (h.one ≤ 9) × (h.other ≤ 9) × (k ≤ list_most) × (k ≤ length numbers.now) }
    ensures { Puts 0 (findings_text h.letter (of_areas h.one h.other) (take (4 * (k / 4)) numbers.now)) out.old result out.new (30 * findings_most) }
{
    found::put_findings(out, 0, h, numbers, k / 4)
}

// D, the area, and each finding of its list, which is formed in lent arrays.
fn area_in(
    out: &mut [u8],
    sheet: &[u8],
    n: &Network,
    a: Area,
    numbers: &mut [u16],
    sheets: &mut [u8],
) -> usize
    requires { (length numbers.old ≡ list_most) × (length sheets.old ≡ 49152) }
    ensures { Puts 0 (area_lines n.now sheet.now a) out.old result out.new (30 * findings_most) }
{
    if division::divide(sheet, sheets, n).is_err() {
        return 0;
    }
    match calls::area_findings(division::area_sheet(sheets, a), n, a, numbers) {
        Ok(k) => {
            let h = Heading {
                letter: 68,
                one: a.0,
                other: 0,
            };
            put_list(out, h, numbers, k)
        }
        Err(_) => 0,
    }
}

// The same with arrays of its own; nothing where the sheet is refused or there is no such area.
pub fn put_area(out: &mut [u8], sheet: &[u8], n: &Network, a: Area) -> usize
    ensures { Puts 0 (area_lines n.now sheet.now a) out.old result out.new (30 * findings_most) }
{
    let mut numbers = [0u16; findings::MOST];
    let mut sheets = [0u8; 49152];
    area_in(out, sheet, n, a, &mut numbers, &mut sheets)
}

// P, the two areas, and each finding of their list, which is formed in lent arrays.
fn pair_in(
    out: &mut [u8],
    sheet: &[u8],
    n: &Network,
    a: Area,
    b: Area,
    numbers: &mut [u16],
    sheets: &mut [u8],
) -> usize
    requires { (length numbers.old ≡ list_most) × (length sheets.old ≡ 49152) }
    ensures { Puts 0 (pair_lines n.now sheet.now a b) out.old result out.new (30 * findings_most) }
{
    if division::divide(sheet, sheets, n).is_err() {
        return 0;
    }
    let first = division::area_sheet(sheets, a);
    let second = division::area_sheet(sheets, b);
    match calls::pair_findings(first, second, n, a, b, numbers) {
        Ok(k) => {
            let h = Heading {
                letter: 80,
                one: a.0,
                other: b.0,
            };
            put_list(out, h, numbers, k)
        }
        Err(_) => 0,
    }
}

// The same with arrays of its own; nothing where the sheet is refused or these are not two areas.
pub fn put_pair(out: &mut [u8], sheet: &[u8], n: &Network, a: Area, b: Area) -> usize
    ensures { Puts 0 (pair_lines n.now sheet.now a b) out.old result out.new (30 * findings_most) }
{
    let mut numbers = [0u16; findings::MOST];
    let mut sheets = [0u8; 49152];
    pair_in(out, sheet, n, a, b, &mut numbers, &mut sheets)
}
