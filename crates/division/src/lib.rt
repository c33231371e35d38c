// "A division is 49,152 bytes, six sheets by area." Dividing and merging copy pages: no record is read.
#![tactic(auto)]

ghost use Rattle.std.specs.Prelude.{◌≡◌, ◌≤◌, ◌<◌, T, length};
ghost use Rattle.base.specs.RefusalNumbers.{refusal_number};
ghost use Rattle.sheet.specs.Sheets.{area_part, divide_refusal, after_divide, merge_refusal, after_merge};
ghost use Rattle.division.specs.between.Copies.{kept_page, collected_page, spread, spread_all, collected, areas_in, areas_high};

use base::refusal::Refusal;
use network::Network;
use railway::sorts::{Area, Station};
use sheet::test;
use sheet::test::Extent;

// "One call gives back the part of the division that is one area's sheet, or an empty part on 5 or 3."
// A part and no Option: a rule of the project, as the definition's `area_part` has it.
pub fn area_sheet(division: &[u8], a: Area) -> &[u8]
    ensures { result.now ≡ area_part division.now a }
{
    if division.len() == 49152 && a.valid() {
        let at = 8192 * (usize::from(a.0) - 1);
        return &division[at..at + 8192];
    }
    &[]
}

// A page copied, or zeros.
fn keep_page(page: &mut [u8], from: &[u8], kept: bool)
    requires { (length page.old ≡ 512) × (length from.now ≡ 512) }
    ensures { page.new ≡ kept_page kept from.now }
{
    if kept {
        page.copy_from_slice(from);
    } else {
        page.fill(0);
    }
}

// The sheet of area a: the pages of its stations, zeros for every other.
fn fill(part: &mut [u8], sheet: &[u8], areas: [u8; 16], a: u8)
    requires { (length part.old ≡ 8192) × (length sheet.now ≡ 8192) }
    ensures { part.new ≡ spread areas sheet.now a }
{
    for i in 0..16 {
        let at = 512 * i;
        keep_page(&mut part[at..at + 512], &sheet[at..at + 512], a == areas[i]);
    }
}

fn fill_all(division: &mut [u8], sheet: &[u8], areas: [u8; 16])
    requires { (length division.old ≡ 49152) × (length sheet.now ≡ 8192) }
    ensures { division.new ≡ spread_all areas sheet.now }
{
    for a in 0..6u8 {
        let at = 8192 * usize::from(a);
        fill(&mut division[at..at + 8192], sheet, areas, a + 1);
    }
}

// The page of the station at index i in the sheet of area a; zeros where there is no area.
fn collect_page(page: &mut [u8], division: &[u8], i: usize, a: u8)
    requires { (length page.old ≡ 512) × (length division.now ≡ 49152) × (i < 16) × (a ≤ 6) }
    ensures { page.new ≡ collected_page division.now i a }
{
    if a == 0 {
        page.fill(0);
        return;
    }
    let at = 8192 * (usize::from(a) - 1) + 512 * i;
    page.copy_from_slice(&division[at..at + 512]);
}

fn collect(sheet: &mut [u8], division: &[u8], areas: [u8; 16])
    requires { (length sheet.old ≡ 8192) × (length division.now ≡ 49152) × T (areas_high areas) }
    ensures { sheet.new ≡ collected areas division.now }
{
    for i in 0..16 {
        let at = 512 * i;
        collect_page(&mut sheet[at..at + 512], division, i, areas[i]);
    }
}

// The area of each station from 1 to 16.
fn areas(network: &Network) -> [u8; 16]
    ensures { result ≡ areas_in network.now }
{
    [1, 2, 3, 4, 5, 6, 7, 8, 9, 10, 11, 12, 13, 14, 15, 16].map(|k| network.group_of(Station(k)))
}

// "Dividing puts each station's entries in its area's sheet": 5, 3, 14, 4 or 6, and the division is left as it was.
pub fn divide(sheet: &[u8], division: &mut [u8], network: &Network) -> Result<(), Refusal>
    ensures { (refusal_number result ≡ divide_refusal network.now sheet.now division.old)
        × (division.new ≡ after_divide network.now sheet.now division.old) }
{
    if sheet.len() != 8192 || division.len() != 49152 {
        return Err(Refusal::WrongLength);
    }
    test::sheet_refusal(sheet, network, Extent::Whole)?;
    fill_all(division, sheet, areas(network));
    Ok(())
}

// "merging collects them"
pub fn merge(division: &[u8], sheet: &mut [u8], network: &Network) -> Result<(), Refusal>
    ensures { (refusal_number result ≡ merge_refusal network.now division.now sheet.old)
        × (sheet.new ≡ after_merge network.now division.now sheet.old) }
{
    if division.len() != 49152 || sheet.len() != 8192 {
        return Err(Refusal::WrongLength);
    }
    network.check()?;
    if !test::good_division(division, network) {
        return Err(Refusal::BadSheet);
    }
    collect(sheet, division, areas(network));
    Ok(())
}
