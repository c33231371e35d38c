// The calls that list findings. Refusals in the documents' order: 5, 3, 14, 4, 6, 13.
ghost use Rattle.std.specs.Prelude.{◌≡◌, length};
ghost use Rattle.base.specs.RefusalNumbers.{refusal_number};
ghost use Rattle.scope.specs.declared.Scope.{Scope};
ghost use Rattle.sheet.specs.Sheets.{decode_sheet};
ghost use Rattle.builder.specs.between.Builder.{all_numbers};
ghost use Rattle.findings.specs.Lists.{Answers, sheet_list, area_list, two_list, list_early, sheet_list_refusal, area_list_refusal, two_areas, two_list_refusal};
ghost use Rattle.findings.specs.between.Extents.{extent_known, scope_of, extent_list, extent_refusal};

use crate::{MOST, joint};
use base::refusal::{OutputError, Refusal};
use network::Network;
use railway::sorts::Area;
use scope::Scope;
use sheet::test;
use sheet::test::Extent;

// How many numbers a draft has room for.
const DRAFT: usize = 8192;

// What was drafted, into a buffer that may be too short for it.
fn hand_over(out: &mut [u16], drafted: &[u16]) -> Result<usize, OutputError>
    ensures { Answers 0 drafted.now out.old result out.new }
{
    let k = drafted.len();
    if out.len() < k {
        return Err(OutputError::TooShort(k));
    }
    out[..k].copy_from_slice(drafted);
    Ok(k)
}

// The list is formed in a lent draft first, so that a buffer that is too short is left as it was; one that the draft
// has no room for is then formed again.
fn write_drafted(
    out: &mut [u16],
    sheet: &[u8],
    n: &Network,
    scope: Scope,
    draft: &mut [u16],
) -> Result<usize, OutputError>
    requires { length sheet.now ≡ 8192 }
    ensures { Answers 0 (all_numbers n.now scope (decode_sheet sheet.now)) out.old result out.new }
{
    let needed = builder::list_all(draft, sheet, n, scope);
    if needed <= draft.len() {
        return hand_over(out, &draft[..needed]);
    }
    if out.len() < needed {
        return Err(OutputError::TooShort(needed));
    }
    builder::list_all(out, sheet, n, scope);
    Ok(needed)
}

// A buffer that has room for any list is written at once.
fn write_list(
    out: &mut [u16],
    sheet: &[u8],
    n: &Network,
    scope: Scope,
) -> Result<usize, OutputError>
    requires { length sheet.now ≡ 8192 }
    ensures { Answers 0 (all_numbers n.now scope (decode_sheet sheet.now)) out.old result out.new }
{
    if MOST <= out.len() {
        return Ok(builder::list_all(out, sheet, n, scope));
    }
    let mut draft = [0u16; DRAFT];
    write_drafted(out, sheet, n, scope, &mut draft)
}

// What the list of an extent takes.
pub fn scope_of(extent: Extent) -> Scope
    ensures { result ≡ scope_of extent }
{
    match extent {
        Extent::Whole => Scope::Whole,
        Extent::Of(a) => Scope::Within(a),
    }
}

// Whether an extent's area is one.
pub fn is_known(extent: Extent) -> bool
    ensures { result ≡ extent_known extent }
{
    match extent {
        Extent::Whole => true,
        Extent::Of(a) => a.valid(),
    }
}

// 3 where the areas that come with the sheets are none, or of the network; 4.
fn early_refusal(n: &Network, known: bool) -> Result<(), Refusal>
    ensures { refusal_number result ≡ list_early n.now known }
{
    if !known {
        return Err(Refusal::OutOfRange);
    }
    n.check()
}

// What refuses the list of findings of a sheet of an extent: 5, 3, 14, 4, 6.
fn extent_refusal(sheet: &[u8], n: &Network, extent: Extent) -> Result<(), Refusal>
    ensures { refusal_number result ≡ extent_refusal n.now extent sheet.now }
{
    if sheet.len() != 8192 {
        return Err(Refusal::WrongLength);
    }
    early_refusal(n, is_known(extent))?;
    if !test::good_sheet(sheet, n, extent) {
        return Err(Refusal::BadSheet);
    }
    Ok(())
}

fn extent_findings(
    sheet: &[u8],
    n: &Network,
    extent: Extent,
    out: &mut [u16],
) -> Result<usize, OutputError>
    ensures { Answers (extent_refusal n.now extent sheet.now) (extent_list n.now extent sheet.now) out.old result out.new }
{
    extent_refusal(sheet, n, extent)?;
    write_list(out, sheet, n, scope_of(extent))
}

// What refuses the list of findings of a whole timetable.
pub fn sheet_refusal(sheet: &[u8], n: &Network) -> Result<(), Refusal>
    ensures { refusal_number result ≡ sheet_list_refusal n.now sheet.now }
{
    extent_refusal(sheet, n, Extent::Whole)
}

// "A whole timetable's findings: all rules at all stations."
pub fn sheet_findings(sheet: &[u8], n: &Network, out: &mut [u16]) -> Result<usize, OutputError>
    ensures { Answers (sheet_list_refusal n.now sheet.now) (sheet_list n.now sheet.now) out.old result out.new }
{
    extent_findings(sheet, n, Extent::Whole, out)
}

// "An area's findings, at its stations: rules 1 to 6, and 7 to 10 where the far station is its own too."
pub fn area_findings(
    sheet: &[u8],
    n: &Network,
    a: Area,
    out: &mut [u16],
) -> Result<usize, OutputError>
    ensures { Answers (area_list_refusal n.now sheet.now a) (area_list n.now sheet.now a) out.old result out.new }
{
    extent_findings(sheet, n, Extent::Of(a), out)
}

#[tactic(auto, unfolding(crate::specs::Lists::two_areas))]
fn are_two(a: Area, b: Area) -> bool
    ensures { result ≡ two_areas a b }
{
    a.valid() && b.valid() && a != b
}

// Both sheets are good, each over the stations of its area.
fn pair_refusal(first: &[u8], second: &[u8], n: &Network, a: Area, b: Area) -> Result<(), Refusal>
    ensures { refusal_number result ≡ two_list_refusal n.now first.now second.now a b }
{
    if first.len() != 8192 || second.len() != 8192 {
        return Err(Refusal::WrongLength);
    }
    early_refusal(n, are_two(a, b))?;
    if test::good_sheet(first, n, Extent::Of(a)) && test::good_sheet(second, n, Extent::Of(b)) {
        return Ok(());
    }
    Err(Refusal::BadSheet)
}

// "A pair's (unordered): 7 to 10 across the two, which differ (else 3)." The two sheets are put together in one.
pub fn pair_findings(
    first: &[u8],
    second: &[u8],
    n: &Network,
    a: Area,
    b: Area,
    out: &mut [u16],
) -> Result<usize, OutputError>
    ensures { Answers (two_list_refusal n.now first.now second.now a b) (two_list n.now first.now second.now a b) out.old result out.new }
{
    pair_refusal(first, second, n, a, b)?;
    let mut sheet = [0u8; 8192];
    joint::join(&mut sheet, first, second, n, a, b);
    write_list(out, &sheet, n, Scope::Between(a, b))
}
