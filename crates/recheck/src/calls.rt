// The calls. Refusals in the documents' order: 5, 3, 15, 14, 4, 7, 6; then 3 for the list, which is looked at last, and
// 13.
ghost use Rattle.std.specs.Prelude.{◌≡◌};
ghost use Rattle.base.specs.RefusalNumbers.{refusal_number};
ghost use Rattle.findings.specs.Lists.{Answers};
ghost use Rattle.recheck.specs.Rechecks.{recheck_refusal, recheck_list, area_recheck_refusal, area_recheck_list};
ghost use Rattle.recheck.specs.between.Extents.{extent_own, extent_refusal, extent_list};

use crate::lists::rises;
use crate::marks::marks_of;
use crate::update::write_update;
use actions::{early, known};
use base::refusal::{OutputError, Refusal};
use findings::calls::{is_known, scope_of};
use network::Network;
use railway::edit::Edit;
use railway::sorts::Area;
use sheet::test;
use sheet::test::Extent;

// 3 of the area or the edit, 15.
fn own_refusal(extent: Extent, e: Edit) -> Result<(), Refusal>
    ensures { refusal_number result ≡ extent_own extent e }
{
    if !is_known(extent) {
        return Err(Refusal::OutOfRange);
    }
    early::edit_refusal(e)
}

// One that nothing refuses under a good network has its network's refusals from the test of its sheet, so that the
// network is tested once.
fn refusal_of(
    sheet: &[u8],
    n: &Network,
    e: Edit,
    extent: Extent,
    list: &[u16],
) -> Result<(), Refusal>
    ensures { refusal_number result ≡ extent_refusal n.now e extent sheet.now list.now }
{
    if sheet.len() != 8192 {
        return Err(Refusal::WrongLength);
    }
    let own = own_refusal(extent, e);
    let unknown = known::unknown_refusal(n, e);
    if early::in_order(own, Ok(()), unknown).is_err() {
        return early::in_order(own, n.check(), unknown);
    }
    test::sheet_refusal(sheet, n, extent)?;
    if !rises(list) {
        return Err(Refusal::OutOfRange);
    }
    Ok(())
}

// On the sheet of an extent, as it is after the edit.
fn recheck_in(
    sheet: &[u8],
    n: &Network,
    e: Edit,
    extent: Extent,
    list: &[u16],
    out: &mut [u16],
) -> Result<usize, OutputError>
    ensures { Answers (extent_refusal n.now e extent sheet.now list.now) (extent_list n.now e extent sheet.now list.now) out.old result out.new }
{
    refusal_of(sheet, n, e, extent, list)?;
    write_update(out, sheet, n, scope_of(extent), marks_of(n, e), list)
}

// On a sheet of all stations.
pub fn recheck(
    sheet: &[u8],
    n: &Network,
    e: Edit,
    list: &[u16],
    out: &mut [u16],
) -> Result<usize, OutputError>
    ensures { Answers (recheck_refusal n.now e sheet.now list.now) (recheck_list n.now e sheet.now list.now) out.old result out.new }
{
    recheck_in(sheet, n, e, Extent::Whole, list, out)
}

// On an area's sheet; the edit may be of other areas alone.
pub fn recheck_area(
    sheet: &[u8],
    n: &Network,
    e: Edit,
    a: Area,
    list: &[u16],
    out: &mut [u16],
) -> Result<usize, OutputError>
    ensures { Answers (area_recheck_refusal n.now e a sheet.now list.now) (area_recheck_list n.now e a sheet.now list.now) out.old result out.new }
{
    recheck_in(sheet, n, e, Extent::Of(a), list, out)
}
