// The list of findings after one edit, four numbers each.
ghost use Rattle.std.specs.Prelude.{◌≡◌};
ghost use Rattle.strakewhip.specs.Calls.{recheck_told, recheck_left, recheck_area_told, recheck_area_left};

use crate::entering::{entered, is_sheet};
use edit_replies::rechecks;
use railway::sorts::Area;
use replies::Reply;

#[unsafe(no_mangle)]
pub extern "C" fn strakewhip_recheck(
    network: &[u8],
    sheet: &[u8],
    edit: &[u8],
    list: &[u16],
    out: &mut [u16],
) -> Reply
    ensures { (result ≡ recheck_told network.now sheet.now edit.now list.now out.old) × (out.new ≡ recheck_left network.now sheet.now edit.now list.now out.old) }
{
    match entered(is_sheet(sheet), network) {
        Ok(n) => rechecks::on_sheet(&n, sheet, edit, list, out),
        Err(reply) => reply,
    }
}

#[unsafe(no_mangle)]
pub extern "C" fn strakewhip_recheck_area(
    network: &[u8],
    sheet: &[u8],
    edit: &[u8],
    area: u8,
    list: &[u16],
    out: &mut [u16],
) -> Reply
    ensures { (result ≡ recheck_area_told network.now sheet.now edit.now area list.now out.old) × (out.new ≡ recheck_area_left network.now sheet.now edit.now area list.now out.old) }
{
    match entered(is_sheet(sheet), network) {
        Ok(n) => rechecks::on_area(&n, sheet, edit, Area(area), list, out),
        Err(reply) => reply,
    }
}
