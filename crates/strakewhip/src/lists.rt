// The lists of findings, four numbers each.
ghost use Rattle.std.specs.Prelude.{◌≡◌};
ghost use Rattle.strakewhip.specs.Calls.{findings_reply, findings_left, area_reply, area_left, pair_reply, pair_left};

use crate::entering::{entered, is_sheet};
use findings::calls;
use railway::sorts::Area;
use replies::Reply;

#[unsafe(no_mangle)]
pub extern "C" fn strakewhip_findings(network: &[u8], sheet: &[u8], out: &mut [u16]) -> Reply
    ensures { (result ≡ findings_reply network.now sheet.now out.old) × (out.new ≡ findings_left network.now sheet.now out.old) }
{
    match entered(is_sheet(sheet), network) {
        Ok(n) => replies::of_result(calls::sheet_findings(sheet, &n, out)),
        Err(reply) => reply,
    }
}

#[unsafe(no_mangle)]
pub extern "C" fn strakewhip_area_findings(
    network: &[u8],
    sheet: &[u8],
    area: u8,
    out: &mut [u16],
) -> Reply
    ensures { (result ≡ area_reply network.now sheet.now area out.old) × (out.new ≡ area_left network.now sheet.now area out.old) }
{
    match entered(is_sheet(sheet), network) {
        Ok(n) => replies::of_result(calls::area_findings(sheet, &n, Area(area), out)),
        Err(reply) => reply,
    }
}

#[unsafe(no_mangle)]
pub extern "C" fn strakewhip_pair_findings(
    network: &[u8],
    first: &[u8],
    second: &[u8],
    one: u8,
    other: u8,
    out: &mut [u16],
) -> Reply
    ensures { (result ≡ pair_reply network.now first.now second.now one other out.old) × (out.new ≡ pair_left network.now first.now second.now one other out.old) }
{
    match entered(is_sheet(first) && is_sheet(second), network) {
        Ok(n) => replies::of_result(calls::pair_findings(
            first,
            second,
            &n,
            Area(one),
            Area(other),
            out,
        )),
        Err(reply) => reply,
    }
}
