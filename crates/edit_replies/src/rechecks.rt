// A list of findings after one edit, under a network that is read: the edit's file, then the call.
ghost use Rattle.std.specs.Prelude.{◌≡◌};
ghost use Rattle.replies.specs.Calls.{length_reply};
ghost use Rattle.edit_replies.specs.Rechecks.{recheck_reply, recheck_left, area_reply, area_left};

use crate::reading::edit_in;
use network::Network;
use railway::sorts::Area;
use recheck::calls;
use replies::{CallError, Reply};

// How many numbers the list has.
fn length_on_sheet(
    n: &Network,
    sheet: &[u8],
    edit: &[u8],
    list: &[u16],
    out: &mut [u16],
) -> Result<usize, CallError>
    ensures { (length_reply result ≡ recheck_reply n.now sheet.now edit.now list.now out.old) × (out.new ≡ recheck_left n.now sheet.now edit.now list.now out.old) }
{
    let e = edit_in(edit)?;
    Ok(calls::recheck(sheet, n, e, list, out)?)
}

fn length_on_area(
    n: &Network,
    sheet: &[u8],
    edit: &[u8],
    a: Area,
    list: &[u16],
    out: &mut [u16],
) -> Result<usize, CallError>
    ensures { (length_reply result ≡ area_reply n.now sheet.now edit.now a list.now out.old) × (out.new ≡ area_left n.now sheet.now edit.now a list.now out.old) }
{
    let e = edit_in(edit)?;
    Ok(calls::recheck_area(sheet, n, e, a, list, out)?)
}

pub fn on_sheet(n: &Network, sheet: &[u8], edit: &[u8], list: &[u16], out: &mut [u16]) -> Reply
    ensures { (result ≡ recheck_reply n.now sheet.now edit.now list.now out.old) × (out.new ≡ recheck_left n.now sheet.now edit.now list.now out.old) }
{
    Reply::from(length_on_sheet(n, sheet, edit, list, out))
}

pub fn on_area(
    n: &Network,
    sheet: &[u8],
    edit: &[u8],
    a: Area,
    list: &[u16],
    out: &mut [u16],
) -> Reply
    ensures { (result ≡ area_reply n.now sheet.now edit.now a list.now out.old) × (out.new ≡ area_left n.now sheet.now edit.now a list.now out.old) }
{
    Reply::from(length_on_area(n, sheet, edit, a, list, out))
}
