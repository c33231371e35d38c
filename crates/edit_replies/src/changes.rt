// An edit under a network that is read: its file, then the call.
ghost use Rattle.std.specs.Prelude.{◌≡◌};
ghost use Rattle.replies.specs.Calls.{removed_reply};
ghost use Rattle.edit_replies.specs.Replies.{one_reply, one_left, sheet_one_reply, sheet_one_left};

use crate::reading::edit_in;
use edit_calls::calls;
use network::Network;
use replies::{CallError, Reply};

// How many visits the edit removes.
fn removed_on_division(n: &Network, edit: &[u8], division: &mut [u8]) -> Result<u8, CallError>
    ensures { (removed_reply result ≡ one_reply n.now edit.now division.old) × (division.new ≡ one_left n.now edit.now division.old) }
{
    let e = edit_in(edit)?;
    Ok(calls::edit_division(division, n, e)?)
}

fn removed_on_sheet(n: &Network, edit: &[u8], sheet: &mut [u8]) -> Result<u8, CallError>
    ensures { (removed_reply result ≡ sheet_one_reply n.now edit.now sheet.old) × (sheet.new ≡ sheet_one_left n.now edit.now sheet.old) }
{
    let e = edit_in(edit)?;
    Ok(calls::edit_sheet(sheet, n, e)?)
}

pub fn one_on_division(n: &Network, edit: &[u8], division: &mut [u8]) -> Reply
    ensures { (result ≡ one_reply n.now edit.now division.old) × (division.new ≡ one_left n.now edit.now division.old) }
{
    Reply::from(removed_on_division(n, edit, division))
}

pub fn one_on_sheet(n: &Network, edit: &[u8], sheet: &mut [u8]) -> Reply
    ensures { (result ≡ sheet_one_reply n.now edit.now sheet.old) × (sheet.new ≡ sheet_one_left n.now edit.now sheet.old) }
{
    Reply::from(removed_on_sheet(n, edit, sheet))
}
