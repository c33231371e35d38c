// Dividing and merging.
ghost use Rattle.std.specs.Prelude.{◌≡◌};
ghost use Rattle.base.specs.RefusalNumbers.{refusal_number};
ghost use Rattle.replies.specs.Replies.{plain};
ghost use Rattle.strakewhip.specs.Calls.{divide_reply, divide_left, merge_reply, merge_left};

use crate::entering::{entered, is_division, is_sheet};
use base::refusal::Refusal;
use replies::{CallError, Reply};

fn told(r: Result<(), Refusal>) -> Reply
    ensures { result ≡ plain (refusal_number r) }
{
    match r {
        Ok(()) => replies::plain(0),
        Err(refusal) => Reply::from(CallError::Refused(refusal)),
    }
}

#[unsafe(no_mangle)]
pub extern "C" fn strakewhip_divide(network: &[u8], sheet: &[u8], division: &mut [u8]) -> Reply
    ensures { (result ≡ divide_reply network.now sheet.now division.old) × (division.new ≡ divide_left network.now sheet.now division.old) }
{
    match entered(is_sheet(sheet) && is_division(division), network) {
        Ok(n) => told(division::divide(sheet, division, &n)),
        Err(reply) => reply,
    }
}

#[unsafe(no_mangle)]
pub extern "C" fn strakewhip_merge(network: &[u8], division: &[u8], sheet: &mut [u8]) -> Reply
    ensures { (result ≡ merge_reply network.now division.now sheet.old) × (sheet.new ≡ merge_left network.now division.now sheet.old) }
{
    match entered(is_division(division) && is_sheet(sheet), network) {
        Ok(n) => told(division::merge(division, sheet, &n)),
        Err(reply) => reply,
    }
}
