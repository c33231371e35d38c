// What refuses an edit before any sheet is looked at, or the areas that it names.
ghost use Rattle.std.specs.Prelude.{◌≡◌, ◌≤◌};
ghost use Rattle.base.specs.Choice.{◌if◌else◌};
ghost use Rattle.named_sheets.specs.between.Named.{touches_area};
ghost use Rattle.replies.specs.Replies.{bits};
ghost use Rattle.replies.specs.Calls.{length_reply};
ghost use Rattle.edit_replies.specs.Replies.{named_under};

use crate::reading::edit_in;
use actions::early;
use named_sheets::names_area;
use network::Network;
use railway::edit::Edit;
use railway::sorts::Area;
use replies::{CallError, Reply};

// The area's bit where the edit names it, else 0.
fn bit_of(n: &Network, e: Edit, a: Area, bit: usize) -> usize
    ensures { (result ≡ (bit if touches_area n.now e a.0 else 0)) × (result ≤ bit) }
{
    if names_area(n, e, a) {
        return bit;
    }
    0
}

// Area a as the bit 1 << (a - 1).
#[tactic(auto, unfolding(replies::specs::Replies::bits))]
fn named_areas(n: &Network, e: Edit) -> usize
    ensures { result ≡ bits (touches_area n.now e) }
{
    let low = bit_of(n, e, Area(1), 1) + bit_of(n, e, Area(2), 2) + bit_of(n, e, Area(3), 4);
    let high = bit_of(n, e, Area(4), 8) + bit_of(n, e, Area(5), 16) + bit_of(n, e, Area(6), 32);
    low + high
}

// Under a network that is read. "one refused with 3 or 7 names none", nor with 15
fn areas_under(n: &Network, edit: &[u8]) -> Result<usize, CallError>
    ensures { length_reply result ≡ named_under n.now edit.now }
{
    let e = edit_in(edit)?;
    early::early_refusal(n, e)?;
    Ok(named_areas(n, e))
}

pub fn names_under(n: &Network, edit: &[u8]) -> Reply
    ensures { result ≡ named_under n.now edit.now }
{
    Reply::from(areas_under(n, edit))
}
