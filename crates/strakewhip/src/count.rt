// The tally as four numbers: accepted, refused, added, removed.
ghost use Rattle.std.specs.Prelude.{◌≡◌};
ghost use Rattle.edit_replies.specs.Replies.{raise_reply, raise_left};

use edit_replies::count;
use replies::Reply;

// The tally after an edit and its answer. 5, the edit's file, 3.
#[unsafe(no_mangle)]
pub extern "C" fn strakewhip_raise(
    edit: &[u8],
    refusal: u8,
    removed: u8,
    counts: &mut [u32; 4],
) -> Reply
    ensures { (result ≡ raise_reply edit.now refusal removed counts.old) × (counts.new ≡ raise_left edit.now refusal removed counts.old) }
{
    count::raise(edit, refusal, removed, counts)
}
