// An edit on a division whose network and six sheets are known to be good, as after every edit on a good one: only the
// edit is tested (3, 15, 7), so that each edit of a list costs the pages that it touches. No other crate reaches it.
ghost use Rattle.std.specs.Prelude.{◌≡◌, true};
ghost use Rattle.edit_calls.specs.Answers.{answer_of};
ghost use Rattle.edit_calls.specs.Lists.{known_good, Edits};

use crate::pages;
use actions::early;
use base::refusal::Refusal;
use network::Network;
use page_edits::Layout;
use railway::edit::Edit;

pub(crate) fn edit_untested(division: &mut [u8], n: &Network, e: Edit) -> Result<u8, Refusal>
    requires { known_good n.now division.old ≡ true }
    ensures { Edits n.now e division.old (answer_of result) division.new }
{
    early::refusal_under(n, Ok(()), e)?;
    pages::edit_pages(division, Layout::Division, n, e)
}
