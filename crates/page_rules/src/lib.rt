// The rules of document 01, "Findings", that look visits up: as the definitions of timetable/specs/Rules.antt say, on
// the table that a page holds.
#![tactic(auto, unfolding(timetable::specs::Visits::leaves, timetable::specs::Rules::opened, rules::specs::between::Parts::opened, crate::specs::between::Parts::opened))]

ghost use Rattle.std.specs.Prelude.{◌≡◌};
ghost use Rattle.page.specs.between.Entries.{entry_at};
ghost use Rattle.visits.specs.between.Entries.{entry_of};

use page::entries;
use records::record;
use visits::Entry;

pub mod lines; // rules 6 and 10: trains on one line
pub mod links; // rules 7, 8 and 9: links and the visits at their far ends
pub mod relations; // rule 4

// The visit at an index of a page, and its train.
#[tactic(auto, using(crate::proofs::RuleLaws::entry_read))]
pub fn entry_at(page: &[u8], i: usize) -> Entry
    ensures { entry_of result ≡ entry_at i page.now }
{
    let r = entries::entry_record(page, i);
    Entry {
        train: record::train_in(r),
        visit: record::visit_in(r),
    }
}
