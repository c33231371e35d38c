// The entries and relations of a page one by one, by their index.
ghost use Rattle.std.specs.Prelude.{◌≡◌};
ghost use Rattle.page.specs.between.Entries.{entry_bytes, relation_bytes};

use crate::slots::{RELATIONS, VISITS};

// The record of the visit at an index, empty past the last.
#[tactic(auto, using(crate::proofs::FindLaws::entry_is))]
pub fn entry_record(part: &[u8], i: usize) -> &[u8]
    ensures { result.now ≡ entry_bytes i part.now }
{
    VISITS.record(part, i)
}

// The record of the relation at an index, empty past the last.
#[tactic(auto, using(crate::proofs::FindLaws::relation_is))]
pub fn relation_record(part: &[u8], i: usize) -> &[u8]
    ensures { result.now ≡ relation_bytes i part.now }
{
    RELATIONS.record(part, i)
}
