// A station's page: finding a visit or a relation, and changing the page by one record. What is no page of 512 bytes,
// or counts more records than there is room for, is left as it was.
#![tactic(auto)]

pub mod entries; // the entries of a page one by one
mod slots; // rows of records, those of visits and those of relations

ghost use Rattle.std.specs.Prelude.{map, ◌≡◌, ◌≤◌, ◌<◌, length};
ghost use Rattle.timetable.specs.Tables.{visit_of, has_relation, lose_all};
ghost use Rattle.records.specs.Bytes.{zeros};
ghost use Rattle.records.specs.Records.{encode_relation, decode_relation};
ghost use Rattle.page.specs.Pages.{slots, records_of};
ghost use Rattle.page.specs.between.Changes.{table_in, train_found, page_add_visit, moved_by_visit};
ghost use Rattle.page.specs.between.Changes.{page_write_visit, page_remove_visit, page_add_relation, moved_by_relation, page_remove_relation};
ghost use Rattle.page.specs.between.Changes.{slotted, slotted_count, slotted_left, left_count, page_lose_train};

use crate::slots::{RELATIONS, VISITS, position};
use railway::relation::Relation;
use railway::sorts::Train;
use railway::visit::Visit;
use records::{bytes, record};

// How many visits the page holds.
#[tactic(auto, using(crate::proofs::FindLaws::visits_counted))]
pub fn visit_count(page: &[u8]) -> usize
    ensures { (result ≡ length (table_in page.now).visits) × (result ≤ 24) }
{
    VISITS.count(page)
}

// How many relations the page holds.
#[tactic(auto, using(crate::proofs::FindLaws::relations_counted))]
pub fn relation_count(page: &[u8]) -> usize
    ensures { (result ≡ length (table_in page.now).relations) × (result ≤ 6) }
{
    RELATIONS.count(page)
}

// The place of the train's record among the visits.
pub fn find_train(page: &[u8], train: Train) -> Option<usize>
    ensures { result ≡ train_found train page.now }
{
    VISITS.find(page, |r| record::train_in(r) == train)
}

// The train's visit.
pub fn visit_of(page: &[u8], train: Train) -> Option<Visit>
    ensures { result ≡ visit_of train (table_in page.now) }
{
    let i = find_train(page, train)?;
    Some(record::visit_in(bytes::record_at(page, 32 + 16 * i)))
}

// Whether the page has the relation.
pub fn has_relation(page: &[u8], relation: Relation) -> bool
    ensures { result ≡ has_relation relation (table_in page.now) }
{
    RELATIONS
        .find(page, |r| relation.same(record::relation_in(r)))
        .is_some()
}

// Puts the train's visit in its place, and answers how many records it moved: those after the new one.
pub fn add_visit(page: &mut [u8], train: Train, visit: Visit) -> usize
    ensures { (result ≡ moved_by_visit train page.old) × (page.new ≡ page_add_visit train visit page.old) }
{
    VISITS.add(
        page,
        |r| train < record::train_in(r),
        record::visit_record(train, visit),
    )
}

// Writes the train's visit over the one that is there.
pub fn write_visit(page: &mut [u8], train: Train, visit: Visit)
    ensures { page.new ≡ page_write_visit train visit page.old }
{
    VISITS.write(
        page,
        |r| record::train_in(r) == train,
        record::visit_record(train, visit),
    );
}

// Takes the train's visit out.
pub fn remove_visit(page: &mut [u8], train: Train)
    ensures { page.new ≡ page_remove_visit train page.old }
{
    VISITS.remove(page, |r| record::train_in(r) == train);
}

// Puts the relation in its place, and answers how many records it moved: those after the new one.
pub fn add_relation(page: &mut [u8], relation: Relation) -> usize
    ensures { (result ≡ moved_by_relation relation page.old) × (page.new ≡ page_add_relation relation page.old) }
{
    RELATIONS.add(
        page,
        |r| relation.precedes(record::relation_in(r)),
        record::relation_record(relation),
    )
}

// Takes the relation out.
pub fn remove_relation(page: &mut [u8], relation: Relation)
    ensures { page.new ≡ page_remove_relation relation page.old }
{
    RELATIONS.remove(page, |r| relation.same(record::relation_in(r)));
}

// Puts a relation in its place among the n that a part holds, unless it is there, and answers how many there are then.
fn slot(part: &mut [u8], n: usize, relation: Relation) -> usize
    requires { (length part.old ≡ 96) × (n < 6) }
    ensures { (result ≡ slotted_count relation n part.old) × (part.new ≡ slotted relation n part.old) }
{
    if position(part, n, |r| relation.same(record::relation_in(r))) < n {
        return n;
    }
    let i = position(part, n, |r| relation.precedes(record::relation_in(r)));
    bytes::put_front(
        &mut part[16 * i..16 * n + 16],
        record::relation_record(relation),
    );
    n + 1
}

// The same of what is left of a relation.
fn slot_left(part: &mut [u8], n: usize, rest: Option<Relation>) -> usize
    requires { (length part.old ≡ 96) × (n < 6) }
    ensures { (result ≡ left_count rest n part.old) × (part.new ≡ slotted_left rest n part.old) }
{
    match rest {
        Some(q) => slot(part, n, q),
        None => n,
    }
}

// Writes what is left of n relations without the train into an empty part, and answers how many there are.
fn slot_rest(part: &mut [u8], from: &[u8], n: usize, train: Train) -> usize
    requires { (part.old ≡ zeros 96) × (n ≤ 6) }
    ensures { (result ≡ length (lose_all train (map decode_relation (records_of n from.now))))
        × (part.new ≡ slots encode_relation 6 (lose_all train (map decode_relation (records_of n from.now)))) }
{
    let mut m = 0;
    for k in (0..n).rev() {
        let relation = record::relation_in(bytes::record_at(from, 16 * k));
        m = slot_left(part, m, relation_loss::lose(relation, train));
    }
    m
}

// Takes the train out of all relations: they are written anew, in order, and those that become equal are one.
pub fn lose_train(page: &mut [u8], train: Train)
    ensures { page.new ≡ page_lose_train train page.old }
{
    if !RELATIONS.is_sound(page) {
        return;
    }
    let mut part = [0; 96];
    let m = slot_rest(&mut part, &page[416..], usize::from(page[1]), train);
    page[416..].copy_from_slice(&part);
    page[1] = m as u8;
}
