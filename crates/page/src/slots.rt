// Rows of records on a page: those of the visits and those of the relations.
ghost use Rattle.std.specs.Prelude.{Option, Some, Bool, true, List, ℕ, ◌≡◌, ◌+◌, ◌*◌, ◌-◌, ◌<◌, ◌≤◌, min, length, get_or};
ghost use Rattle.std.specs.Borrow.{Bor};
ghost use Rattle.page.specs.Pages.{records_of};
ghost use Rattle.page.specs.between.Changes.{index_of, counts_to};
ghost use Rattle.page.specs.between.Slots.{Fits, count_in, record_in, found_in, added, moved_by, written, removed};

use records::bytes;

// A row of slots: the byte of the head that counts its records, the byte from which they stand, and how many there is
// room for.
#[derive(Clone, Copy, Debug, PartialEq, Eq, Hash)]
pub(crate) struct Slots {
    pub head: usize,
    pub from: usize,
    pub most: usize,
}

pub(crate) const VISITS: Slots = Slots {
    head: 0,
    from: 32,
    most: 24,
};

pub(crate) const RELATIONS: Slots = Slots {
    head: 1,
    from: 416,
    most: 6,
};

// The first of n records that passes the test, n if none does.
pub(crate) fn position<F: Fn(&[u8]) -> bool>(slots: &[u8], n: usize, test: F) -> usize
    requires counted { n < 256 }
    requires callable { F.IsAlwaysCallable test }
    ensures index { (p : List ℕ → Bool) → ((x : Bor (List ℕ)) (b : Bool) → F.post test x b → b ≡ p x.now) → result ≡ index_of p (records_of n slots.now) }
    ensures bound { result ≤ n }
{
    for i in 0..n {
        if test(bytes::record_at(slots, 16 * i)) {
            return i;
        }
    }
    n
}

impl Slots {
    // How many records the page holds.
    #[tactic(auto, unfolding(crate::specs::between::Slots::count_in))]
    pub(crate) fn count(self, page: &[u8]) -> usize
        requires { Fits self }
        ensures value { result ≡ count_in self page.now }
        ensures few { result ≤ self.most }
    {
        if page.len() != 512 {
            return 0;
        }
        usize::from(page[self.head]).min(self.most)
    }

    // Whether it is a page that counts no more records than there is room for.
    #[tactic(auto, unfolding(crate::specs::between::Changes::counts_to))]
    pub(crate) fn is_sound(self, page: &[u8]) -> bool
        requires { Fits self }
        ensures value { result ≡ counts_to self.head self.most page.now }
        ensures sound { result ≡ true → (length page.now ≡ 512) × (get_or page.now self.head 0 ≤ self.most) }
    {
        page.len() == 512 && usize::from(page[self.head]) <= self.most
    }

    // The record at an index, empty past the last.
    #[tactic(auto, unfolding(crate::specs::between::Slots::record_in))]
    pub(crate) fn record(self, page: &[u8], i: usize) -> &[u8]
        requires { Fits self }
        ensures { result.now ≡ record_in self i page.now }
    {
        if i < self.count(page) {
            return bytes::record_at(page, self.from + 16 * i);
        }
        &[]
    }

    // The place of the first record that passes the test.
    pub(crate) fn find<F: Fn(&[u8]) -> bool>(self, page: &[u8], test: F) -> Option<usize>
        requires fits { Fits self }
        requires callable { F.IsAlwaysCallable test }
        ensures value { (p : List ℕ → Bool) → ((x : Bor (List ℕ)) (b : Bool) → F.post test x b → b ≡ p x.now) → result ≡ found_in self p page.now }
        ensures inside { (i : ℕ) → result ≡ Some i → i < min (get_or page.now self.head 0) self.most }
    {
        if page.len() != 512 {
            return None;
        }
        let n = self.count(page);
        let i = position(&page[self.from..], n, test);
        (i < n).then_some(i)
    }

    // Puts a record in before the first that passes the test, and answers how many records it moved.
    pub(crate) fn add<F: Fn(&[u8]) -> bool>(self, page: &mut [u8], test: F, new: [u8; 16]) -> usize
        requires fits { Fits self }
        requires callable { F.IsAlwaysCallable test }
        ensures { (p : List ℕ → Bool) → ((x : Bor (List ℕ)) (b : Bool) → F.post test x b → b ≡ p x.now)
            → (result ≡ moved_by self p page.old) × (page.new ≡ added self p new page.old) }
    {
        if page.len() != 512 {
            return 0;
        }
        let n = usize::from(page[self.head]);
        if self.most <= n {
            return 0;
        }
        let i = position(&page[self.from..], n, test);
        let part = &mut page[self.from + 16 * i..self.from + 16 * n + 16];
        let moved = bytes::put_front(part, new);
        page[self.head] = (n + 1) as u8;
        moved
    }

    // Writes a record over the first that passes the test.
    pub(crate) fn write<F: Fn(&[u8]) -> bool>(self, page: &mut [u8], test: F, new: [u8; 16])
        requires fits { Fits self }
        requires callable { F.IsAlwaysCallable test }
        ensures { (p : List ℕ → Bool) → ((x : Bor (List ℕ)) (b : Bool) → F.post test x b → b ≡ p x.now) → page.new ≡ written self p new page.old }
    {
        if !self.is_sound(page) {
            return;
        }
        if let Some(i) = self.find(page, test) {
            let at = self.from + 16 * i;
            page[at..at + 16].copy_from_slice(&new);
        }
    }

    // Takes the first record that passes the test out.
    pub(crate) fn remove<F: Fn(&[u8]) -> bool>(self, page: &mut [u8], test: F)
        requires fits { Fits self }
        requires callable { F.IsAlwaysCallable test }
        ensures { (p : List ℕ → Bool) → ((x : Bor (List ℕ)) (b : Bool) → F.post test x b → b ≡ p x.now) → page.new ≡ removed self p page.old }
    {
        if !self.is_sound(page) {
            return;
        }
        if let Some(i) = self.find(page, test) {
            let n = usize::from(page[self.head]);
            bytes::close_up(&mut page[self.from + 16 * i..self.from + 16 * n]);
            page[self.head] = (n - 1) as u8;
        }
    }
}
