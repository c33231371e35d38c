// Numbers as bytes, put into a buffer from a place on; what is past the buffer's end is dropped. The place behind them
// is answered. Places stay far from overflow: beyond the last one of `Putting` nothing is put, and the place stays.
ghost use Rattle.std.specs.Prelude.{◌≡◌, List, [], ◌∷◌, ◌++◌, ℕ, ◌+◌, ◌≤◌, ◌<◌, ltb, length, set, take};
ghost use Rattle.std.specs.Prelude.{if◌then◌else◌};
ghost use Rattle.numbers.specs.Numbers.{write_number};
ghost use Rattle.timetable.specs.Outputs.{put};
ghost use Rattle.fields.specs.between.Answers.{in_use, row_of};
ghost use Rattle.fields.specs.between.Putting.{Puts, Places};

/// Up to thirteen numbers of a row: the first `count` of `values`. A function hands it out, so it is no slice, and no
/// memory is taken for it.
#[derive(Clone, Copy, Debug, PartialEq, Eq, Hash)]
pub struct Numbers {
    pub count: usize,
    pub values: [u16; 13],
}

impl Numbers {
    /// The row that holds these numbers, thirteen at most, and zeros behind them.
    pub fn new(row: &[u16]) -> Numbers
        ensures { result ≡ row_of (take 13 row.now) }
    {
        let count = row.len().min(13);
        let mut values = [0; 13];
        values[..count].copy_from_slice(&row[..count]);
        Numbers { count, values }
    }

    /// One number more, where there is room for it.
    pub fn with(self, x: u16) -> Numbers
        ensures whole { result ≡ (if ltb self.count 13 then record { count = self.count + 1; values = set self.values self.count x } else self) }
        ensures row { (ns : List ℕ) → self ≡ row_of ns → length ns < 13 → result ≡ row_of (ns ++ (x ∷ [])) }
    {
        let mut row = self;
        if row.count < 13 {
            row.values[row.count] = x;
            row.count += 1;
        }
        row
    }

    /// The numbers that are there.
    #[tactic(auto, using(network::proofs::RowsInUse::used_rows), unfolding(crate::specs::between::Answers::in_use))]
    pub fn in_use(&self) -> &[u16]
        ensures { result.now ≡ in_use self.now }
    {
        &self.values[..self.count.min(13)]
    }
}

#[tactic(auto, unfolding(timetable::specs::Outputs::put))]
fn put_byte(out: &mut [u8], at: usize, b: u8)
    ensures { out.new ≡ put at (b ∷ []) out.old }
{
    if at < out.len() {
        out[at] = b;
    }
}

fn put_bytes(out: &mut [u8], at: usize, x: u16) -> usize
    requires { at ≤ 1000000100 }
    ensures { (result ≡ at + length (write_number x)) × (out.new ≡ put at (write_number x) out.old) × (result ≤ at + 3) }
{
    let mut b = [0u8; 3];
    let w = numbers::write(x, &mut b);
    put_byte(out, at, b[0]);
    if w == 1 {
        return at + 1;
    }
    put_byte(out, at + 1, b[1]);
    if w == 2 {
        return at + 2;
    }
    put_byte(out, at + 2, b[2]);
    at + 3
}

fn put_all(out: &mut [u8], at: usize, row: &[u16]) -> usize
    requires near { at ≤ 1000000000 }
    requires few { length row.now ≤ 13 }
    ensures { Places at row.now out.old result out.new 39 }
{
    let mut next = at;
    for x in row {
        next = put_bytes(out, next, *x);
    }
    next
}

/// One number.
pub fn put_number(out: &mut [u8], at: usize, x: u16) -> usize
    ensures { Puts at (x ∷ []) out.old result out.new 3 }
{
    if at <= 1000000000 {
        put_bytes(out, at, x)
    } else {
        at
    }
}

/// A row of numbers, of which thirteen are put at most.
pub fn put_row(out: &mut [u8], at: usize, row: &[u16]) -> usize
    ensures { Puts at (take 13 row.now) out.old result out.new 39 }
{
    if at <= 1000000000 {
        put_all(out, at, &row[..row.len().min(13)])
    } else {
        at
    }
}
