// Bytes, digits and words, and lines of them, from a place that is far from overflow.
ghost use Rattle.std.specs.Prelude.{◌≡◌, [], ◌∷◌, ◌+◌, ◌≤◌, length};
ghost use Rattle.timetable.specs.Outputs.{Puts, put};
ghost use Rattle.listings.specs.Text.{digits, word, head, line};
ghost use Rattle.listings.specs.Inspect.{signed};
ghost use Rattle.text.specs.between.Rows.{signed_word};

pub(crate) fn put_byte(out: &mut [u8], at: usize, b: u8) -> usize
    requires { at ≤ 2000000000 }
    ensures { (result ≡ at + 1) × (out.new ≡ put at (b ∷ []) out.old) }
{
    if at < out.len() {
        out[at] = b;
    }
    at + 1
}

// At most `left` decimal digits.
fn put_digits(out: &mut [u8], at: usize, x: u32, left: u8) -> usize
    requires { (at ≤ 1000000000) × (left ≤ 10) }
    ensures { Puts at (digits left x) out.old result out.new left }
{
    if left == 0 {
        return at;
    }
    if x < 10 {
        return put_byte(out, at, (48 + x) as u8);
    }
    let next = put_digits(out, at, x / 10, left - 1);
    put_byte(out, next, (48 + x % 10) as u8)
}

// A number with a blank before it.
pub(crate) fn put_word(out: &mut [u8], at: usize, x: u32) -> usize
    requires { at ≤ 999999999 }
    ensures { Puts at (word x) out.old result out.new 11 }
{
    let next = put_byte(out, at, 32);
    put_digits(out, next, x, 10)
}

// A number with its sign, where it is below nought.
fn put_signed(out: &mut [u8], at: usize, x: i32) -> usize
    requires { at ≤ 900000000 }
    ensures { Puts at (signed x) out.old result out.new 11 }
{
    if x < 0 {
        let next = put_byte(out, at, 45);
        return put_digits(out, next, x.unsigned_abs(), 10);
    }
    put_digits(out, at, x.unsigned_abs(), 10)
}

// The same with a blank before it.
pub(crate) fn put_signed_word(out: &mut [u8], at: usize, x: i32) -> usize
    requires { at ≤ 880000000 }
    ensures { Puts at (signed_word x) out.old result out.new 12 }
{
    let next = put_byte(out, at, 32);
    put_signed(out, next, x)
}

// A letter and at most six numbers.
fn put_head(out: &mut [u8], at: usize, letter: u8, xs: &[u32]) -> usize
    requires { (at ≤ 900000000) × (length xs.now ≤ 6) }
    ensures { Puts at (head letter xs.now) out.old result out.new 67 }
{
    let mut next = put_byte(out, at, letter);
    for x in xs {
        next = put_word(out, next, *x);
    }
    next
}

// A line of at most six numbers.
pub(crate) fn put_line(out: &mut [u8], at: usize, letter: u8, xs: &[u32]) -> usize
    requires { (at ≤ 900000000) × (length xs.now ≤ 6) }
    ensures { Puts at (line letter xs.now) out.old result out.new 68 }
{
    let end = put_head(out, at, letter, xs);
    put_byte(out, end, 10)
}
