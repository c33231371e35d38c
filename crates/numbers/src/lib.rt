// The numbers of files. Document 01, "Files": "A number is groups of seven bits, lowest first, top bit set on all but
// the last: its first group plus 128 times the number in the rest."
#![tactic(auto)]

ghost use Rattle.std.specs.Prelude.{◌≡◌, ◌≤◌, ◌+◌, ◌%◌};
ghost use Rattle.numbers.specs.Answers.{number_outcome, refusal_of};
ghost use Rattle.numbers.specs.Numbers.{read_groups, read_number, width, with_number};

/// Why no number stands at the head of some bytes.
#[derive(Clone, Copy, Debug, PartialEq, Eq, Hash)]
pub enum NumberError {
    /// The bytes end early.
    EndsEarly,
    /// It is not shortest, or its third byte has the top bit set.
    NotShortest,
}

impl From<NumberError> for u8 {
    ghost from_gives = { λ e n. n ≡ refusal_of e };

    // The number that document 01 gives it.
    fn from(error: NumberError) -> u8 {
        match error {
            NumberError::EndsEarly => 1,
            NumberError::NotShortest => 2,
        }
    }
}

// The number in the rest, where `left` groups more are permitted, and how many bytes it takes.
fn read_groups(bytes: &[u8], left: u8) -> Result<(u32, usize), NumberError>
    requires { left ≤ 3 }
    ensures { number_outcome result ≡ read_groups left bytes.now }
{
    if left == 0 {
        return Err(NumberError::NotShortest);
    }
    if bytes.is_empty() {
        return Err(NumberError::EndsEarly);
    }
    let group = bytes[0];
    if group < 128 {
        return Ok((u32::from(group), 1));
    }
    let (n, used) = read_groups(&bytes[1..], left - 1)?;
    if n == 0 {
        return Err(NumberError::NotShortest);
    }
    Ok((u32::from(group - 128) + 128 * n, used + 1))
}

/// The number at the head of the bytes, and how many bytes it takes.
pub fn read(bytes: &[u8]) -> Result<(u32, usize), NumberError>
    ensures { number_outcome result ≡ read_number bytes.now }
{
    read_groups(bytes, 3)
}

// A group of seven bits that is not the last, or the last of a number that is below 128.
fn group_before(n: u16) -> u8
    ensures { result ≡ 128 + n % 128 }
{
    (128 + n % 128) as u8
}

fn last_group(n: u16) -> u8
    ensures { result ≡ n % 128 }
{
    (n % 128) as u8
}

// How many bytes a number takes.
pub fn width_of(n: u16) -> usize
    ensures { result ≡ width n }
{
    if n < 128 {
        return 1;
    }
    if n / 128 < 128 {
        return 2;
    }
    3
}

// The number written at the head of the bytes, which stay as they were where it does not fit; how many bytes it takes.
pub fn write(n: u16, out: &mut [u8]) -> usize
    ensures { (result ≡ width n) × (out.new ≡ with_number n out.old) }
{
    let w = width_of(n);
    if out.len() < w {
        return w;
    }
    if n < 128 {
        out[0] = last_group(n);
        return w;
    }
    out[0] = group_before(n);
    if n / 128 < 128 {
        out[1] = last_group(n / 128);
        return w;
    }
    out[1] = group_before(n / 128);
    out[2] = last_group(n / 128 / 128);
    w
}
