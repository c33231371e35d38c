// Bytes, numbers of two bytes, and what is done to a part of a page whatever its bytes mean.
ghost use Rattle.std.specs.Prelude.{◌≡◌, ◌<◌, length, get_or, take, drop};
ghost use Rattle.records.specs.Bytes.{zeros, word, overwritten, roomed, fronted, records_behind, closed, blank};

// A byte as a count.
pub fn size(x: u8) -> usize
    ensures { (result ≡ x) × (result < 256) }
{
    usize::from(x)
}

// The byte at a place, 0 past the end.
pub fn byte_at(b: &[u8], at: usize) -> u8
    ensures { result ≡ get_or b.now at 0 }
{
    b.get(at).copied().unwrap_or(0)
}

// The record from a place on, shorter or empty where the bytes end.
pub fn record_at(b: &[u8], at: usize) -> &[u8]
    ensures { result.now ≡ take 16 (drop at b.now) }
{
    let rest = b.get(at..).unwrap_or(&[]);
    &rest[..rest.len().min(16)]
}

// The number in the two bytes from a place on, low byte first.
pub fn word_at(b: &[u8], at: usize) -> u16
    ensures { result ≡ word b.now at }
{
    if at < b.len() {
        return u16::from_le_bytes([b[at], byte_at(b, at + 1)]);
    }
    0
}

// Whether all bytes are zero. No early end: so a compiler takes many bytes at a time.
#[tactic(auto, unfolding(crate::specs::Bytes::blank))]
pub fn is_blank(b: &[u8]) -> bool
    ensures { result ≡ blank b.now }
{
    let mut clean = true;
    for &x in b {
        clean &= x == 0;
    }
    clean
}

// Writes all of one part over another that is as long.
#[tactic(auto, unfolding(crate::specs::Bytes::overwritten))]
pub fn copy(dst: &mut [u8], src: &[u8])
    ensures { dst.new ≡ overwritten dst.old src.now }
{
    if dst.len() == src.len() {
        dst.copy_from_slice(src);
    }
}

// Makes room for one record at the front of a part, and answers how many records it moved.
#[tactic(auto, unfolding(crate::specs::Bytes::roomed))]
pub fn make_room(part: &mut [u8]) -> usize
    ensures { (result ≡ records_behind part.old) × (part.new ≡ roomed part.old) }
{
    let n = part.len();
    if n < 16 {
        return 0;
    }
    part.copy_within(..n - 16, 16);
    (n - 16) / 16
}

// Puts a record in at the front of a part, and answers how many records it moved.
#[tactic(auto, unfolding(crate::specs::Bytes::fronted))]
pub fn put_front(part: &mut [u8], new: [u8; 16]) -> usize
    ensures { (result ≡ records_behind part.old) × (part.new ≡ fronted new part.old) }
{
    if part.len() < 16 {
        return 0;
    }
    let moved = make_room(part);
    part[..16].copy_from_slice(&new);
    moved
}

// Writes zeros over a part.
pub fn clear(part: &mut [u8])
    ensures { part.new ≡ zeros (length part.old) }
{
    part.fill(0);
}

// Takes the front record out of a part: those behind it move up, zeros come last.
#[tactic(auto, unfolding(crate::specs::Bytes::closed))]
pub fn close_up(part: &mut [u8])
    ensures { part.new ≡ closed part.old }
{
    let n = part.len();
    if n < 16 {
        return;
    }
    part.copy_within(16.., 0);
    clear(&mut part[n - 16..]);
}
