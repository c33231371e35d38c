// A text that is put into a lent buffer: whole, or not at all.
ghost use Rattle.std.specs.Prelude.{ℕ, List, ◌≡◌, leb, length, take};
ghost use Rattle.std.specs.Prelude.{if◌then◌else◌};
ghost use Rattle.timetable.specs.Outputs.{Puts, reply_of, output, output_after, put};
ghost use Rattle.text.specs.Drafts.{Drafted};

use base::refusal::OutputError;

/// A text of a kind whose texts have at most so many bytes.
pub trait Text {
    ghost text: { Self → List ℕ };

    ghost bound: { ℕ };

    /// As many bytes as a text of its kind has at most.
    fn most(&self) -> usize
        ensures { result ≡ bound };

    /// Puts it at the head of any buffer as far as it fits there; its length.
    fn put(&self, out: &mut [u8]) -> usize
        ensures { Puts 0 (text self.now) out.old result out.new bound };
}

/// The first k bytes of a draft, or all where there are fewer.
pub fn hand_over(out: &mut [u8], draft: &[u8], k: usize) -> Result<usize, OutputError>
    ensures { (reply_of result ≡ output 0 (take k draft.now) out.old)
        × (out.new ≡ output_after 0 (take k draft.now) out.old) }
{
    let count = k.min(draft.len());
    if out.len() < count {
        return Err(OutputError::TooShort(count));
    }
    out[..count].copy_from_slice(&draft[..count]);
    Ok(count)
}

/// The text of at most `most` bytes that `put` puts into any buffer as far as it fits, and whose length it answers. It
/// goes into a lent draft first, so that a buffer that is too short for it is left as it was; where the draft has no
/// room for it, it is put again. A buffer that has room for any text is written at once. `write_text` does the same
/// with a text of a known kind, and asks nothing.
pub fn drafted<F: Fn(&mut [u8]) -> usize>(
    out: &mut [u8],
    most: usize,
    draft: &mut [u8],
    put: F,
) -> Result<usize, OutputError>
    requires callable { F.IsAlwaysCallable put }
    ensures text { (text : List ℕ) → ((x : _) (r : _) (y : _) → F.post put x r y → Puts 0 text x.now r y.now most)
        → (reply_of result ≡ output 0 text out.old) × (out.new ≡ output_after 0 text out.old) }
    ensures calls { Drafted (λ x r y. F.post put x r y) out.old draft.old most result out.new draft.new }
{
    if most <= out.len() {
        return Ok(put(out));
    }
    let length = put(draft);
    if out.len() < length {
        return Err(OutputError::TooShort(length));
    }
    if length <= draft.len() {
        out[..length].copy_from_slice(&draft[..length]);
    } else {
        put(out);
    }
    Ok(length)
}

/// A text, whole. It is put into a lent draft first, so that a buffer that is too short for it is left as it was; where
/// the draft has no room for it, it is put again. A buffer that has room for any text is written at once, and the draft
/// left.
pub fn write_text<T: Text>(out: &mut [u8], draft: &mut [u8], text: &T) -> Result<usize, OutputError>
    ensures answer { reply_of result ≡ output 0 (T.text text.now) out.old }
    ensures after { out.new ≡ output_after 0 (T.text text.now) out.old }
    ensures draft { draft.new ≡ (if leb T.bound (length out.old) then draft.old else put 0 (T.text text.now) draft.old) }
{
    let most = text.most();
    if most <= out.len() {
        return Ok(text.put(out));
    }
    let needed = text.put(draft);
    if needed <= draft.len() {
        return hand_over(out, draft, needed);
    }
    if out.len() < needed {
        return Err(OutputError::TooShort(needed));
    }
    text.put(out);
    Ok(needed)
}

#[cfg(test)]
mod tests {
    use super::*;

    // Puts three bytes as far as they fit; how many they are.
    fn put_abc(buffer: &mut [u8]) -> usize {
        let fit = buffer.len().min(3);
        buffer[..fit].copy_from_slice(&b"abc"[..fit]);
        3
    }

    // A text of at most four bytes, by the room of buffer and draft: what is answered, and what then stands in each.
    #[test]
    fn a_text_is_handed_over_whole_or_not_at_all(rt: HostRuntime) {
        for (room, drafts, answer, held, left) in [
            (5, 4, Ok(3), b"abc..", b"...."),
            (4, 4, Ok(3), b"abc..", b"...."),
            (3, 4, Ok(3), b"abc..", b"abc."),
            (3, 3, Ok(3), b"abc..", b"abc."),
            (3, 2, Ok(3), b"abc..", b"ab.."),
            (3, 0, Ok(3), b"abc..", b"...."),
            (2, 4, Err(OutputError::TooShort(3)), b".....", b"abc."),
            (0, 0, Err(OutputError::TooShort(3)), b".....", b"...."),
        ] {
            let mut out = *b".....";
            let mut draft = *b"....";
            let told = drafted(
                &mut out[..room],
                4,
                &mut draft[..drafts],
                |buffer| put_abc(buffer),
            );
            assert_eq!(rt; told, answer, "room for {room}, {drafts} in the draft");
            assert_eq!(rt; &out, held, "room for {room}, {drafts} in the draft");
            assert_eq!(rt; &draft, left, "room for {room}, {drafts} in the draft");
        }
    }
}
