// Bytes as 32-bit words and words as bytes: four bytes to a word, the first lowest. The methods of the encoder and the
// decoder over words go by these.
ghost use Rattle.std.specs.Prelude.{◌≡◌, ◌+◌, ◌≤◌, length, map, get_or, take};
ghost use Rattle.hns_encoding.specs.Bytes.{le};
ghost use Rattle.hns_encoding.specs.Words.{bytes_of, word_count, words_of};
ghost use Rattle.hns_encoding.specs.Cursor.{written_at};

// How many words so many bytes fill.
pub fn word_count(bytes: usize) -> usize
    ensures { result ≡ word_count bytes }
{
    bytes.div_ceil(4)
}

// The byte at a place; past the end zero.
fn byte_at(bytes: &[u8], at: usize) -> u8
    ensures { result ≡ get_or bytes.now at 0 }
{
    bytes.get(at).copied().unwrap_or(0)
}

// A word of at most four bytes, with zeros above them.
#[tactic(auto, using(crate::specs::Laws::Bytes::le_four))]
fn short_word(bytes: &[u8]) -> u32
    requires { length bytes.now ≤ 4 }
    ensures { result ≡ le bytes.now }
{
    u32::from_le_bytes([
        byte_at(bytes, 0),
        byte_at(bytes, 1),
        byte_at(bytes, 2),
        byte_at(bytes, 3),
    ])
}

// The chunks as words. By the place: what `zip` leaves of a slice that its pairs write did not prove, since an
// invariant cannot name that slice.
#[tactic(auto, using(crate::specs::Laws::Words::chunk_steps))]
fn put_full_words(out: &mut [u32], chunks: &[[u8; 4]])
    requires { length out.old ≡ length chunks.now }
    ensures { out.new ≡ map le chunks.now }
{
    for (i, word) in out.iter_mut().enumerate() {
        *word = u32::from_le_bytes(chunks[i]);
    }
}

// The bytes as exactly the words of `out`, zero padded: the full words, whose loop has no test of an end and compiles
// to a copy, then the one that is not full, then zeros.
#[tactic(auto, using(crate::specs::Laws::Words::words_put, crate::specs::Laws::Words::words_none))]
pub(crate) fn put_words(out: &mut [u32], bytes: &[u8])
    ensures { out.new ≡ words_of (length out.old) bytes.now }
{
    let (chunks, tail) = bytes.as_chunks();
    let full = out.len().min(chunks.len());
    let (whole, rest) = out.split_at_mut(full);
    put_full_words(whole, &chunks[..full]);
    rest.fill(0);
    if !rest.is_empty() {
        rest[0] = short_word(tail);
    }
}

// Elements into a slice at a place.
pub(crate) fn write_at<T: Copy>(out: &mut [T], at: usize, elements: &[T])
    requires { at + length elements.now ≤ length out.old }
    ensures { out.new ≡ written_at out.old at elements.now }
{
    out[at..at + elements.len()].copy_from_slice(elements);
}

// As many bytes as `out` holds, from the words. By the place: std says nothing of what a slice ends as that
// `chunks_exact_mut` or `as_chunks_mut` lends.
#[tactic(auto, unfolding(crate::specs::Bytes::le_bytes), using(crate::specs::Laws::Words::copied))]
pub(crate) fn copy_bytes(out: &mut [u8], words: &[u32])
    requires { word_count (length out.old) ≤ length words.now }
    ensures { out.new ≡ take (length out.old) (bytes_of words.now) }
{
    let full = out.len() / 4;
    for i in 0..full {
        write_at(out, 4 * i, &words[i].to_le_bytes());
    }
    let rest = out.len() % 4;
    if 0 < rest {
        write_at(out, 4 * full, &words[full].to_le_bytes()[..rest]);
    }
}
