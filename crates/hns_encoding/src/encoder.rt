// A cursor over a lent slice that is written, by value: each method writes a field at the cursor and hands back the
// cursor behind it. Where the field does not fit nothing is written, and the answer says by how much. It counts
// elements: bytes or 32-bit words.
ghost use Rattle.std.specs.Prelude.{◌≡◌, [], ◌∷◌, Some};
ghost use Rattle.hns_encoding.specs.Bytes.{be_bytes, le_bytes};
ghost use Rattle.hns_encoding.specs.Words.{high_low, words, words_of};
ghost use Rattle.hns_encoding.specs.Cursor.{Puts, put};
ghost use Rattle.hns_encoding.specs.Texts.{no_room_text};

use crate::room::{fits, missing};
use crate::words::{put_words, word_count, write_at};
use std::error::Error;
use std::fmt;

#[derive(Clone, Copy)]
pub struct Encoder {
    pub position: usize,
}

// A field at `offset` finds `needed` elements too few.
#[derive(Clone, Copy, Debug, PartialEq, Eq)]
pub struct NoRoom {
    pub offset: usize,
    pub needed: usize,
}

impl fmt::Display for NoRoom {
    ghost output = { λ refusal. Some (no_room_text refusal) };

    fn fmt<W: fmt::Write>(&self, f: &mut fmt::Formatter<W>) -> fmt::Result {
        let NoRoom { offset, needed } = *self;
        write!(f, "no room at {offset}\nmissing {needed}")
    }
}

impl Error for NoRoom {}

impl Encoder {
    pub fn new() -> Self
        ensures { result.position ≡ 0 }
    {
        Self { position: 0 }
    }

    // The cursor behind the next `width` of `size` elements.
    fn step(self, size: usize, width: usize) -> Result<Encoder, NoRoom>
        ensures { result ≡ put size self.position width }
    {
        if fits(size, self.position, width) {
            Ok(Encoder {
                position: self.position + width,
            })
        } else {
            Err(NoRoom {
                offset: self.position,
                needed: missing(size, self.position, width),
            })
        }
    }

    // Elements of any type, as they stand.
    fn put<T: Copy>(self, out: &mut [T], elements: &[T]) -> Result<Encoder, NoRoom>
        ensures { Puts result out.old out.new self.position elements.now }
    {
        let next = self.step(out.len(), elements.len())?;
        write_at(out, self.position, elements);
        Ok(next)
    }

    // The numbers, by the names that the Rust has: each one line over `put`.
    #[tactic(auto, unfolding(crate::specs::Bytes::le_bytes))]
    pub fn put_u8(self, out: &mut [u8], value: u8) -> Result<Encoder, NoRoom>
        ensures { Puts result out.old out.new self.position (le_bytes 1 value) }
    {
        self.put_bytes(out, &[value])
    }

    #[tactic(auto, unfolding(crate::specs::Bytes::le_bytes))]
    pub fn put_u16_le(self, out: &mut [u8], value: u16) -> Result<Encoder, NoRoom>
        ensures { Puts result out.old out.new self.position (le_bytes 2 value) }
    {
        self.put_bytes(out, &value.to_le_bytes())
    }

    #[tactic(auto, unfolding(crate::specs::Bytes::le_bytes))]
    pub fn put_u32_le(self, out: &mut [u8], value: u32) -> Result<Encoder, NoRoom>
        ensures { Puts result out.old out.new self.position (le_bytes 4 value) }
    {
        self.put_bytes(out, &value.to_le_bytes())
    }

    #[tactic(auto, unfolding(crate::specs::Bytes::le_bytes))]
    pub fn put_u64_le(self, out: &mut [u8], value: u64) -> Result<Encoder, NoRoom>
        ensures { Puts result out.old out.new self.position (le_bytes 8 value) }
    {
        self.put_bytes(out, &value.to_le_bytes())
    }

    // An id: eight bytes, the first weighing most.
    #[tactic(auto, unfolding(crate::specs::Bytes::be_bytes))]
    pub fn put_u64_be(self, out: &mut [u8], value: u64) -> Result<Encoder, NoRoom>
        ensures { Puts result out.old out.new self.position (be_bytes 8 value) }
    {
        self.put_bytes(out, &value.to_be_bytes())
    }

    pub fn put_bytes(self, out: &mut [u8], bytes: &[u8]) -> Result<Encoder, NoRoom>
        ensures { Puts result out.old out.new self.position bytes.now }
    {
        self.put(out, bytes)
    }

    // ---- over words

    // As above, the Rust's name for one line over `put`.
    pub fn put_word(self, out: &mut [u32], value: u32) -> Result<Encoder, NoRoom>
        ensures { Puts result out.old out.new self.position (value ∷ []) }
    {
        self.put(out, &[value])
    }

    // A number in two words, high word first.
    pub fn put_u64_as_words(self, out: &mut [u32], value: u64) -> Result<Encoder, NoRoom>
        ensures { Puts result out.old out.new self.position (high_low value) }
    {
        let high = (value / 0x1_0000_0000) as u32;
        let low = (value % 0x1_0000_0000) as u32;
        self.put(out, &[high, low])
    }

    // Bytes as exactly `count` words, four to a word, the first lowest, zero padded. Bytes past them are left off.
    #[tactic(auto, using(crate::specs::Laws::Words::words_of_length))]
    pub fn put_padded_as_words(
        self,
        out: &mut [u32],
        bytes: &[u8],
        count: usize,
    ) -> Result<Encoder, NoRoom>
        ensures { Puts result out.old out.new self.position (words_of count bytes.now) }
    {
        let next = self.step(out.len(), count)?;
        put_words(&mut out[self.position..next.position], bytes);
        Ok(next)
    }

    // Bytes as the words that they fill.
    pub fn put_bytes_as_words(self, out: &mut [u32], bytes: &[u8]) -> Result<Encoder, NoRoom>
        ensures { Puts result out.old out.new self.position (words bytes.now) }
    {
        self.put_padded_as_words(out, bytes, word_count(bytes.len()))
    }

    // An id as two words: its eight bytes, the first weighing most, four to a word.
    #[tactic(auto, unfolding(crate::specs::Bytes::be_bytes))]
    pub fn put_u64_be_as_words(self, out: &mut [u32], value: u64) -> Result<Encoder, NoRoom>
        ensures { Puts result out.old out.new self.position (words (be_bytes 8 value)) }
    {
        self.put_padded_as_words(out, &value.to_be_bytes(), 2)
    }
}
