// A cursor over a slice, by value: each method takes the cursor and the slice, and hands back the field with the cursor
// behind it, or where and by how much the slice ends early. It counts elements, so that one type goes over bytes and
// over 32-bit words.
ghost use Rattle.std.specs.Prelude.{◌≡◌, ◌-◌, length, Some};
ghost use Rattle.hns_encoding.specs.Texts.{error_text};
ghost use Rattle.hns_encoding.specs.Words.{word_count};
ghost use Rattle.hns_encoding.specs.Cursor.{bytes_read, finishes, part, reads_be};
ghost use Rattle.hns_encoding.specs.Cursor.{reads_bytes, reads_high_low, reads_le};
ghost use Rattle.hns_encoding.specs.Cursor.{reads_word, steps, steps_in, unexpected_end};

use crate::room::{fits, missing};
use crate::words::{copy_bytes, word_count};
use std::error::Error;
use std::fmt;

// Two cases that both hold numbers: an enum of errors, with no shape of Option's or Result's.
#[derive(Clone, Copy, Debug, PartialEq, Eq)]
pub enum DecodeError {
    // A field that starts at `offset` lacks `needed` bytes.
    UnexpectedEnd { offset: usize, needed: usize },
    // Bytes behind the last field.
    TrailingBytes { remaining: usize },
}

impl fmt::Display for DecodeError {
    ghost output = { λ error. Some (error_text error) };

    fn fmt<W: fmt::Write>(&self, f: &mut fmt::Formatter<W>) -> fmt::Result {
        match *self {
            DecodeError::UnexpectedEnd { offset, needed } => {
                write!(f, "ends early at {offset}\nmissing {needed}")
            }
            DecodeError::TrailingBytes { remaining } => write!(f, "trailing {remaining}"),
        }
    }
}

impl Error for DecodeError {}

#[derive(Clone, Copy)]
pub struct Decoder {
    pub position: usize,
}

// The early end of a field of `width` elements at `position`, in a slice of `size`.
fn unexpected_end(size: usize, position: usize, width: usize) -> DecodeError
    ensures { result ≡ unexpected_end size position width }
{
    DecodeError::UnexpectedEnd {
        offset: position,
        needed: missing(size, position, width),
    }
}

impl Decoder {
    pub fn new() -> Self
        ensures { result.position ≡ 0 }
    {
        Self { position: 0 }
    }

    // How many bytes are left: none for a position past the end.
    pub fn remaining(self, input: &[u8]) -> usize
        ensures { result ≡ length input.now - self.position }
    {
        input.len().saturating_sub(self.position)
    }

    // The cursor behind the next `width` of `size` elements. The encoder's step has its own type and its own refusal:
    // one function over both would be handed the two, and be no shorter.
    fn step(self, size: usize, width: usize) -> Result<Decoder, DecodeError>
        ensures { result ≡ steps_in width size self }
    {
        if fits(size, self.position, width) {
            Ok(Decoder {
                position: self.position + width,
            })
        } else {
            Err(unexpected_end(size, self.position, width))
        }
    }

    // The cursor behind the next `width` bytes.
    pub fn skip(self, input: &[u8], width: usize) -> Result<Decoder, DecodeError>
        ensures { result ≡ steps width input.now self }
    {
        self.step(input.len(), width)
    }

    // The next `width` bytes as a part of the input; no bytes where `skip` says that it ends early.
    pub fn read_slice(self, input: &[u8], width: usize) -> &[u8]
        ensures { result.now ≡ part width input.now self }
    {
        let at = self.position;
        if fits(input.len(), at, width) {
            &input[at..at + width]
        } else {
            &input[..0]
        }
    }

    // The next `N` bytes as an array.
    pub fn read_array<const N: usize>(self, input: &[u8]) -> Result<([u8; N], Decoder), DecodeError>
        ensures { result ≡ reads_bytes N input.now self }
    {
        let next = self.skip(input, N)?;
        let mut bytes = [0u8; N];
        bytes.copy_from_slice(&input[self.position..next.position]);
        Ok((bytes, next))
    }

    // The numbers, by the names that the Rust has: each over `read_array` and the library's bytes of a number.
    #[tactic(auto, using(crate::specs::Laws::Bytes::le_one))]
    pub fn read_u8(self, input: &[u8]) -> Result<(u8, Decoder), DecodeError>
        ensures { result ≡ reads_le 1 input.now self }
    {
        let (bytes, next) = self.read_array::<1>(input)?;
        Ok((bytes[0], next))
    }

    #[tactic(auto, using(crate::specs::Laws::Library::le_two))]
    pub fn read_u16_le(self, input: &[u8]) -> Result<(u16, Decoder), DecodeError>
        ensures { result ≡ reads_le 2 input.now self }
    {
        let (bytes, next) = self.read_array(input)?;
        Ok((u16::from_le_bytes(bytes), next))
    }

    #[tactic(auto, using(crate::specs::Laws::Bytes::le_four))]
    pub fn read_u32_le(self, input: &[u8]) -> Result<(u32, Decoder), DecodeError>
        ensures { result ≡ reads_le 4 input.now self }
    {
        let (bytes, next) = self.read_array(input)?;
        Ok((u32::from_le_bytes(bytes), next))
    }

    #[tactic(auto, using(crate::specs::Laws::Library::le_eight))]
    pub fn read_u64_le(self, input: &[u8]) -> Result<(u64, Decoder), DecodeError>
        ensures { result ≡ reads_le 8 input.now self }
    {
        let (bytes, next) = self.read_array(input)?;
        Ok((u64::from_le_bytes(bytes), next))
    }

    // Eight bytes as a number whose highest byte is the first: an id, so that ids go up as their bytes do.
    #[tactic(auto, using(crate::specs::Laws::Library::be_eight))]
    pub fn read_u64_be(self, input: &[u8]) -> Result<(u64, Decoder), DecodeError>
        ensures { result ≡ reads_be 8 input.now self }
    {
        let (bytes, next) = self.read_array(input)?;
        Ok((u64::from_be_bytes(bytes), next))
    }

    // Whether the input is read whole; a position past its end is no whole reading. Three outcomes of one subtraction.
    pub fn finish(self, input: &[u8]) -> Result<(), DecodeError>
        ensures { result ≡ finishes input.now self }
    {
        match input.len().checked_sub(self.position) {
            Some(0) => Ok(()),
            Some(remaining) => Err(DecodeError::TrailingBytes { remaining }),
            None => Err(unexpected_end(input.len(), self.position, 0)),
        }
    }

    // ---- over words

    pub fn read_word(self, input: &[u32]) -> Result<(u32, Decoder), DecodeError>
        ensures { result ≡ reads_word input.now self }
    {
        let next = self.step(input.len(), 1)?;
        Ok((input[self.position], next))
    }

    // A number in two words, high word first.
    pub fn read_u64_from_words(self, input: &[u32]) -> Result<(u64, Decoder), DecodeError>
        ensures { result ≡ reads_high_low input.now self }
    {
        let next = self.step(input.len(), 2)?;
        let high = input[self.position];
        let low = input[self.position + 1];
        Ok((high as u64 * 0x1_0000_0000 + low as u64, next))
    }

    // As many bytes as `out` holds, four from a word, the lowest first. Where the words end early `out` stays.
    pub fn read_bytes_from_words(
        self,
        input: &[u32],
        out: &mut [u8],
    ) -> Result<Decoder, DecodeError>
        ensures { (result ≡ steps (word_count (length out.old)) input.now self)
            × (out.new ≡ bytes_read out.old input.now self) }
    {
        let next = self.step(input.len(), word_count(out.len()))?;
        copy_bytes(out, &input[self.position..]);
        Ok(next)
    }
}
