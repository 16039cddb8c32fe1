// CLOSE and ERROR: a reason and a text of at most 128 bytes. Both have one form, and every reason is accepted in both.
ghost use Rattle.std.specs.Prelude.{◌≡◌, ◌&&◌, eqb, leb, drop, length};
ghost use Rattle.hnsr_body.specs.Detail.{decode_detail, detail_widths};
ghost use Rattle.hnsr_body.specs.Detail.{encode_detail, head_size, most_detail, reason_detail};
ghost use Rattle.hnsr_body.specs.Layout.{walked};

use crate::error::{HnsrInvalid, HnsrProtocolError};
use crate::fields::{Step, next_array, put_bytes_at, rest, start};
use crate::layout::{Padded, Read, answered, handed_on};
use crate::utf8::is_utf8;

// The reason, and how long the detail is, which stands in the body from its fourth byte on.
#[repr(C)]
#[derive(Clone, Copy)]
pub struct ReasonDetail {
    pub reason: u16,
    pub detail_length: usize,
}

impl ReasonDetail {
    // Where each field starts.
    pub const REASON: usize = 0;

    pub const LENGTH: usize = Self::REASON + 2;

    pub const DETAIL: usize = Self::LENGTH + 1;

    pub const MAX_DETAIL: usize = 128;

    pub const MAX_SIZE: usize = Self::DETAIL + Self::MAX_DETAIL;

    // The two fields in front of the detail, each from the step that the one before handed back, and the step behind
    // them.
    fn head(input: &[u8]) -> (Self, Step)
        ensures { (result.0 ≡ reason_detail input.now)
            × (result.1 ≡ walked detail_widths input.now (record { position = 0 })) }
    {
        let (reason, step) = next_array(start(), input);
        let (length, step) = next_array(step, input);
        (
            Self {
                reason: u16::from_le_bytes(reason),
                detail_length: u8::from_le_bytes(length) as usize,
            },
            step,
        )
    }

    // BODY.13: the length is not too large, and is that of what follows.
    fn is_length(self, left: usize) -> bool
        ensures { result ≡ (leb self.detail_length most_detail && eqb left self.detail_length) }
    {
        self.detail_length <= Self::MAX_DETAIL && left == self.detail_length
    }

    // The text: what stands behind the two fields.
    #[tactic(auto, using(crate::specs::Laws::Layout::behind_walk))]
    pub fn detail(input: &[u8]) -> &[u8]
        ensures { result.now ≡ drop head_size input.now }
    {
        let (_, step) = Self::head(input);
        rest(step, input)
    }

    pub fn decode(input: &[u8]) -> Read<Self>
        ensures { result ≡ decode_detail input.now }
    {
        let (body, step) = Self::head(input);
        let detail = rest(step, input);
        let sized = answered(
            handed_on(step),
            body.is_length(detail.len()),
            HnsrInvalid::DiagnosticDetail,
        );
        Read {
            result: answered(sized, is_utf8(detail), HnsrInvalid::NotUtf8),
            body,
        }
    }

    // A detail that the reader would refuse is not written.
    #[tactic(auto, unfolding(crate::specs::Detail::encode_detail))]
    pub fn encode(
        reason: u16,
        detail: &[u8],
    ) -> Result<Padded<{ Self::MAX_SIZE }>, HnsrProtocolError>
        ensures { result ≡ encode_detail reason detail.now }
    {
        if Self::MAX_DETAIL < detail.len() {
            return Err(HnsrProtocolError::TooLarge {
                actual: detail.len(),
                maximum: Self::MAX_DETAIL,
            });
        }
        if !is_utf8(detail) {
            return Err(HnsrInvalid::NotUtf8.into());
        }
        let mut bytes = [0; Self::MAX_SIZE];
        put_bytes_at(&mut bytes, Self::REASON, &reason.to_le_bytes());
        put_bytes_at(&mut bytes, Self::LENGTH, &[detail.len() as u8]);
        put_bytes_at(&mut bytes, Self::DETAIL, detail);
        Ok(Padded {
            length: Self::DETAIL + detail.len(),
            bytes,
        })
    }
}
