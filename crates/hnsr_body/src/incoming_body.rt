// INCOMING: the relay tells an endpoint of an OPEN.
ghost use Rattle.std.specs.Prelude.{◌≡◌};
ghost use Rattle.hnsr_body.specs.Incoming.{decode_incoming, encode_incoming, incoming_bytes};
ghost use Rattle.hnsr_body.specs.Incoming.{incoming_fields, incoming_good, incoming_widths};
ghost use Rattle.hnsr_body.specs.Layout.{laid_out};

use crate::error::{HnsrInvalid, HnsrProtocolError};
use crate::fields::{next_array, put_bytes_at, start};
use crate::layout::{Read, answered, finish};
use crate::values::{is_window, is_zero};

#[repr(C)]
#[derive(Clone, Copy)]
pub struct IncomingBody {
    pub ticket_id: [u8; 32],
    pub open_request_id: u64,
    pub profile: u16,
    pub requester_nonce: [u8; 16],
    pub initial_window: u32,
}

impl IncomingBody {
    // Where each field starts, and the size.
    pub const TICKET_ID: usize = 0;

    pub const OPEN_REQUEST_ID: usize = Self::TICKET_ID + 32;

    pub const PROFILE: usize = Self::OPEN_REQUEST_ID + 8;

    pub const REQUESTER_NONCE: usize = Self::PROFILE + 2;

    pub const INITIAL_WINDOW: usize = Self::REQUESTER_NONCE + 16;

    pub const SIZE: usize = Self::INITIAL_WINDOW + 4;

    // Field after field, each from the step that the one before handed back; the result is the layout's.
    fn fields(input: &[u8]) -> Read<Self>
        ensures { (result.result ≡ laid_out incoming_widths input.now)
            × (result.body ≡ incoming_fields input.now) }
    {
        let (ticket_id, step) = next_array(start(), input);
        let (open_request_id, step) = next_array(step, input);
        let (profile, step) = next_array(step, input);
        let (requester_nonce, step) = next_array(step, input);
        let (initial_window, step) = next_array(step, input);
        Read {
            result: finish(step, input),
            body: Self {
                ticket_id,
                open_request_id: u64::from_be_bytes(open_request_id),
                profile: u16::from_le_bytes(profile),
                requester_nonce,
                initial_window: u32::from_le_bytes(initial_window),
            },
        }
    }

    // Compiled into `decode` and `encode`: as a call it took a copy of the body.
    #[inline(always)]
    #[tactic(auto, unfolding(crate::specs::Incoming::incoming_good))]
    fn is_valid(self) -> bool
        ensures { result ≡ incoming_good self }
    {
        !is_zero(&self.ticket_id)
            && self.open_request_id != 0
            && self.profile != 0
            && !is_zero(&self.requester_nonce)
            && is_window(self.initial_window)
    }

    // Two lines, and no trait for them: `layout::answered` says why.
    #[tactic(auto, unfolding(crate::specs::Incoming::decode_incoming))]
    pub fn decode(input: &[u8]) -> Read<Self>
        ensures { result ≡ decode_incoming input.now }
    {
        let read = Self::fields(input);
        read.answered(read.body.is_valid(), HnsrInvalid::IncomingParameters)
    }

    // The bytes of any body, by the name that numbers have for theirs: it is `encode` that looks at the values.
    pub fn to_bytes(self) -> [u8; Self::SIZE]
        ensures { result ≡ incoming_bytes self }
    {
        let mut bytes = [0u8; Self::SIZE];
        put_bytes_at(&mut bytes, Self::TICKET_ID, &self.ticket_id);
        put_bytes_at(
            &mut bytes,
            Self::OPEN_REQUEST_ID,
            &self.open_request_id.to_be_bytes(),
        );
        put_bytes_at(&mut bytes, Self::PROFILE, &self.profile.to_le_bytes());
        put_bytes_at(&mut bytes, Self::REQUESTER_NONCE, &self.requester_nonce);
        put_bytes_at(
            &mut bytes,
            Self::INITIAL_WINDOW,
            &self.initial_window.to_le_bytes(),
        );
        bytes
    }

    #[tactic(auto, unfolding(crate::specs::Incoming::encode_incoming))]
    pub fn encode(self) -> Result<[u8; Self::SIZE], HnsrProtocolError>
        ensures { result ≡ encode_incoming self }
    {
        answered(Ok(()), self.is_valid(), HnsrInvalid::IncomingParameters)?;
        Ok(self.to_bytes())
    }
}
