// OPEN: a requester asks for a circuit under a reservation.
ghost use Rattle.std.specs.Prelude.{◌≡◌};
ghost use Rattle.hnsr_body.specs.Open.{decode_open, encode_open, open_bytes};
ghost use Rattle.hnsr_body.specs.Open.{open_fields, open_good, open_widths};
ghost use Rattle.hnsr_body.specs.Layout.{laid_out};

use crate::error::{HnsrInvalid, HnsrProtocolError};
use crate::fields::{next_array, put_bytes_at, start};
use crate::layout::{Read, answered, finish};
use crate::values::{ReservationId, is_window, is_zero};

#[repr(C)]
#[derive(Clone, Copy)]
pub struct OpenBody {
    pub ticket_id: [u8; 32],
    pub reservation_id: ReservationId,
    pub endpoint_key: [u8; 33],
    pub profile: u16,
    pub requester_nonce: [u8; 16],
    pub initial_window: u32,
}

impl OpenBody {
    // Where each field starts, and the size.
    pub const TICKET_ID: usize = 0;

    pub const RESERVATION_ID: usize = Self::TICKET_ID + 32;

    pub const ENDPOINT_KEY: usize = Self::RESERVATION_ID + 16;

    pub const PROFILE: usize = Self::ENDPOINT_KEY + 33;

    pub const REQUESTER_NONCE: usize = Self::PROFILE + 2;

    pub const INITIAL_WINDOW: usize = Self::REQUESTER_NONCE + 16;

    pub const SIZE: usize = Self::INITIAL_WINDOW + 4;

    // Field after field, each from the step that the one before handed back; the result is the layout's.
    fn fields(input: &[u8]) -> Read<Self>
        ensures { (result.result ≡ laid_out open_widths input.now) × (result.body ≡ open_fields input.now) }
    {
        let (ticket_id, step) = next_array(start(), input);
        let (reservation, step) = next_array(step, input);
        let (endpoint_key, step) = next_array(step, input);
        let (profile, step) = next_array(step, input);
        let (requester_nonce, step) = next_array(step, input);
        let (initial_window, step) = next_array(step, input);
        Read {
            result: finish(step, input),
            body: Self {
                ticket_id,
                reservation_id: ReservationId::from(reservation),
                endpoint_key,
                profile: u16::from_le_bytes(profile),
                requester_nonce,
                initial_window: u32::from_le_bytes(initial_window),
            },
        }
    }

    // Compiled into `decode` and `encode`: as a call it took a copy of the body.
    #[inline(always)]
    #[tactic(auto, unfolding(crate::specs::Open::open_good))]
    fn is_valid(self, key_valid: bool) -> bool
        ensures { result ≡ open_good key_valid self }
    {
        !is_zero(&self.ticket_id)
            && self.reservation_id != ReservationId::NONE
            && key_valid
            && self.profile != 0
            && !is_zero(&self.requester_nonce)
            && is_window(self.initial_window)
    }

    // The host says whether the endpoint's key is valid.
    #[tactic(auto, unfolding(crate::specs::Open::decode_open))]
    pub fn decode(input: &[u8], key_valid: bool) -> Read<Self>
        ensures { result ≡ decode_open key_valid input.now }
    {
        let read = Self::fields(input);
        read.answered(read.body.is_valid(key_valid), HnsrInvalid::OpenParameters)
    }

    // The bytes of any body, by the name that numbers have for theirs: it is `encode` that looks at the values.
    pub fn to_bytes(self) -> [u8; Self::SIZE]
        ensures { result ≡ open_bytes self }
    {
        let mut bytes = [0u8; Self::SIZE];
        put_bytes_at(&mut bytes, Self::TICKET_ID, &self.ticket_id);
        put_bytes_at(
            &mut bytes,
            Self::RESERVATION_ID,
            &self.reservation_id.high.to_be_bytes(),
        );
        put_bytes_at(
            &mut bytes,
            Self::RESERVATION_ID + 8,
            &self.reservation_id.low.to_be_bytes(),
        );
        put_bytes_at(&mut bytes, Self::ENDPOINT_KEY, &self.endpoint_key);
        put_bytes_at(&mut bytes, Self::PROFILE, &self.profile.to_le_bytes());
        put_bytes_at(&mut bytes, Self::REQUESTER_NONCE, &self.requester_nonce);
        put_bytes_at(
            &mut bytes,
            Self::INITIAL_WINDOW,
            &self.initial_window.to_le_bytes(),
        );
        bytes
    }

    #[tactic(auto, unfolding(crate::specs::Open::encode_open))]
    pub fn encode(self, key_valid: bool) -> Result<[u8; Self::SIZE], HnsrProtocolError>
        ensures { result ≡ encode_open key_valid self }
    {
        answered(
            Ok(()),
            self.is_valid(key_valid),
            HnsrInvalid::OpenParameters,
        )?;
        Ok(self.to_bytes())
    }
}
