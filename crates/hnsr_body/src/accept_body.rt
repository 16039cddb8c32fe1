// ACCEPT: an endpoint takes a circuit. OPENED: the relay tells the requester; it is a circuit id and then ACCEPT.
ghost use Rattle.std.specs.Prelude.{◌≡◌};
ghost use Rattle.hnsr_body.specs.Accept.{accept_bytes, accept_fields, accept_good};
ghost use Rattle.hnsr_body.specs.Accept.{accept_widths, decode_accept, decode_opened, encode_accept};
ghost use Rattle.hnsr_body.specs.Accept.{encode_opened, opened_answer, opened_bytes, opened_fields};
ghost use Rattle.hnsr_body.specs.Accept.{opened_rest, opened_widths};
ghost use Rattle.hnsr_body.specs.Layout.{laid_out};

use crate::error::{HnsrInvalid, HnsrProtocolError};
use crate::fields::{next_array, put_bytes_at, start};
use crate::layout::{Read, answered, finish};
use crate::values::{is_window, is_zero};

#[repr(C)]
#[derive(Clone, Copy)]
pub struct AcceptBody {
    pub accepted_window: u32,
    pub endpoint_nonce: [u8; 16],
}

#[repr(C)]
#[derive(Clone, Copy)]
pub struct OpenedBody {
    pub circuit_id: u64,
    pub accepted_window: u32,
    pub endpoint_nonce: [u8; 16],
}

impl AcceptBody {
    // Where each field starts, and the size.
    pub const ACCEPTED_WINDOW: usize = 0;

    pub const ENDPOINT_NONCE: usize = Self::ACCEPTED_WINDOW + 4;

    pub const SIZE: usize = Self::ENDPOINT_NONCE + 16;

    // Field after field, each from the step that the one before handed back; the result is the layout's.
    fn fields(input: &[u8]) -> Read<Self>
        ensures { (result.result ≡ laid_out accept_widths input.now) × (result.body ≡ accept_fields input.now) }
    {
        let (accepted_window, step) = next_array(start(), input);
        let (endpoint_nonce, step) = next_array(step, input);
        Read {
            result: finish(step, input),
            body: Self {
                accepted_window: u32::from_le_bytes(accepted_window),
                endpoint_nonce,
            },
        }
    }

    #[tactic(auto, unfolding(crate::specs::Accept::accept_good))]
    fn is_valid(self) -> bool
        ensures { result ≡ accept_good self }
    {
        is_window(self.accepted_window) && !is_zero(&self.endpoint_nonce)
    }

    // Two lines, and no trait for them: `layout::answered` says why.
    #[tactic(auto, unfolding(crate::specs::Accept::decode_accept))]
    pub fn decode(input: &[u8]) -> Read<Self>
        ensures { result ≡ decode_accept input.now }
    {
        let read = Self::fields(input);
        read.answered(read.body.is_valid(), HnsrInvalid::AcceptResponse)
    }

    // The bytes of any body, by the name that numbers have for theirs: it is `encode` that looks at the values.
    #[tactic(auto, unfolding(crate::specs::Accept::accept_bytes, hns_encoding::specs::Bytes::le_bytes))]
    pub fn to_bytes(self) -> [u8; Self::SIZE]
        ensures { result ≡ accept_bytes self }
    {
        let mut bytes = [0u8; Self::SIZE];
        put_bytes_at(
            &mut bytes,
            Self::ACCEPTED_WINDOW,
            &self.accepted_window.to_le_bytes(),
        );
        put_bytes_at(&mut bytes, Self::ENDPOINT_NONCE, &self.endpoint_nonce);
        bytes
    }

    #[tactic(auto, unfolding(crate::specs::Accept::encode_accept))]
    pub fn encode(self) -> Result<[u8; Self::SIZE], HnsrProtocolError>
        ensures { result ≡ encode_accept self }
    {
        answered(Ok(()), self.is_valid(), HnsrInvalid::AcceptResponse)?;
        Ok(self.to_bytes())
    }
}

impl OpenedBody {
    // Where each field starts, and the size.
    pub const CIRCUIT_ID: usize = 0;

    pub const ACCEPTED_WINDOW: usize = Self::CIRCUIT_ID + 8;

    pub const ENDPOINT_NONCE: usize = Self::ACCEPTED_WINDOW + AcceptBody::ENDPOINT_NONCE;

    pub const SIZE: usize = Self::ACCEPTED_WINDOW + AcceptBody::SIZE;

    // Field after field, each from the step that the one before handed back; the result is the layout's.
    fn fields(input: &[u8]) -> Read<Self>
        ensures { (result.result ≡ laid_out opened_widths input.now) × (result.body ≡ opened_fields input.now) }
    {
        let (circuit_id, step) = next_array(start(), input);
        let (accepted_window, step) = next_array(step, input);
        let (endpoint_nonce, step) = next_array(step, input);
        Read {
            result: finish(step, input),
            body: Self {
                circuit_id: u64::from_be_bytes(circuit_id),
                accepted_window: u32::from_le_bytes(accepted_window),
                endpoint_nonce,
            },
        }
    }

    // The part of it that ACCEPT has.
    fn accepted(self) -> AcceptBody
        ensures { result ≡ opened_rest self }
    {
        let endpoint_nonce = self.endpoint_nonce;
        AcceptBody {
            accepted_window: self.accepted_window,
            endpoint_nonce,
        }
    }

    // The circuit id is tested first, with a text of its own.
    fn answered(self, layout: Result<(), HnsrProtocolError>) -> Result<(), HnsrProtocolError>
        ensures { result ≡ opened_answer layout self }
    {
        let named = answered(layout, self.circuit_id != 0, HnsrInvalid::CircuitZero);
        answered(
            named,
            self.accepted().is_valid(),
            HnsrInvalid::AcceptResponse,
        )
    }

    #[tactic(auto, unfolding(crate::specs::Accept::decode_opened))]
    pub fn decode(input: &[u8]) -> Read<Self>
        ensures { result ≡ decode_opened input.now }
    {
        let Read {
            result: layout,
            body,
        } = Self::fields(input);
        Read {
            result: body.answered(layout),
            body,
        }
    }

    // The bytes of any body, by the name that numbers have for theirs: it is `encode` that looks at the values.
    pub fn to_bytes(self) -> [u8; Self::SIZE]
        ensures { result ≡ opened_bytes self }
    {
        let mut bytes = [0u8; Self::SIZE];
        put_bytes_at(&mut bytes, Self::CIRCUIT_ID, &self.circuit_id.to_be_bytes());
        put_bytes_at(
            &mut bytes,
            Self::ACCEPTED_WINDOW,
            &self.accepted_window.to_le_bytes(),
        );
        put_bytes_at(&mut bytes, Self::ENDPOINT_NONCE, &self.endpoint_nonce);
        bytes
    }

    #[tactic(auto, unfolding(crate::specs::Accept::encode_opened))]
    pub fn encode(self) -> Result<[u8; Self::SIZE], HnsrProtocolError>
        ensures { result ≡ encode_opened self }
    {
        self.answered(Ok(()))?;
        Ok(self.to_bytes())
    }
}
