// DATA: bytes that are passed on as they are. WINDOW: credit for the other side.
ghost use Rattle.std.specs.Prelude.{◌≡◌, length};
ghost use Rattle.hnsr_body.specs.Data.{data_checked, data_good, decode_window, delta_good, encode_window};
ghost use Rattle.hnsr_body.specs.Data.{window_bytes, window_fields, window_widths};
ghost use Rattle.hnsr_body.specs.Layout.{laid_out};

use crate::error::{HnsrInvalid, HnsrProtocolError};
use crate::fields::{next_array, put_bytes_at, start};
use crate::layout::{Read, answered, finish};
use crate::values::MAX_WINDOW;

// Its bytes are its body, of which a value holds the length.
#[derive(Clone, Copy)]
pub struct DataBody {
    pub length: usize,
}

#[repr(C)]
#[derive(Clone, Copy)]
pub struct WindowBody {
    pub credit_delta: u32,
}

impl DataBody {
    pub const MIN_SIZE: usize = 1;

    pub const MAX_SIZE: usize = 16_384;

    fn is_size(size: usize) -> bool
        ensures { result ≡ data_good size }
    {
        (Self::MIN_SIZE..=Self::MAX_SIZE).contains(&size)
    }

    // Whether so many bytes are a DATA; reading and writing are this one check.
    #[tactic(auto, unfolding(crate::specs::Data::data_checked))]
    pub fn check(size: usize) -> Result<(), HnsrProtocolError>
        ensures { result ≡ data_checked size }
    {
        answered(Ok(()), Self::is_size(size), HnsrInvalid::DataSize)
    }

    pub fn decode(input: &[u8]) -> Result<(), HnsrProtocolError>
        ensures { result ≡ data_checked (length input.now) }
    {
        Self::check(input.len())
    }
}

impl WindowBody {
    pub const CREDIT_DELTA: usize = 0;

    pub const SIZE: usize = Self::CREDIT_DELTA + 4;

    pub const MIN_DELTA: u32 = 1;

    pub const MAX_DELTA: u32 = MAX_WINDOW;

    // Its one field; the result is the layout's.
    fn fields(input: &[u8]) -> Read<Self>
        ensures { (result.result ≡ laid_out window_widths input.now) × (result.body ≡ window_fields input.now) }
    {
        let (credit_delta, step) = next_array(start(), input);
        Read {
            result: finish(step, input),
            body: Self {
                credit_delta: u32::from_le_bytes(credit_delta),
            },
        }
    }

    fn is_valid(self) -> bool
        ensures { result ≡ delta_good self.credit_delta }
    {
        (Self::MIN_DELTA..=Self::MAX_DELTA).contains(&self.credit_delta)
    }

    // Two lines, and no trait for them: `layout::answered` says why.
    #[tactic(auto, unfolding(crate::specs::Data::decode_window))]
    pub fn decode(input: &[u8]) -> Read<Self>
        ensures { result ≡ decode_window input.now }
    {
        let read = Self::fields(input);
        read.answered(read.body.is_valid(), HnsrInvalid::WindowCredit)
    }

    // The bytes of any body, by the name that numbers have for theirs: it is `encode` that looks at the values.
    #[tactic(auto, unfolding(crate::specs::Data::window_bytes, hns_encoding::specs::Bytes::le_bytes))]
    pub fn to_bytes(self) -> [u8; Self::SIZE]
        ensures { result ≡ window_bytes self }
    {
        let mut bytes = [0u8; Self::SIZE];
        put_bytes_at(
            &mut bytes,
            Self::CREDIT_DELTA,
            &self.credit_delta.to_le_bytes(),
        );
        bytes
    }

    #[tactic(auto, unfolding(crate::specs::Data::encode_window))]
    pub fn encode(self) -> Result<[u8; Self::SIZE], HnsrProtocolError>
        ensures { result ≡ encode_window self }
    {
        answered(Ok(()), self.is_valid(), HnsrInvalid::WindowCredit)?;
        Ok(self.to_bytes())
    }
}
