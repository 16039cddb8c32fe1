// Why a body or a packet is refused, as in the Rust: each case has its number and values in specs/Causes.antt.
ghost use Rattle.std.specs.Prelude.{◌≡◌};
ghost use Rattle.hnsr_body.specs.declared.error.HnsrProtocolError.TheVariants.{Decode, Invalid};
ghost use Rattle.hnsr_body.specs.Causes.{cause_numbers, decode_cause, error_cause};

use hns_encoding::DecodeError;

// Which text an `Invalid` carries; the number is what a host gets.
#[derive(Clone, Copy, Debug, PartialEq, Eq)]
pub enum HnsrInvalid {
    // HNSR context ID is zero
    ContextZero = 1,
    // invalid HNSR open parameters
    OpenParameters = 2,
    // invalid HNSR incoming parameters
    IncomingParameters = 3,
    // invalid HNSR accept response
    AcceptResponse = 4,
    // HNSR circuit ID is zero
    CircuitZero = 5,
    // invalid HNSR DATA size
    DataSize = 6,
    // invalid HNSR window credit
    WindowCredit = 7,
    // invalid HNSR diagnostic detail
    DiagnosticDetail = 8,
    // HNSR detail is not UTF-8
    NotUtf8 = 9,
}

#[derive(Clone, Copy, Debug, PartialEq, Eq)]
pub enum HnsrProtocolError {
    Decode(DecodeError),
    Invalid(HnsrInvalid),
    TooLarge { actual: usize, maximum: usize },
    // The reservation's service did not admit an OPEN.
    Admission,
}

impl From<DecodeError> for HnsrProtocolError {
    ghost from_gives = { λ error cause. cause ≡ Decode error };

    fn from(error: DecodeError) -> Self {
        Self::Decode(error)
    }
}

impl From<HnsrInvalid> for HnsrProtocolError {
    ghost from_gives = { λ text cause. cause ≡ Invalid text };

    fn from(text: HnsrInvalid) -> Self {
        Self::Invalid(text)
    }
}

// A cause in numbers, for a host: its kind, 0 where there is none, and its values.
#[repr(C)]
#[derive(Clone, Copy, Debug, PartialEq, Eq)]
pub struct Cause {
    pub kind: u32,
    pub first: u64,
    pub second: u64,
}

impl Cause {
    pub const NONE: Self = Self {
        kind: 0,
        first: 0,
        second: 0,
    };
}

impl From<DecodeError> for Cause {
    ghost from_gives = { λ error cause. cause ≡ decode_cause error };

    fn from(error: DecodeError) -> Self {
        match error {
            DecodeError::UnexpectedEnd { offset, needed } => Self {
                kind: 1,
                first: offset as u64,
                second: needed as u64,
            },
            DecodeError::TrailingBytes { remaining } => Self {
                kind: 2,
                first: remaining as u64,
                second: 0,
            },
        }
    }
}

// Kinds as numbers, since a host gets numbers.
impl From<HnsrProtocolError> for Cause {
    ghost from_gives = { λ error cause. cause ≡ error_cause error };

    fn from(error: HnsrProtocolError) -> Self {
        match error {
            HnsrProtocolError::Decode(error) => error.into(),
            HnsrProtocolError::Invalid(text) => Self {
                kind: 3,
                first: text as u64,
                second: 0,
            },
            HnsrProtocolError::TooLarge { actual, maximum } => Self {
                kind: 4,
                first: actual as u64,
                second: maximum as u64,
            },
            HnsrProtocolError::Admission => Self {
                kind: 5,
                ..Self::NONE
            },
        }
    }
}

impl<T: Drop> From<Result<T, HnsrProtocolError>> for Cause {
    ghost from_gives = { λ answer cause. cause ≡ cause_numbers answer };

    fn from(answer: Result<T, HnsrProtocolError>) -> Self {
        match answer {
            Ok(_) => Self::NONE,
            Err(error) => error.into(),
        }
    }
}
