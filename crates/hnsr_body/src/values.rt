// Values that the bodies share: ids and nonces that are not zero, windows, and reservation ids.
ghost use Rattle.std.specs.Prelude.{◌≡◌};
ghost use Rattle.hns_encoding.specs.Bytes.{all_zero};
ghost use Rattle.hnsr_body.specs.Values.{reservation_of, window_good};

pub const MIN_WINDOW: u32 = 16_384;

pub const MAX_WINDOW: u32 = 1_048_576;

// A reservation id: the first eight bytes on the wire, then the other eight; the first byte of each weighs most.
#[repr(C)]
#[derive(Clone, Copy, Debug, PartialEq, Eq)]
pub struct ReservationId {
    pub high: u64,
    pub low: u64,
}

impl ReservationId {
    // No reservation's: sixteen bytes of zero.
    pub const NONE: Self = Self { high: 0, low: 0 };
}

impl From<[u8; 16]> for ReservationId {
    ghost from_gives = { λ bytes id. id ≡ reservation_of bytes };

    #[tactic(auto, using(hns_encoding::specs::Laws::Library::be_eight))]
    fn from(bytes: [u8; 16]) -> Self {
        let (halves, _) = bytes.as_chunks();
        Self {
            high: u64::from_be_bytes(halves[0]),
            low: u64::from_be_bytes(halves[1]),
        }
    }
}

// Whether every byte is zero. One call of the library, with a name: the contracts of two crates say `all_zero`.
pub fn is_zero(value: &[u8]) -> bool
    ensures { result ≡ all_zero value.now }
{
    value.iter().all(|byte| *byte == 0)
}

pub fn is_window(window: u32) -> bool
    ensures { result ≡ window_good window }
{
    (MIN_WINDOW..=MAX_WINDOW).contains(&window)
}
