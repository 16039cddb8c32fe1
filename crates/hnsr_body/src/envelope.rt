// The packet rule.
ghost use Rattle.std.specs.Prelude.{◌≡◌};
ghost use Rattle.hnsr_body.specs.Packet.{packet_checked};

use crate::error::{HnsrInvalid, HnsrProtocolError};

// A packet: its opcode, context and how long its body is, which stands beside it.
#[derive(Clone, Copy)]
pub struct HnsrPacket {
    pub opcode: u8,
    pub context_id: u64,
    pub body_length: usize,
}

impl HnsrPacket {
    pub const HEADER_SIZE: usize = 12;

    pub const MAX_SIZE: usize = 65_535;

    pub const SAMPLE_ROUTES: u8 = 6;

    #[tactic(auto, unfolding(crate::specs::Packet::packet_checked))]
    pub fn validate(self) -> Result<(), HnsrProtocolError>
        ensures { result ≡ packet_checked self.opcode self.context_id self.body_length }
    {
        let total = Self::HEADER_SIZE.saturating_add(self.body_length);
        if Self::MAX_SIZE < total {
            return Err(HnsrProtocolError::TooLarge {
                actual: total,
                maximum: Self::MAX_SIZE,
            });
        }
        if self.context_id == 0 && self.opcode != Self::SAMPLE_ROUTES {
            return Err(HnsrInvalid::ContextZero.into());
        }
        Ok(())
    }
}
