// The seven messages by which the relay ends a record (NOTICE.1 to NOTICE.7), as constants.
ghost use Rattle.std.specs.Prelude.{◌≡◌};
ghost use Rattle.hnsr_body.specs.Messages.{message_of, notice_written};

use crate::detail_body::ReasonDetail;
use crate::fields::put_bytes_at;
use crate::layout::Padded;

#[derive(Clone, Copy, Debug, PartialEq, Eq)]
pub enum Notice {
    PeerDisconnected,
    ReservationRevoked,
    AcceptanceExpired,
    TicketExpired,
    RelayDisabled,
    EndpointWriteFailed,
    OuterWriteFailed,
}

// The detail is `length` bytes, with zeros behind them: no heap, and the seven stand in a constant table.
#[derive(Clone, Copy)]
pub struct Message {
    pub reason: u16,
    pub length: u8,
    pub detail: [u8; Message::MAX_DETAIL],
}

impl Message {
    // The longest of the seven.
    pub const MAX_DETAIL: usize = 27;

    pub const MAX_SIZE: usize = ReasonDetail::DETAIL + Self::MAX_DETAIL;
}

// In the order of the notices.
const MESSAGES: [Message; 7] = [
    Message {
        reason: 11,
        length: 23,
        detail: *b"outer peer disconnected\0\0\0\0",
    },
    Message {
        reason: 6,
        length: 19,
        detail: *b"reservation revoked\0\0\0\0\0\0\0\0",
    },
    Message {
        reason: 8,
        length: 27,
        detail: *b"endpoint acceptance expired",
    },
    Message {
        reason: 6,
        length: 20,
        detail: *b"relay ticket expired\0\0\0\0\0\0\0",
    },
    Message {
        reason: 15,
        length: 21,
        detail: *b"opaque relay disabled\0\0\0\0\0\0",
    },
    Message {
        reason: 11,
        length: 21,
        detail: *b"endpoint write failed\0\0\0\0\0\0",
    },
    Message {
        reason: 11,
        length: 18,
        detail: *b"outer write failed\0\0\0\0\0\0\0\0\0",
    },
];

impl Notice {
    #[tactic(auto, unfolding(crate::specs::Messages::message_of, hns_encoding::specs::Bytes::padded))]
    pub fn message(self) -> Message
        ensures { result ≡ message_of self }
    {
        MESSAGES[self as usize]
    }

    // The body of the CLOSE or ERROR that carries it.
    pub fn encode(self) -> Padded<{ Message::MAX_SIZE }>
        ensures { result ≡ notice_written self }
    {
        let mut bytes = [0; Message::MAX_SIZE];
        let message = self.message();
        put_bytes_at(
            &mut bytes,
            ReasonDetail::REASON,
            &message.reason.to_le_bytes(),
        );
        put_bytes_at(&mut bytes, ReasonDetail::LENGTH, &[message.length]);
        put_bytes_at(&mut bytes, ReasonDetail::DETAIL, &message.detail);
        Padded {
            length: ReasonDetail::DETAIL + message.length as usize,
            bytes,
        }
    }
}
