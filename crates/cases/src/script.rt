// The cases as data: a limit, and what comes after the OPEN.
use crate::script::Opcode::{Close, Error, Window};
use crate::script::Peer::{Endpoint, Requester, Stranger};
use hnsr_circuit::config::OpaqueRelayConfig;

// The messages, by opcode.
#[derive(Clone, Copy)]
pub(crate) enum Opcode {
    Open = 13,
    Accept = 15,
    Data = 17,
    Window = 18,
    Close = 19,
    Error = 20,
}

// The peers; a name is its number, in one byte.
#[derive(Clone, Copy)]
pub(crate) enum Peer {
    Requester = 1,
    Endpoint = 2,
    Stranger = 3,
}

// A call after the OPEN.
#[derive(Clone, Copy)]
pub(crate) enum Step {
    // When the endpoint's comes.
    Accept(u64),
    // From whom, when, and of how many bytes.
    Data(Peer, u64, usize),
    // Any other message, from whom, and its body.
    Packet(Opcode, Peer, &'static [u8]),
    // The route of the first DATA was delivered.
    Delivered,
}

// A limit of the relay's, how many bytes may be queued, and the calls; the answer is that of the last.
#[derive(Clone, Copy)]
pub(crate) struct Case(pub usize, pub &'static [Step]);

const QUEUE: usize = OpaqueRelayConfig::MAX_CIRCUIT_QUEUE;

const ACCEPT: Step = Step::Accept(100);

const MOST: Step = Step::Data(Requester, 100, 16384);

// In the order of their numbers, as docs/RULES.md says them (CASE).
pub(crate) const CASES: [Case; 16] = [
    Case(QUEUE, &[ACCEPT, Step::Data(Requester, 100, 0)]),
    Case(QUEUE, &[ACCEPT, MOST]),
    Case(QUEUE, &[ACCEPT, Step::Data(Requester, 100, 16385)]),
    Case(QUEUE, &[ACCEPT, MOST, Step::Data(Requester, 100, 3617)]),
    Case(QUEUE, &[ACCEPT, MOST, Step::Data(Requester, 100, 3616)]),
    Case(
        QUEUE,
        &[ACCEPT, Step::Packet(Window, Endpoint, b"\x00\x80\x0F\x00")],
    ),
    Case(
        QUEUE,
        &[ACCEPT, Step::Packet(Window, Endpoint, b"\x01\x80\x0F\x00")],
    ),
    Case(
        QUEUE,
        &[ACCEPT, Step::Packet(Window, Endpoint, b"\x00\x00\x00\x00")],
    ),
    Case(QUEUE, &[ACCEPT, Step::Data(Requester, 99, 1)]),
    Case(QUEUE, &[Step::Accept(110)]),
    Case(QUEUE, &[Step::Accept(109)]),
    Case(
        QUEUE,
        &[ACCEPT, Step::Packet(Error, Requester, b"\xFF\xFF\x00")],
    ),
    Case(
        QUEUE,
        &[
            ACCEPT,
            Step::Packet(Close, Requester, b"\x00\x00\x02\xC0\x80"),
        ],
    ),
    Case(QUEUE, &[ACCEPT, Step::Data(Stranger, 100, 1)]),
    Case(16384, &[ACCEPT, MOST, Step::Data(Requester, 100, 1)]),
    Case(
        16384,
        &[ACCEPT, MOST, Step::Delivered, Step::Data(Requester, 100, 1)],
    ),
];
