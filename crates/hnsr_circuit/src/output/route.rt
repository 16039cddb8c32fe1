// A queued route as output words (OUT.3).
ghost use Rattle.std.specs.Prelude.{◌≡◌, [], ◌+◌, ◌*◌, ◌≤◌, ◌<◌, length};
ghost use Rattle.hns_encoding.specs.Cursor.{written};
ghost use Rattle.hns_encoding.specs.Words.{word_count, words};
ghost use Rattle.hnsr_circuit.specs.Peer.{maximum_peer};
ghost use Rattle.hnsr_circuit.specs.Route.{address_words, head_words, kind_word};
ghost use Rattle.hnsr_circuit.specs.Route.{peer_words, packet_words, route_words};
ghost use Rattle.hnsr_circuit.specs.Queue.{route_for};
ghost use Rattle.hnsr_circuit.specs.Code.Progress.{message_of};

use crate::output::queue::Outgoing;
use crate::peer::MAXIMUM_PEER;
use hns_encoding::encoder::Encoder;
use hns_encoding::room::fits;
use hns_encoding::words::word_count;
use hnsr_body::data_body::DataBody;
use hnsr_body::messages::Message;

// A packet's body. Its length fits 16 bits, as the packet rule has it.
#[derive(Clone, Copy)]
pub struct PacketBody<'a> {
    pub bytes: &'a [u8],
    ghost short: { length bytes.now < 65536 },
}

impl PacketBody<'_> {
    pub(crate) fn length(self) -> u16
        ensures { result ≡ length self.entry.bytes.now }
    {
        self.bytes.len() as u16
    }
}

// Words of a peer, and of a route in front of its body: a kind word; generation and sequence; the peer; a kind word;
// the context.
const PEER_WORDS: usize = MAXIMUM_PEER / 4;

const ADDRESS_WORDS: usize = 1 + 2 + 2 + PEER_WORDS;

pub(crate) const HEAD_WORDS: usize = ADDRESS_WORDS + 1 + 2;

// What a call may write: a route with the longest DATA; two with the longest notice.
pub(crate) const HANDLE_WORDS: usize = HEAD_WORDS + DataBody::MAX_SIZE / 4;

pub(crate) const CLOSING_WORDS: usize = 2 * (HEAD_WORDS + (Message::MAX_SIZE + 3) / 4);

// The word in front of the address: kind 1, and how long the name is.
fn peer_word(size: usize) -> u32
    requires { size ≤ maximum_peer }
    ensures { result ≡ kind_word 1 size }
{
    0x1000_0000 + size as u32
}

// The word in front of the packet: kind 2, the opcode, and how long the body is.
fn packet_word(opcode: u8, size: u16) -> u32
    ensures { result ≡ kind_word 2 (opcode * 65536 + size) }
{
    0x2000_0000 + (u32::from(opcode) * 0x1_0000 + u32::from(size))
}

// ---- a route: where it is written it fits, so that no field asks for more room. The output, the place and the message
// go together through these three alone.

fn put_peer_words(out: &mut [u32], at: usize, message: Outgoing, generation: u64, sequence: u64)
    requires { at + address_words ≤ length out.old }
    ensures { out.new
        ≡ written out.old at (peer_words (route_for (message_of message []) generation sequence)) }
{
    let peer = message.destination;
    let length = peer.length();
    let word = peer_word(length);
    let _ = Encoder { position: at }.put_word(out, word);
    let _ = Encoder { position: at + 1 }.put_u64_as_words(out, generation);
    let _ = Encoder { position: at + 3 }.put_u64_as_words(out, sequence);
    let _ = Encoder { position: at + 5 }.put_padded_as_words(out, peer.name(), PEER_WORDS);
}

fn put_packet_words(out: &mut [u32], at: usize, message: Outgoing, body: PacketBody)
    requires { at + 3 + length (words body.bytes.now) ≤ length out.old }
    ensures { out.new
        ≡ written out.old at (packet_words (route_for (message_of message body.entry.bytes.now) 0 0)) }
{
    let word = packet_word(message.opcode, body.length());
    let _ = Encoder { position: at }.put_word(out, word);
    let _ = Encoder { position: at + 1 }.put_u64_be_as_words(out, message.context_id);
    let _ = Encoder { position: at + 3 }.put_bytes_as_words(out, body.bytes);
}

// How many words a route with so long a body takes.
pub(crate) fn route_size(body: PacketBody) -> usize
    ensures { result ≡ head_words + word_count (length body.entry.bytes.now) }
{
    HEAD_WORDS + word_count(body.bytes.len())
}

// The route's words at a place in the output: all of them, or, where they do not fit, none.
#[tactic(auto, using(crate::specs::Laws::Route::route_laws))]
pub(crate) fn put_route(
    out: &mut [u32],
    at: usize,
    message: Outgoing,
    generation: u64,
    sequence: u64,
    body: PacketBody,
)
    ensures { out.new
        ≡ written out.old at
        (route_words (route_for (message_of message body.entry.bytes.now) generation sequence)) }
{
    let size = route_size(body);
    if fits(out.len(), at, size) {
        put_peer_words(out, at, message, generation, sequence);
        put_packet_words(out, at + ADDRESS_WORDS, message, body);
    }
}
