// A packet of a circuit: its row, and the message that takes it on to the other side.
ghost use Rattle.std.specs.Prelude.{◌≡◌};
ghost use Rattle.hnsr_circuit.specs.Code.Message.{own_circuit, passed_on, data_on, close_on, translated_on};

use crate::answer::{HnsrRuntimeError, check};
use crate::output::queue::Outgoing;
use crate::peer::HnsrPeerId;
use crate::records::circuits::{is_side, receiver, side_of};
use crate::records::{InflightKind, RelayCircuit, RelayPending};
use crate::runtime::RelayPacket;
use crate::tables::lookup::Found;

// The circuit that a packet names. 14, 15 (DATA.2, DATA.3 and their like): there is none, or the peer is no side
pub(crate) fn own_circuit(
    named: Option<Found<RelayCircuit>>,
    peer: HnsrPeerId,
) -> Result<Found<RelayCircuit>, HnsrRuntimeError>
    ensures { result ≡ own_circuit named peer }
{
    let found = named.ok_or(HnsrRuntimeError::UnknownCircuit)?;
    check(!is_side(&peer, &found.row), HnsrRuntimeError::WrongPeer)?;
    Ok(found)
}

// The packet itself, on to the other side: same opcode and context.
pub(crate) fn passed_on(
    packet: RelayPacket,
    circuit: RelayCircuit,
    peer: HnsrPeerId,
    kind: InflightKind,
) -> Outgoing
    ensures { result ≡ passed_on packet circuit peer kind }
{
    let id = packet.context_id;
    Outgoing::new(receiver(circuit, peer), id, packet.opcode, id, kind)
}

// A CLOSE or ERROR about a circuit or pending record: stored as Close under the circuit id.
pub(crate) fn closing(
    destination: HnsrPeerId,
    circuit_id: u64,
    opcode: u8,
    context_id: u64,
) -> Outgoing
    ensures { result ≡ close_on destination circuit_id opcode context_id }
{
    Outgoing::new(
        destination,
        circuit_id,
        opcode,
        context_id,
        InflightKind::Close,
    )
}

// A CLOSE or ERROR to the other side of a pending record. CLOSE.11: each side hears the number that it knows.
pub(crate) fn translated_on(opcode: u8, pending: RelayPending, peer: HnsrPeerId) -> Outgoing
    ensures { result ≡ translated_on opcode pending peer }
{
    let id = pending.circuit_id;
    if pending.requester == peer {
        closing(pending.endpoint, id, opcode, id)
    } else {
        closing(pending.requester, id, opcode, pending.requester_context)
    }
}

// DATA, with the side that it goes to and its bytes.
pub(crate) fn data_on(
    packet: RelayPacket,
    circuit: RelayCircuit,
    peer: HnsrPeerId,
    n: usize,
) -> Outgoing
    ensures { result ≡ data_on packet circuit peer n }
{
    Outgoing {
        to_endpoint: side_of(peer, circuit).other().to_endpoint(),
        bytes: n,
        ..passed_on(packet, circuit, peer, InflightKind::Data)
    }
}
