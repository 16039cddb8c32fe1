// As it was before: each record is copied, and its names are compared by value, byte by byte up to the first that
// differs.
ghost use Rattle.std.specs.Prelude.{◌≡◌};
ghost use Rattle.hnsr_circuit.specs.Peer.{same_bytes, same_peer};
ghost use Rattle.peer_work.specs.Work.{work_of};

use crate::copied::{Comparison, work};
use hnsr_circuit::peer::{HnsrPeerId, MAXIMUM_PEER};
use hnsr_circuit::records::{RelayCircuit, RelayPending};

struct Bytewise;

// A byte at a time, since that is what is timed here: `==` would compare several at once.
fn same_names(a: &[u8], b: &[u8]) -> bool
    ensures { result ≡ same_bytes a.now b.now }
{
    a.len() == b.len() && a.iter().zip(b).all(|(x, y)| x == y)
}

impl Comparison for Bytewise {
    #[tactic(auto, unfolding(hnsr_circuit::specs::Peer::same_peer, hnsr_circuit::specs::Peer::peer_bytes))]
    fn same(a: HnsrPeerId, b: HnsrPeerId) -> bool {
        same_names(
            &a.bytes[..a.len.min(MAXIMUM_PEER)],
            &b.bytes[..b.len.min(MAXIMUM_PEER)],
        )
    }
}

// A name of the C interface, with its parameters; what it does is `copied::work`.
#[unsafe(no_mangle)]
pub extern "C" fn peer_work_bytewise(
    pending: &[RelayPending],
    circuits: &[RelayCircuit],
    peer: HnsrPeerId,
) -> usize
    ensures { result ≡ work_of peer pending.now circuits.now }
{
    work::<Bytewise>(pending, circuits, peer)
}
