// One peer's work over copies of the records. How two names are compared is a parameter.
ghost use Rattle.std.specs.Prelude.{◌≡◌, ◌||◌};
ghost use Rattle.hnsr_circuit.specs.Peer.{same_peer};
ghost use Rattle.peer_work.specs.Work.{work_of};

use hnsr_circuit::peer::HnsrPeerId;
use hnsr_circuit::records::{RelayCircuit, RelayPending};

// A comparison of names by value.
pub(crate) trait Comparison {
    fn same(a: HnsrPeerId, b: HnsrPeerId) -> bool
        ensures { result ≡ same_peer a b };
}

// Whether one of two names, each a copy, is the peer's: by the comparison that is timed, where `==` would stand.
fn either<C: Comparison>(a: HnsrPeerId, b: HnsrPeerId, peer: HnsrPeerId) -> bool
    ensures { result ≡ (same_peer a peer || same_peer b peer) }
{
    C::same(a, peer) || C::same(b, peer)
}

// With the parameters of the two calls.
#[tactic(auto, unfolding(hnsr_circuit::specs::Pending::pending_of, hnsr_circuit::specs::Circuits::circuit_of))]
pub(crate) fn work<C: Comparison>(
    pending: &[RelayPending],
    circuits: &[RelayCircuit],
    peer: HnsrPeerId,
) -> usize
    ensures { result ≡ work_of peer pending.now circuits.now }
{
    let waiting = pending
        .iter()
        .filter(|row| {
            let p = **row;
            p.used && either::<C>(p.requester, p.endpoint, peer)
        })
        .count();
    let running = circuits
        .iter()
        .filter(|row| {
            let c = **row;
            c.used && either::<C>(c.requester, c.endpoint, peer)
        })
        .count();
    waiting.saturating_add(running)
}
