// As the relay does it: names are compared where they stand in the record, and nothing is copied.
ghost use Rattle.std.specs.Prelude.{◌≡◌};
ghost use Rattle.peer_work.specs.Work.{work_of};

use hnsr_circuit::peer::HnsrPeerId;
use hnsr_circuit::records::circuits::circuit_of;
use hnsr_circuit::records::pending::pending_of;
use hnsr_circuit::records::{RelayCircuit, RelayPending};

// The parameters of the C interface.
#[unsafe(no_mangle)]
pub extern "C" fn peer_work_in_place(
    pending: &[RelayPending],
    circuits: &[RelayCircuit],
    peer: HnsrPeerId,
) -> usize
    ensures { result ≡ work_of peer pending.now circuits.now }
{
    let waiting = pending.iter().filter(|p| pending_of(p, &peer)).count();
    let running = circuits.iter().filter(|c| circuit_of(c, &peer)).count();
    waiting.saturating_add(running)
}
