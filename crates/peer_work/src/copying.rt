// Each record is copied, and so are its names, with the comparison that in_place has: what differs is the copy.
ghost use Rattle.std.specs.Prelude.{◌≡◌};
ghost use Rattle.peer_work.specs.Work.{work_of};

use crate::copied::{Comparison, work};
use hnsr_circuit::peer::HnsrPeerId;
use hnsr_circuit::records::{RelayCircuit, RelayPending};

struct Whole;

impl Comparison for Whole {
    fn same(a: HnsrPeerId, b: HnsrPeerId) -> bool {
        a == b
    }
}

// A name of the C interface, with its parameters; what it does is `copied::work`.
#[unsafe(no_mangle)]
pub extern "C" fn peer_work_copying(
    pending: &[RelayPending],
    circuits: &[RelayCircuit],
    peer: HnsrPeerId,
) -> usize
    ensures { result ≡ work_of peer pending.now circuits.now }
{
    work::<Whole>(pending, circuits, peer)
}
