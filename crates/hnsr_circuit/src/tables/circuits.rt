// What is asked of circuits alone.
ghost use Rattle.std.specs.Prelude.{◌≡◌};
ghost use Rattle.hnsr_circuit.specs.Code.Held.{held_circuits};
ghost use Rattle.hnsr_circuit.specs.Status.{circuit_totals};

use crate::records::RelayCircuit;
use crate::tables::places::Places;
use crate::tables::scan::{CircuitTotals, circuit_totalled};
use crate::tables::table::in_use;

// What `status` asks of the table, in one pass.
#[tactic(auto, using(hns_encoding::specs::Loops::fold_step, crate::specs::Laws::HeldTables::totals_seen))]
pub(crate) fn circuit_totals(circuits: &[RelayCircuit], places: Places) -> CircuitTotals
    ensures { result ≡ circuit_totals (held_circuits places circuits.now) }
{
    let seen = in_use(circuits, places.circuits);
    let mut totals = CircuitTotals::default();
    for row in seen {
        totals = circuit_totalled(totals, row);
    }
    totals
}
