// DATA: its rows, over numbers and records by value.
ghost use Rattle.std.specs.Prelude.{◌≡◌};
ghost use Rattle.hnsr_circuit.specs.Data.{flow_answer};
ghost use Rattle.hnsr_circuit.specs.Code.Plans.{booked_for};

use crate::answer::{HnsrAnswer, HnsrRuntimeError, check};
use crate::config::OpaqueRelayConfig;
use crate::output::queue::Outgoing;
use crate::records::circuits::{credit_of, queued_to};
use crate::records::{RelayCircuit, RelaySide, ReservationUsage};
use crate::tables::lookup::Found;
use crate::tables::scan::ActionScan;

// The ledger record of the circuit's reservation. 11, 18 (DATA.5, DATA.6): there is none, or it or the circuit has too
// few bytes left
#[tactic(auto, unfolding(crate::specs::Data::bytes_answer))]
pub(crate) fn booked_for(
    booked: Option<Found<ReservationUsage>>,
    circuit: RelayCircuit,
    n: u64,
) -> Result<Found<ReservationUsage>, HnsrRuntimeError>
    ensures { result ≡ booked_for booked circuit n }
{
    let found = booked.ok_or(HnsrRuntimeError::InvalidAdmission)?;
    check(
        circuit.maximum_bytes < circuit.forwarded_bytes.saturating_add(n)
            || circuit.maximum_total_bytes < found.row.bytes.saturating_add(n),
        HnsrRuntimeError::ByteLimit,
    )?;
    Ok(found)
}

// 17 (DATA.7): more than the sender's credit, or more than the queue still takes
#[tactic(auto, unfolding(crate::specs::Data::flow_answer))]
pub(crate) fn flow_answer(
    config: OpaqueRelayConfig,
    circuit: RelayCircuit,
    side: RelaySide,
    n: usize,
) -> HnsrAnswer
    ensures { result ≡ flow_answer config circuit side n }
{
    let credit = credit_of(side, circuit) as usize;
    let queued = queued_to(side.other(), circuit);
    check(
        credit < n || config.maximum_queue_bytes < queued.saturating_add(n),
        HnsrRuntimeError::FlowControl,
    )
}

// What a DATA that is taken does: the places of the circuit and of the ledger record, and the side that is charged; the
// message, with what it asked of the actions.
#[derive(Clone, Copy)]
pub struct DataPlan {
    pub place: usize,
    pub side: RelaySide,
    pub usage_place: usize,
    pub message: Outgoing,
    pub scan: ActionScan,
}
