// Rows that stand in front of calls: 22, 4, 7 (ENTRY), and 5.
ghost use Rattle.std.specs.Prelude.{◌≡◌, length};
ghost use Rattle.hnsr_circuit.specs.Entry.{too_few, peer_answer, clock_answer};
ghost use Rattle.hnsr_circuit.specs.Acknowledge.{generation_answer};

use crate::answer::{HnsrAnswer, HnsrRuntimeError, check};
use crate::config::OpaqueRelayConfig;
use crate::peer::MAXIMUM_PEER;
use crate::records::{InflightAction, RelayCircuit, RelayPending};

// 22 by tables (ENTRY.1), of which only the lengths are asked; the ledger has no maximum (ENTRY.6).
#[tactic(auto, unfolding(crate::specs::Entry::too_few))]
pub(crate) fn too_few(
    config: OpaqueRelayConfig,
    pending: &[RelayPending],
    circuits: &[RelayCircuit],
    inflight: &[InflightAction],
) -> bool
    ensures { result ≡ too_few config (length pending.now) (length circuits.now) (length inflight.now) }
{
    pending.len() < config.maximum_pending
        || circuits.len() < config.maximum_circuits
        || inflight.len() < config.maximum_inflight_actions
}

// 4 (ENTRY.2): a name too short or too long
#[tactic(auto, unfolding(crate::specs::Entry::peer_answer))]
pub(crate) fn peer_answer(size: usize) -> HnsrAnswer
    ensures { result ≡ peer_answer size }
{
    check(
        !(1..=MAXIMUM_PEER).contains(&size),
        HnsrRuntimeError::InvalidPeer,
    )
}

// 7 (ENTRY.4): the time goes back
#[tactic(auto, unfolding(crate::specs::Entry::clock_answer))]
pub(crate) fn clock_answer(high: u64, now: u64) -> HnsrAnswer
    ensures { result ≡ clock_answer high now }
{
    check(now < high, HnsrRuntimeError::ClockRollback)
}

// 5 (ACK.1, SWITCH.1): another generation is current
#[tactic(auto, unfolding(crate::specs::Acknowledge::generation_answer))]
pub(crate) fn generation_answer(current: u64, given: u64) -> HnsrAnswer
    ensures { result ≡ generation_answer current given }
{
    check(given != current, HnsrRuntimeError::StaleGeneration)
}
