// Outstanding actions: a table's records, the kinds, what is asked of one where it stands, and the action capacity.
ghost use Rattle.std.specs.Prelude.{◌≡◌};
ghost use Rattle.hnsr_circuit.specs.Inflight.{no_action, kind_number, kind_of, to_endpoint, toward_side};
ghost use Rattle.hnsr_circuit.specs.Inflight.{is_action, action_at, action_under, action_toward};
ghost use Rattle.hnsr_circuit.specs.Inflight.{clear_action, capacity_left, capacity_answer};
ghost use Rattle.hnsr_circuit.specs.Laws.Records.{action_unused, action_still};

use crate::answer::{HnsrAnswer, HnsrRuntimeError, check};
use crate::config::OpaqueRelayConfig;
use crate::peer::HnsrPeerId;
use crate::records::{InflightAction, InflightKind, RelaySide};
use crate::tables::record::TableRecord;
use crate::tables::scan::InflightTally;

impl TableRecord for InflightAction {
    ghost is_used = { is_action };

    ghost unmarked = { clear_action };

    ghost none = { no_action };

    ghost unused = { action_unused };

    ghost still = { action_still };

    #[tactic(auto, unfolding(crate::specs::Inflight::is_action))]
    fn is_used(&self) -> bool {
        self.used
    }

    fn unmarked(self) -> InflightAction {
        InflightAction {
            used: false,
            ..self
        }
    }

    fn none() -> InflightAction {
        InflightAction {
            used: false,
            generation: 0,
            sequence: 0,
            circuit_id: 0,
            destination: HnsrPeerId::NOBODY,
            kind: 0,
            to_endpoint: false,
            bytes: 0,
        }
    }
}

// ---- kinds: a record holds a number, since it lies as in C and any number may stand in it

impl From<InflightKind> for u8 {
    ghost from_gives = { λ kind number. number ≡ kind_number kind };

    fn from(kind: InflightKind) -> u8 {
        kind as u8
    }
}

// Anything above 3 reads as Close.
impl From<u8> for InflightKind {
    ghost from_gives = { λ number kind. kind ≡ kind_of number };

    #[tactic(auto, unfolding(crate::specs::Inflight::kind_of))]
    fn from(number: u8) -> InflightKind {
        match number {
            0 => InflightKind::Incoming,
            1 => InflightKind::Opened,
            2 => InflightKind::Data,
            3 => InflightKind::Control,
            _ => InflightKind::Close,
        }
    }
}

// ---- the side that a Data goes to: a record holds a `bool`, as in C. `From` would not say which side is `true`.

impl RelaySide {
    pub(crate) fn to_endpoint(self) -> bool
        ensures { result ≡ to_endpoint self }
    {
        matches!(self, RelaySide::Endpoint)
    }
}

impl InflightAction {
    pub(crate) fn toward_side(self) -> RelaySide
        ensures { result ≡ toward_side self }
    {
        if self.to_endpoint {
            RelaySide::Endpoint
        } else {
            RelaySide::Requester
        }
    }
}

// ---- questions: a line each over the record's own fields

// The number first: a lookup then reads one field of most records.
#[tactic(auto, unfolding(crate::specs::Inflight::action_at))]
pub(crate) fn action_is(a: &InflightAction, generation: u64, sequence: u64) -> bool
    ensures { result ≡ action_at generation sequence a.now }
{
    a.sequence == sequence && a.generation == generation && a.used
}

#[tactic(auto, unfolding(crate::specs::Inflight::action_under))]
pub(crate) fn action_under(a: &InflightAction, id: u64) -> bool
    ensures { result ≡ action_under id a.now }
{
    a.used && a.circuit_id == id
}

#[tactic(auto, unfolding(crate::specs::Inflight::action_toward))]
pub(crate) fn action_toward(a: &InflightAction, peer: &HnsrPeerId) -> bool
    ensures { result ≡ action_toward peer.now a.now }
{
    a.used && a.destination == *peer
}

// ---- capacity

// How many further actions fit: the smallest of the three distances.
#[tactic(auto, unfolding(crate::specs::Inflight::capacity_left))]
pub(crate) fn capacity_left(config: OpaqueRelayConfig, tally: InflightTally) -> usize
    ensures { result ≡ capacity_left config tally }
{
    let all = config.maximum_inflight_actions.saturating_sub(tally.total);
    let under = config
        .maximum_inflight_actions_per_circuit
        .saturating_sub(tally.for_circuit);
    let toward = config
        .maximum_inflight_actions_per_peer
        .saturating_sub(tally.for_peer);
    let least = under.min(toward);
    all.min(least)
}

// 10 (QUEUE.5): one of three counts has reached its limit
#[tactic(auto, unfolding(crate::specs::Inflight::capacity_answer))]
pub(crate) fn capacity_answer(config: OpaqueRelayConfig, tally: InflightTally) -> HnsrAnswer
    ensures { result ≡ capacity_answer config tally }
{
    let left = capacity_left(config, tally);
    check(left == 0, HnsrRuntimeError::Capacity)
}
