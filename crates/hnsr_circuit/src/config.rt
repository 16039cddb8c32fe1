// The limits of a relay, each with its default and its bounds (CFG).
ghost use Rattle.std.specs.Prelude.{◌≡◌};
ghost use Rattle.hnsr_circuit.specs.Config.{within_limits, config_good, default_config, validate_config};

use crate::answer::{HnsrAnswer, HnsrRuntimeError, check};

#[repr(C)]
#[derive(Clone, Copy)]
pub struct OpaqueRelayConfig {
    pub maximum_pending: usize,
    pub maximum_circuits: usize,
    pub maximum_circuits_per_peer: u16,
    pub maximum_queue_bytes: usize,
    pub maximum_inflight_actions: usize,
    pub maximum_inflight_actions_per_circuit: usize,
    pub maximum_inflight_actions_per_peer: usize,
    pub maximum_bytes_per_circuit: u64,
    pub accept_timeout_seconds: u64,
}

// Whether a number stands between two others, ends included.
#[tactic(auto, unfolding(crate::specs::Config::within_limits))]
fn within(low: u64, n: u64, high: u64) -> bool
    ensures { result ≡ within_limits low n high }
{
    (low..=high).contains(&n)
}

impl OpaqueRelayConfig {
    // Not a configuration: what a refused `new` hands back. Zeros as a constant, since `default` is another.
    pub(crate) const ZERO: Self = Self {
        maximum_pending: 0,
        maximum_circuits: 0,
        maximum_circuits_per_peer: 0,
        maximum_queue_bytes: 0,
        maximum_inflight_actions: 0,
        maximum_inflight_actions_per_circuit: 0,
        maximum_inflight_actions_per_peer: 0,
        maximum_bytes_per_circuit: 0,
        accept_timeout_seconds: 0,
    };

    pub const DEFAULT_PENDING: usize = 1_024;

    pub const DEFAULT_CIRCUITS: usize = 4_096;

    pub const DEFAULT_INFLIGHT_ACTIONS: usize = 65_536;

    pub const DEFAULT_INFLIGHT_ACTIONS_PER_CIRCUIT: usize = 128;

    pub const DEFAULT_INFLIGHT_ACTIONS_PER_PEER: usize = 4_096;

    pub const DEFAULT_BYTES_PER_CIRCUIT: u64 = 16_777_216;

    pub const MAX_RUNTIME_PENDING: u64 = 65_536;

    pub const MAX_RUNTIME_CIRCUITS: u64 = 65_536;

    pub const MAX_CIRCUITS: u16 = 32;

    pub const MAX_CIRCUIT_QUEUE: usize = 65_536;

    pub const MAX_RUNTIME_INFLIGHT_ACTIONS: u64 = 262_144;

    pub const LEAST_INFLIGHT_ACTIONS_PER_CIRCUIT: u64 = 2;

    pub const MAX_OPEN_DEADLINE_SECONDS: u64 = 10;

    // What `validate` asks, limit by limit.
    #[tactic(auto, unfolding(crate::specs::Config::config_good))]
    fn good(self) -> bool
        ensures { result ≡ config_good self }
    {
        let most = self.maximum_inflight_actions as u64;
        let per_circuit = self.maximum_inflight_actions_per_circuit as u64;
        let per_peer = self.maximum_inflight_actions_per_peer as u64;
        within(1, self.maximum_pending as u64, Self::MAX_RUNTIME_PENDING)
            && within(1, self.maximum_circuits as u64, Self::MAX_RUNTIME_CIRCUITS)
            && within(
                1,
                u64::from(self.maximum_circuits_per_peer),
                u64::from(Self::MAX_CIRCUITS),
            )
            && within(
                1,
                self.maximum_queue_bytes as u64,
                Self::MAX_CIRCUIT_QUEUE as u64,
            )
            && within(1, most, Self::MAX_RUNTIME_INFLIGHT_ACTIONS)
            && within(Self::LEAST_INFLIGHT_ACTIONS_PER_CIRCUIT, per_circuit, most)
            && within(per_circuit, per_peer, most)
            && 1 <= self.maximum_bytes_per_circuit
            && within(
                1,
                self.accept_timeout_seconds,
                Self::MAX_OPEN_DEADLINE_SECONDS,
            )
    }

    #[tactic(auto, unfolding(crate::specs::Config::validate_config))]
    pub fn validate(self) -> HnsrAnswer
        ensures { result ≡ validate_config self }
    {
        check(!self.good(), HnsrRuntimeError::InvalidConfig)
    }
}

// By hand: a derive would give zeros.
impl Default for OpaqueRelayConfig {
    ghost is_default = { λ config. config ≡ default_config };

    fn default() -> Self {
        OpaqueRelayConfig {
            maximum_pending: OpaqueRelayConfig::DEFAULT_PENDING,
            maximum_circuits: OpaqueRelayConfig::DEFAULT_CIRCUITS,
            maximum_circuits_per_peer: OpaqueRelayConfig::MAX_CIRCUITS,
            maximum_queue_bytes: OpaqueRelayConfig::MAX_CIRCUIT_QUEUE,
            maximum_inflight_actions: OpaqueRelayConfig::DEFAULT_INFLIGHT_ACTIONS,
            maximum_inflight_actions_per_circuit: OpaqueRelayConfig::DEFAULT_INFLIGHT_ACTIONS_PER_CIRCUIT,
            maximum_inflight_actions_per_peer: OpaqueRelayConfig::DEFAULT_INFLIGHT_ACTIONS_PER_PEER,
            maximum_bytes_per_circuit: OpaqueRelayConfig::DEFAULT_BYTES_PER_CIRCUIT,
            accept_timeout_seconds: OpaqueRelayConfig::MAX_OPEN_DEADLINE_SECONDS,
        }
    }
}
