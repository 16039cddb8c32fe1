// The runtime with one part replaced, where a call goes on; and its counters, each of which stops at its top.
ghost use Rattle.std.specs.Prelude.{◌≡◌, ◌<◌};
ghost use Rattle.hnsr_circuit.specs.Runtime.{count_open, count_accept, count_bytes, count_revoked};
ghost use Rattle.hnsr_circuit.specs.Runtime.{with_clock, with_sequence, with_counters};
ghost use Rattle.hnsr_circuit.specs.Runtime.{with_enabled, new_runtime};

use crate::config::OpaqueRelayConfig;
use crate::runtime::{OpaqueRelayRuntime, RuntimeCounters};

impl RuntimeCounters {
    pub(crate) const ZERO: Self = Self {
        admitted_opens: 0,
        opened_circuits: 0,
        bytes_sent: 0,
        bytes_received: 0,
        revoked_work: 0,
    };
}

impl OpaqueRelayRuntime {
    // What a refused `new` hands back: zeros, and off.
    pub(crate) const OFF: Self = Self {
        session: [0; 16],
        generation: 0,
        enabled: false,
        trusted_time_high_water: 0,
        config: OpaqueRelayConfig::ZERO,
        next_action_sequence: 0,
        counters: RuntimeCounters::ZERO,
    };

    // What the host hands `new`.
    pub(crate) fn new(
        session: [u8; 16],
        generation: u64,
        config: OpaqueRelayConfig,
        now: u64,
    ) -> Self
        ensures { result ≡ new_runtime session generation config now }
    {
        Self {
            session,
            generation,
            enabled: true,
            trusted_time_high_water: now,
            config,
            next_action_sequence: 1,
            counters: RuntimeCounters::ZERO,
        }
    }

    pub(crate) fn with_clock(self, now: u64) -> Self
        ensures { result ≡ with_clock self now }
    {
        Self {
            trusted_time_high_water: now,
            ..self
        }
    }

    pub(crate) fn with_sequence(self, next: u64) -> Self
        ensures { result ≡ with_sequence self next }
    {
        Self {
            next_action_sequence: next,
            ..self
        }
    }

    // SWITCH.4: a new generation, numbered from 1.
    pub(crate) fn with_enabled(self, on: bool) -> Self
        ensures { self.generation < 18446744073709551615 → result ≡ with_enabled self on }
    {
        Self {
            generation: self.generation.saturating_add(1),
            enabled: on,
            next_action_sequence: 1,
            ..self
        }
    }

    // ---- counted, where a call goes on: each in its own field

    pub(crate) fn opened(mut self) -> Self
        ensures { result ≡ with_counters self (count_open self.counters) }
    {
        self.counters.admitted_opens = self.counters.admitted_opens.saturating_add(1);
        self
    }

    pub(crate) fn accepted(mut self) -> Self
        ensures { result ≡ with_counters self (count_accept self.counters) }
    {
        self.counters.opened_circuits = self.counters.opened_circuits.saturating_add(1);
        self
    }

    pub(crate) fn transferred(mut self, n: u64) -> Self
        ensures { result ≡ with_counters self (count_bytes n self.counters) }
    {
        self.counters.bytes_sent = self.counters.bytes_sent.saturating_add(n);
        self.counters.bytes_received = self.counters.bytes_received.saturating_add(n);
        self
    }

    pub(crate) fn revoked(mut self) -> Self
        ensures { result ≡ with_counters self (count_revoked self.counters) }
    {
        self.counters.revoked_work = self.counters.revoked_work.saturating_add(1);
        self
    }
}
