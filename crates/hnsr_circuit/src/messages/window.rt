// WINDOW: its row, over records by value.
ghost use Rattle.std.specs.Prelude.{◌≡◌};
ghost use Rattle.hnsr_circuit.specs.Window.{credit_answer};

use crate::answer::{HnsrAnswer, HnsrRuntimeError, check};
use crate::output::queue::Outgoing;
use crate::records::circuits::credit_of;
use crate::records::{RelayCircuit, RelaySide};
use crate::tables::scan::ActionScan;
use hnsr_body::values::MAX_WINDOW;

// 17 (WINDOW.5): the credit would get too large
#[tactic(auto, unfolding(crate::specs::Window::credit_answer))]
pub(crate) fn credit_answer(circuit: RelayCircuit, side: RelaySide, delta: u32) -> HnsrAnswer
    ensures { result ≡ credit_answer circuit side delta }
{
    let credit = u64::from(credit_of(side.other(), circuit));
    check(
        u64::from(MAX_WINDOW) < credit + u64::from(delta),
        HnsrRuntimeError::FlowControl,
    )
}

// What a WINDOW that is taken does: the place of the circuit, the side that it comes from and its credit; the message,
// with what it asked of the actions.
#[derive(Clone, Copy)]
pub struct WindowPlan {
    pub place: usize,
    pub side: RelaySide,
    pub delta: u32,
    pub message: Outgoing,
    pub scan: ActionScan,
}
