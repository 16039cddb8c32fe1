// What a call answers (ANS.1), in the order of the numbers (ANS.5), which specs/Answers.antt has.
ghost use Rattle.std.specs.Prelude.{◌≡◌};
ghost use Rattle.hnsr_circuit.specs.Answers.{number, error_number, cause_of};
ghost use Rattle.hnsr_circuit.specs.Answers.{error_cause, check};
ghost use Rattle.hnsr_circuit.specs.declared.answer.HnsrRuntimeError.TheVariants.{Protocol};

use hnsr_body::error::{Cause, HnsrProtocolError};

#[derive(Clone, Copy, PartialEq, Eq)]
pub enum HnsrRuntimeError {
    Protocol(HnsrProtocolError),
    InvalidConfig,
    InvalidSession,
    InvalidPeer,
    StaleGeneration,
    GenerationExhausted,
    ClockRollback,
    Randomness,
    Disabled,
    Capacity,
    InvalidAdmission,
    Deadline,
    UnknownRequest,
    UnknownCircuit,
    WrongPeer,
    UnexpectedOpcode,
    FlowControl,
    ByteLimit,
    NoQueuedData,
    UnknownAction,
    CorruptSnapshot,
    // added: the lent tables or the lent output are too small
    Short,
    // added: the lent ledger is full
    LedgerFull,
}

// What refuses a packet or a body refuses the call.
impl From<HnsrProtocolError> for HnsrRuntimeError {
    ghost from_gives = { λ cause error. error ≡ Protocol cause };

    fn from(cause: HnsrProtocolError) -> Self {
        HnsrRuntimeError::Protocol(cause)
    }
}

// What a call answers: `Ok` is taken, `Err` refused. `Result::and` gives the first refusal of two rows.
pub type HnsrAnswer = Result<(), HnsrRuntimeError>;

// ---- an answer in numbers, for a host: C has no enum that holds a value

impl From<HnsrRuntimeError> for u32 {
    ghost from_gives = { λ error n. n ≡ error_number error };

    fn from(error: HnsrRuntimeError) -> u32 {
        match error {
            HnsrRuntimeError::Protocol(_) => 1,
            HnsrRuntimeError::InvalidConfig => 2,
            HnsrRuntimeError::InvalidSession => 3,
            HnsrRuntimeError::InvalidPeer => 4,
            HnsrRuntimeError::StaleGeneration => 5,
            HnsrRuntimeError::GenerationExhausted => 6,
            HnsrRuntimeError::ClockRollback => 7,
            HnsrRuntimeError::Randomness => 8,
            HnsrRuntimeError::Disabled => 9,
            HnsrRuntimeError::Capacity => 10,
            HnsrRuntimeError::InvalidAdmission => 11,
            HnsrRuntimeError::Deadline => 12,
            HnsrRuntimeError::UnknownRequest => 13,
            HnsrRuntimeError::UnknownCircuit => 14,
            HnsrRuntimeError::WrongPeer => 15,
            HnsrRuntimeError::UnexpectedOpcode => 16,
            HnsrRuntimeError::FlowControl => 17,
            HnsrRuntimeError::ByteLimit => 18,
            HnsrRuntimeError::NoQueuedData => 19,
            HnsrRuntimeError::UnknownAction => 20,
            HnsrRuntimeError::CorruptSnapshot => 21,
            HnsrRuntimeError::Short => 22,
            HnsrRuntimeError::LedgerFull => 23,
        }
    }
}

impl HnsrRuntimeError {
    // Only a packet or a body that is refused has one: most answers do not become a cause, so it is no `From`.
    fn cause(self) -> Cause
        ensures { result ≡ error_cause self }
    {
        match self {
            HnsrRuntimeError::Protocol(cause) => Cause::from(cause),
            _ => Cause::NONE,
        }
    }
}

// ANS.5; 0 is taken. Not `From`, nor is `cause_of`: a `Result` and what it becomes are other crates' types.
pub fn number(answer: HnsrAnswer) -> u32
    ensures { result ≡ number answer }
{
    match answer {
        Ok(()) => 0,
        Err(error) => u32::from(error),
    }
}

// Why the packet or its body is refused, where that is the answer.
pub fn cause_of(answer: HnsrAnswer) -> Cause
    ensures { result ≡ cause_of answer }
{
    match answer {
        Ok(()) => Cause::NONE,
        Err(error) => error.cause(),
    }
}

// ---- rows

// A row: a test and its refusal.
pub(crate) fn check(refuse: bool, error: HnsrRuntimeError) -> HnsrAnswer
    ensures { result ≡ check refuse error }
{
    if refuse {
        return Err(error);
    }
    Ok(())
}
