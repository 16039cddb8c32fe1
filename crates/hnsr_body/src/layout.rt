// A body that was read, and how a reader answers: an early end, then bytes left over, then the values.
ghost use Rattle.std.specs.Prelude.{◌≡◌, take};
ghost use Rattle.hnsr_body.specs.Causes.{answer};
ghost use Rattle.hnsr_body.specs.Layout.{finished, handed_on};

use crate::error::{HnsrInvalid, HnsrProtocolError};
use crate::fields::Step;

// The fields stand beside the answer, not in its `Ok`: the C interface hands them out with a refusal too. A field that
// the input ends before reads as zeros.
#[derive(Clone, Copy)]
pub struct Read<B> {
    pub result: Result<(), HnsrProtocolError>,
    pub body: B,
}

impl<B> Read<B> {
    // The same body, with the answer of its values behind the layout's.
    pub(crate) fn answered(self, valid: bool, text: HnsrInvalid) -> Self
        ensures { (result.result ≡ answer self.result valid text) × (result.body ≡ self.body) }
    {
        Self {
            result: answered(self.result, valid, text),
            body: self.body,
        }
    }
}

// A text or a message in a buffer of the most that it may take: `length` bytes, with zeros behind them. No heap, and
// the C interface hands the whole buffer out.
#[derive(Clone, Copy)]
pub struct Padded<const SIZE: usize> {
    pub length: usize,
    pub bytes: [u8; SIZE],
}

impl<const SIZE: usize> Padded<SIZE> {
    // The text or the message, without what stands behind it.
    pub fn as_slice(&self) -> &[u8]
        ensures { result.now ≡ take self.now.length self.now.bytes }
    {
        &self.bytes[..self.length.min(SIZE)]
    }
}

// What a reader answers: the layout's refusal first, then that of the values. Each body has its own `decode` and
// `encode`, two lines over this. A trait with both would not do for OPEN, which is handed a key's validity, and OPENED,
// which tests two texts; and each caller would have to import it.
pub(crate) fn answered(
    layout: Result<(), HnsrProtocolError>,
    valid: bool,
    text: HnsrInvalid,
) -> Result<(), HnsrProtocolError>
    ensures { result ≡ answer layout valid text }
{
    layout?;
    if valid { Ok(()) } else { Err(text.into()) }
}

// What a step answers, as a reader hands it on.
pub(crate) fn handed_on(step: Step) -> Result<(), HnsrProtocolError>
    ensures { result ≡ handed_on step }
{
    step?;
    Ok(())
}

// The layout's answer, from the step behind the last field: nothing may be left.
pub(crate) fn finish(step: Step, input: &[u8]) -> Result<(), HnsrProtocolError>
    ensures { result ≡ finished input.now step }
{
    step?.finish(input)?;
    Ok(())
}
