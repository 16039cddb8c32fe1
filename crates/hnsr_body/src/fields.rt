// The fields of a body, one after the other. Reading goes from the step that the field before handed back: an early end
// is handed on, and what stands behind it reads as zeros. Writing goes to an offset, and nothing is written where there
// is no room.
ghost use Rattle.std.specs.Prelude.{◌≡◌};
ghost use Rattle.hns_encoding.specs.Cursor.{written};
ghost use Rattle.hnsr_body.specs.Fields.{fetched, left, read_on, start, stepped};

use hns_encoding::{DecodeError, Decoder, Encoder};

// The cursor behind a field, or the early end.
pub(crate) type Step = Result<Decoder, DecodeError>;

// In front of the first field.
pub(crate) fn start() -> Step
    ensures { result ≡ start }
{
    Ok(Decoder::new())
}

fn read_on<const N: usize>(step: Step, input: &[u8]) -> Result<([u8; N], Decoder), DecodeError>
    ensures { result ≡ read_on N input.now step }
{
    step?.read_array(input)
}

// The next `N` bytes, and the step behind them. By names: the borrow checker covers no array in a tuple or a pattern
// that is not a variable first.
#[tactic(auto, using(crate::specs::Laws::Fields::on_ok, crate::specs::Laws::Fields::on_err))]
pub(crate) fn next_array<const N: usize>(step: Step, input: &[u8]) -> ([u8; N], Step)
    ensures { (result.0 ≡ fetched N input.now step) × (result.1 ≡ stepped N input.now step) }
{
    match read_on(step, input) {
        Ok(read) => {
            let (bytes, next) = read;
            (bytes, Ok(next))
        }
        Err(error) => {
            let zeros = [0; N];
            (zeros, Err(error))
        }
    }
}

// What stands behind the last field.
#[tactic(auto, unfolding(crate::specs::Fields::left))]
pub(crate) fn rest(step: Step, input: &[u8]) -> &[u8]
    ensures { result.now ≡ left input.now step }
{
    match step {
        Ok(cursor) => cursor.read_slice(input, cursor.remaining(input)),
        Err(_) => &input[..0],
    }
}

// Fields are written at their offsets: in a chain of the encoder with `?`, each field would have a refusal that must be
// proved away, since a body's array has room for all of them.
pub(crate) fn put_bytes_at(out: &mut [u8], at: usize, bytes: &[u8])
    ensures { out.new ≡ written out.old at bytes.now }
{
    let _ = Encoder { position: at }.put_bytes(out, bytes);
}
