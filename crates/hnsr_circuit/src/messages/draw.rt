// The drawing of a circuit id.
ghost use Rattle.std.specs.Prelude.{◌≡◌};
ghost use Rattle.hnsr_circuit.specs.Code.Opening.{first_draw};

// Bytes of a draw.
pub(crate) const DRAW_BYTES: usize = 8;

// Draws and candidates in a row that refuse.
pub(crate) const MOST_DRAWS: u8 = 8;

// The first draw, the first byte weighing most; 0, which is no id, where there is none: the plan is refused then.
#[tactic(auto, using(crate::specs::Laws::Opening::be_eight))]
pub(crate) fn first_draw(random: &[u8]) -> u64
    ensures { result ≡ first_draw random.now }
{
    random
        .first_chunk::<DRAW_BYTES>()
        .map_or(0, |bytes| u64::from_be_bytes(*bytes))
}
