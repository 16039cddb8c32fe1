// UTF-8 (TEXT.1). What is proved: `is_utf8` says true of exactly the texts of the ABNF in RFC 3629 (specs/Utf8.antt),
// which are those that encode Unicode scalar values (specs/Utf8CodePoints.antt), and no byte is read past a text's end.
ghost use Rattle.std.specs.Prelude.{◌≡◌, ◌<◌, ◌≤◌, length};
ghost use Rattle.hnsr_body.specs.Utf8.{utf8, tail};
ghost use Rattle.hnsr_body.specs.Utf8Form.{lead_length, second, goes_on, BehindChar, past_ascii};

// How many bytes the character has that a byte begins; 0 of a byte that begins none.
fn lead_length(lead: u8) -> u8
    ensures { result ≡ lead_length lead }
{
    LEAD_LENGTHS[lead as usize]
}

fn is_tail(byte: u8) -> bool
    ensures { result ≡ tail byte }
{
    (0x80..=0xBF).contains(&byte)
}

// Whether a byte may come second, after this lead byte.
#[tactic(auto, unfolding(crate::specs::Utf8Form::second))]
fn is_second(lead: u8, byte: u8) -> bool
    ensures { result ≡ second lead byte }
{
    match lead {
        0xE0 => (0xA0..=0xBF).contains(&byte),
        0xED => (0x80..=0x9F).contains(&byte),
        0xF0 => (0x90..=0xBF).contains(&byte),
        0xF4 => (0x80..=0x8F).contains(&byte),
        _ => is_tail(byte),
    }
}

// Whether the bytes after the lead, of `n` bytes in all, may follow it.
#[tactic(auto, unfolding(crate::specs::Utf8Form::goes_on))]
fn goes_on(text: &[u8], n: usize) -> bool
    requires { (0 < n) × (n ≤ length text.now) }
    ensures { result ≡ goes_on n text.now }
{
    n == 1
        || is_second(text[0], text[1])
            && (n == 2 || is_tail(text[2]) && (n == 3 || is_tail(text[3])))
}

// The text behind the character that it begins with; none where it begins with none.
#[tactic(auto, unfolding(crate::specs::Utf8Form::char_length))]
fn behind_char(text: &[u8]) -> Option<&[u8]>
    requires { 0 < length text.now }
    ensures { BehindChar text.now result }
{
    let n = lead_length(text[0]) as usize;
    if 0 < n && n <= text.len() && goes_on(text, n) {
        Some(&text[n..])
    } else {
        None
    }
}

// Where the first byte is that is no ASCII.
fn past_ascii(text: &[u8]) -> Option<usize>
    ensures { result ≡ past_ascii text.now }
{
    text.iter().position(|byte| *byte > 0x7F)
}

// Whether `text` is UTF-8 (TEXT.1). A `while`, since it goes by characters, and by runs of ASCII.
pub fn is_utf8(text: &[u8]) -> bool
    ensures { result ≡ utf8 text.now }
{
    let mut rest = text;
    while let Some(run) = past_ascii(rest) {
        let Some(behind) = behind_char(&rest[run..]) else {
            return false;
        };
        rest = behind;
    }
    true
}

// How many bytes the character has that a byte begins, by the byte; 0 of a byte that begins none. Each sixteenth says
// its place.
const LEAD_LENGTHS: [u8; 256] = [
    1, // 0x00
    1, 1, 1, 1, 1, 1, 1, 1, 1, 1, 1, 1, 1, 1, 1, 1, // 0x10
    1, 1, 1, 1, 1, 1, 1, 1, 1, 1, 1, 1, 1, 1, 1, 1, // 0x20
    1, 1, 1, 1, 1, 1, 1, 1, 1, 1, 1, 1, 1, 1, 1, 1, // 0x30
    1, 1, 1, 1, 1, 1, 1, 1, 1, 1, 1, 1, 1, 1, 1, 1, // 0x40
    1, 1, 1, 1, 1, 1, 1, 1, 1, 1, 1, 1, 1, 1, 1, 1, // 0x50
    1, 1, 1, 1, 1, 1, 1, 1, 1, 1, 1, 1, 1, 1, 1, 1, // 0x60
    1, 1, 1, 1, 1, 1, 1, 1, 1, 1, 1, 1, 1, 1, 1, 1, // 0x70
    1, 1, 1, 1, 1, 1, 1, 1, 1, 1, 1, 1, 1, 1, 1, 0, // 0x80
    0, 0, 0, 0, 0, 0, 0, 0, 0, 0, 0, 0, 0, 0, 0, 0, // 0x90
    0, 0, 0, 0, 0, 0, 0, 0, 0, 0, 0, 0, 0, 0, 0, 0, // 0xA0
    0, 0, 0, 0, 0, 0, 0, 0, 0, 0, 0, 0, 0, 0, 0, 0, // 0xB0
    0, 0, 0, 0, 0, 0, 0, 0, 0, 0, 0, 0, 0, 0, 0, 0, // 0xC0
    0, 2, // 0xC2
    2, 2, 2, 2, 2, 2, 2, 2, 2, 2, 2, 2, 2, 2, // 0xD0
    2, 2, 2, 2, 2, 2, 2, 2, 2, 2, 2, 2, 2, 2, 2, 3, // 0xE0
    3, 3, 3, 3, 3, 3, 3, 3, 3, 3, 3, 3, 3, 3, 3, 4, // 0xF0
    4, 4, 4, 4, 0, // 0xF5
    0, 0, 0, 0, 0, 0, 0, 0, 0, 0,
];
