// The samples of RFC 3629, section 7 (TEXT.4), and beside each a text that is not UTF-8.
use hnsr_body::utf8::is_utf8;
use std::io;
use std::io::Write;

// Texts, and whether they are UTF-8.
const SAMPLES: [(&[u8], bool); 8] = [
    // A<NOT IDENTICAL TO><ALPHA>.
    (b"\x41\xE2\x89\xA2\xCE\x91\x2E", true),
    // the Korean word "hangugeo"
    (b"\xED\x95\x9C\xEA\xB5\xAD\xEC\x96\xB4", true),
    // the Japanese word "nihongo"
    (b"\xE6\x97\xA5\xE6\x9C\xAC\xE8\xAA\x9E", true),
    // U+233B4 behind a byte order mark
    (b"\xEF\xBB\xBF\xF0\xA3\x8E\xB4", true),
    // cut off, overlong, a surrogate, above U+10FFFF
    (b"\x41\xE2\x89", false),
    (b"\xC0\x80", false),
    (b"\xED\xA1\x8C\xED\xBE\xB4", false),
    (b"\xF4\x90\x80\x80", false),
];

pub(crate) fn run_samples(rt: &impl Print) -> io::Result<()> {
    for (text, valid) in SAMPLES {
        if is_utf8(text) != valid {
            print!(rt; "wrong ")?;
            io::writer(rt).write_all(text)?;
            println!(rt;)?;
        }
    }
    Ok(())
}
