// Writes a field of each width into sixteen bytes, prints them and the words that they fill, reads the fields back, and
// reads one too many.
#![tactic(auto)]

use hns_encoding::{DecodeError, Decoder, Encoder, NoRoom};
use std::fmt::{Display, Radix};
use std::io;

// Numbers in hexadecimal, each of `width` digits.
fn print_hex<T: Copy + Radix>(rt: &impl Print, width: usize, numbers: &[T]) -> io::Result<()> {
    for number in numbers {
        let number = *number;
        print!(rt; "{number:0width$x} ")?;
    }
    println!(rt;)
}

// Prints a field that was read at `d`, or why there was none: the cursor behind it, or `d`.
fn say_field<T: Display + Drop>(
    rt: &impl Print,
    name: &str,
    d: Decoder,
    field: Result<(T, Decoder), DecodeError>,
) -> io::Result<Decoder> {
    match field {
        Ok((number, next)) => {
            println!(rt; "{name} {number}")?;
            Ok(next)
        }
        Err(error) => {
            println!(rt; "{error}")?;
            Ok(d)
        }
    }
}

fn finish(rt: &impl Print, d: Decoder, input: &[u8]) -> io::Result<()> {
    match d.finish(input) {
        Ok(()) => println!(rt; "read whole"),
        Err(error) => println!(rt; "{error}"),
    }
}

fn write_fields(bytes: &mut [u8]) -> Result<Encoder, NoRoom> {
    Encoder::new()
        .put_u8(bytes, 0x01)?
        .put_u16_le(bytes, 0x2345)?
        .put_u32_le(bytes, 0x6789_abcd)?
        .put_u64_le(bytes, 0x0123_4567_89ab_cdef)
}

fn say_written(rt: &impl Print, written: Result<Encoder, NoRoom>) -> io::Result<()> {
    match written {
        Ok(behind) => {
            let position = behind.position;
            println!(rt; "written up to {position}")
        }
        Err(refusal) => println!(rt; "{refusal}"),
    }
}

fn print_as_words(rt: &impl Print, bytes: &[u8; 16]) -> io::Result<()> {
    let mut words = [0u32; 4];
    match Encoder::new().put_bytes_as_words(&mut words, bytes) {
        Ok(_) => print_hex(rt, 8, &words),
        Err(refusal) => println!(rt; "{refusal}"),
    }
}

fn read_fields(rt: &impl Print, bytes: &[u8; 16]) -> io::Result<()> {
    let start = Decoder::new();
    let a = say_field(rt, "u8", start, start.read_u8(bytes))?;
    let b = say_field(rt, "u16", a, a.read_u16_le(bytes))?;
    let c = say_field(rt, "u32", b, b.read_u32_le(bytes))?;
    let end = say_field(rt, "u64", c, c.read_u64_le(bytes))?;
    finish(rt, end, bytes)?;
    finish(
        rt,
        say_field(rt, "u16", end, end.read_u16_le(bytes))?,
        bytes,
    )?;
    finish(rt, say_field(rt, "u8", end, end.read_u8(bytes))?, bytes)
}

fn main(rt: HostRuntime) -> io::Result<()> {
    let mut bytes = [0u8; 16];
    let written = write_fields(&mut bytes);
    say_written(&rt, written)?;
    print_hex(&rt, 2, &bytes)?;
    print_as_words(&rt, &bytes)?;
    read_fields(&rt, &bytes)
}
