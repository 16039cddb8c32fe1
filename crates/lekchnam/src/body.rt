// What a host calls: the readers and writers of bodies and the UTF-8 check as C functions, on byte slices, structs and
// numbers. An answer has the cause in numbers, its kind 0 where the body is accepted. With it a reader hands back the
// fields; a field that the input ends before is zero. A writer hands back the bytes, zeros where it refuses. DATA has
// no writer: its body is the bytes as they are, and `hnsr_body_decode_data` is the check of both ways.
ghost use Rattle.std.specs.Prelude.{◌≡◌, length, replicate};
ghost use Rattle.std.specs.Result.{result_unwrap_or};
ghost use Rattle.hnsr_body.specs.Causes.{cause_numbers};
ghost use Rattle.hnsr_body.specs.Open.{decode_open, encode_open, open_size};
ghost use Rattle.hnsr_body.specs.Incoming.{decode_incoming, encode_incoming, incoming_size};
ghost use Rattle.hnsr_body.specs.Accept.{accept_size, decode_accept, decode_opened};
ghost use Rattle.hnsr_body.specs.Accept.{encode_accept, encode_opened, opened_size};
ghost use Rattle.hnsr_body.specs.Data.{data_checked, decode_window, encode_window, window_size};
ghost use Rattle.hnsr_body.specs.Detail.{decode_detail, encode_detail, no_detail};
ghost use Rattle.hnsr_body.specs.Packet.{packet_checked};
ghost use Rattle.hnsr_body.specs.Utf8.{utf8};

use hnsr_body::accept_body::{AcceptBody, OpenedBody};
use hnsr_body::data_body::{DataBody, WindowBody};
use hnsr_body::detail_body::ReasonDetail;
use hnsr_body::envelope::HnsrPacket;
use hnsr_body::error::Cause;
use hnsr_body::incoming_body::IncomingBody;
use hnsr_body::layout::{Padded, Read};
use hnsr_body::open_body::OpenBody;
use hnsr_body::utf8::is_utf8;

// A struct for each body, since an exported C function may return no generic one.
#[repr(C)]
#[derive(Clone, Copy)]
pub struct OpenAnswer {
    pub cause: Cause,
    pub body: OpenBody,
}

#[repr(C)]
#[derive(Clone, Copy)]
pub struct IncomingAnswer {
    pub cause: Cause,
    pub body: IncomingBody,
}

#[repr(C)]
#[derive(Clone, Copy)]
pub struct AcceptAnswer {
    pub cause: Cause,
    pub body: AcceptBody,
}

#[repr(C)]
#[derive(Clone, Copy)]
pub struct OpenedAnswer {
    pub cause: Cause,
    pub body: OpenedBody,
}

#[repr(C)]
#[derive(Clone, Copy)]
pub struct WindowAnswer {
    pub cause: Cause,
    pub body: WindowBody,
}

#[repr(C)]
#[derive(Clone, Copy)]
pub struct DetailAnswer {
    pub cause: Cause,
    pub body: ReasonDetail,
}

#[repr(C)]
#[derive(Clone, Copy)]
pub struct OpenBytes {
    pub cause: Cause,
    pub bytes: [u8; OpenBody::SIZE],
}

#[repr(C)]
#[derive(Clone, Copy)]
pub struct IncomingBytes {
    pub cause: Cause,
    pub bytes: [u8; IncomingBody::SIZE],
}

#[repr(C)]
#[derive(Clone, Copy)]
pub struct AcceptBytes {
    pub cause: Cause,
    pub bytes: [u8; AcceptBody::SIZE],
}

#[repr(C)]
#[derive(Clone, Copy)]
pub struct OpenedBytes {
    pub cause: Cause,
    pub bytes: [u8; OpenedBody::SIZE],
}

#[repr(C)]
#[derive(Clone, Copy)]
pub struct WindowBytes {
    pub cause: Cause,
    pub bytes: [u8; WindowBody::SIZE],
}

// The first `length` bytes are the body: an array and its length, as C has them.
#[repr(C)]
#[derive(Clone, Copy)]
pub struct DetailBytes {
    pub cause: Cause,
    pub length: usize,
    pub bytes: [u8; ReasonDetail::MAX_SIZE],
}

// ---- readers: a name of the C interface for each body, since an exported function may have no type parameter

#[unsafe(no_mangle)]
pub extern "C" fn hnsr_body_is_utf8(text: &[u8]) -> bool
    ensures { result ≡ utf8 text.now }
{
    is_utf8(text)
}

#[unsafe(no_mangle)]
pub extern "C" fn hnsr_body_decode_open(input: &[u8], key_valid: bool) -> OpenAnswer
    ensures { (result.cause ≡ cause_numbers (decode_open key_valid input.now).result)
        × (result.body ≡ (decode_open key_valid input.now).body) }
{
    let Read { result, body } = OpenBody::decode(input, key_valid);
    OpenAnswer {
        cause: result.into(),
        body,
    }
}

#[unsafe(no_mangle)]
pub extern "C" fn hnsr_body_decode_incoming(input: &[u8]) -> IncomingAnswer
    ensures { (result.cause ≡ cause_numbers (decode_incoming input.now).result)
        × (result.body ≡ (decode_incoming input.now).body) }
{
    let Read { result, body } = IncomingBody::decode(input);
    IncomingAnswer {
        cause: result.into(),
        body,
    }
}

#[unsafe(no_mangle)]
pub extern "C" fn hnsr_body_decode_accept(input: &[u8]) -> AcceptAnswer
    ensures { (result.cause ≡ cause_numbers (decode_accept input.now).result)
        × (result.body ≡ (decode_accept input.now).body) }
{
    let Read { result, body } = AcceptBody::decode(input);
    AcceptAnswer {
        cause: result.into(),
        body,
    }
}

#[unsafe(no_mangle)]
pub extern "C" fn hnsr_body_decode_opened(input: &[u8]) -> OpenedAnswer
    ensures { (result.cause ≡ cause_numbers (decode_opened input.now).result)
        × (result.body ≡ (decode_opened input.now).body) }
{
    let Read { result, body } = OpenedBody::decode(input);
    OpenedAnswer {
        cause: result.into(),
        body,
    }
}

#[unsafe(no_mangle)]
pub extern "C" fn hnsr_body_decode_window(input: &[u8]) -> WindowAnswer
    ensures { (result.cause ≡ cause_numbers (decode_window input.now).result)
        × (result.body ≡ (decode_window input.now).body) }
{
    let Read { result, body } = WindowBody::decode(input);
    WindowAnswer {
        cause: result.into(),
        body,
    }
}

#[unsafe(no_mangle)]
pub extern "C" fn hnsr_body_decode_data(input: &[u8]) -> Cause
    ensures { result ≡ cause_numbers (data_checked (length input.now)) }
{
    DataBody::decode(input).into()
}

fn detail_answer(input: &[u8]) -> DetailAnswer
    ensures { (result.cause ≡ cause_numbers (decode_detail input.now).result)
        × (result.body ≡ (decode_detail input.now).body) }
{
    let Read { result, body } = ReasonDetail::decode(input);
    DetailAnswer {
        cause: result.into(),
        body,
    }
}

#[unsafe(no_mangle)]
pub extern "C" fn hnsr_body_decode_close(input: &[u8]) -> DetailAnswer
    ensures { (result.cause ≡ cause_numbers (decode_detail input.now).result)
        × (result.body ≡ (decode_detail input.now).body) }
{
    detail_answer(input)
}

#[unsafe(no_mangle)]
pub extern "C" fn hnsr_body_decode_error(input: &[u8]) -> DetailAnswer
    ensures { (result.cause ≡ cause_numbers (decode_detail input.now).result)
        × (result.body ≡ (decode_detail input.now).body) }
{
    detail_answer(input)
}

// ---- writers: a name for each body, as above

#[unsafe(no_mangle)]
pub extern "C" fn hnsr_body_encode_open(body: OpenBody, key_valid: bool) -> OpenBytes
    ensures { (result.cause ≡ cause_numbers (encode_open key_valid body))
        × (result.bytes ≡ result_unwrap_or (encode_open key_valid body) (replicate open_size 0)) }
{
    let written = body.encode(key_valid);
    let bytes = written.unwrap_or([0; OpenBody::SIZE]);
    OpenBytes {
        cause: written.into(),
        bytes,
    }
}

#[unsafe(no_mangle)]
pub extern "C" fn hnsr_body_encode_incoming(body: IncomingBody) -> IncomingBytes
    ensures { (result.cause ≡ cause_numbers (encode_incoming body))
        × (result.bytes ≡ result_unwrap_or (encode_incoming body) (replicate incoming_size 0)) }
{
    let written = body.encode();
    let bytes = written.unwrap_or([0; IncomingBody::SIZE]);
    IncomingBytes {
        cause: written.into(),
        bytes,
    }
}

#[unsafe(no_mangle)]
pub extern "C" fn hnsr_body_encode_accept(body: AcceptBody) -> AcceptBytes
    ensures { (result.cause ≡ cause_numbers (encode_accept body))
        × (result.bytes ≡ result_unwrap_or (encode_accept body) (replicate accept_size 0)) }
{
    let written = body.encode();
    let bytes = written.unwrap_or([0; AcceptBody::SIZE]);
    AcceptBytes {
        cause: written.into(),
        bytes,
    }
}

#[unsafe(no_mangle)]
pub extern "C" fn hnsr_body_encode_opened(body: OpenedBody) -> OpenedBytes
    ensures { (result.cause ≡ cause_numbers (encode_opened body))
        × (result.bytes ≡ result_unwrap_or (encode_opened body) (replicate opened_size 0)) }
{
    let written = body.encode();
    let bytes = written.unwrap_or([0; OpenedBody::SIZE]);
    OpenedBytes {
        cause: written.into(),
        bytes,
    }
}

#[unsafe(no_mangle)]
pub extern "C" fn hnsr_body_encode_window(body: WindowBody) -> WindowBytes
    ensures { (result.cause ≡ cause_numbers (encode_window body))
        × (result.bytes ≡ result_unwrap_or (encode_window body) (replicate window_size 0)) }
{
    let written = body.encode();
    let bytes = written.unwrap_or([0; WindowBody::SIZE]);
    WindowBytes {
        cause: written.into(),
        bytes,
    }
}

fn detail_bytes(reason: u16, detail: &[u8]) -> DetailBytes
    ensures { (result.cause ≡ cause_numbers (encode_detail reason detail.now))
        × (result.length ≡ (result_unwrap_or (encode_detail reason detail.now) no_detail).length)
        × (result.bytes ≡ (result_unwrap_or (encode_detail reason detail.now) no_detail).bytes) }
{
    let written = ReasonDetail::encode(reason, detail);
    let none = [0; ReasonDetail::MAX_SIZE];
    let Padded { length, bytes } = written.unwrap_or(Padded {
        length: 0,
        bytes: none,
    });
    DetailBytes {
        cause: written.into(),
        length,
        bytes,
    }
}

#[unsafe(no_mangle)]
pub extern "C" fn hnsr_body_encode_close(reason: u16, detail: &[u8]) -> DetailBytes
    ensures { (result.cause ≡ cause_numbers (encode_detail reason detail.now))
        × (result.length ≡ (result_unwrap_or (encode_detail reason detail.now) no_detail).length)
        × (result.bytes ≡ (result_unwrap_or (encode_detail reason detail.now) no_detail).bytes) }
{
    detail_bytes(reason, detail)
}

#[unsafe(no_mangle)]
pub extern "C" fn hnsr_body_encode_error(reason: u16, detail: &[u8]) -> DetailBytes
    ensures { (result.cause ≡ cause_numbers (encode_detail reason detail.now))
        × (result.length ≡ (result_unwrap_or (encode_detail reason detail.now) no_detail).length)
        × (result.bytes ≡ (result_unwrap_or (encode_detail reason detail.now) no_detail).bytes) }
{
    detail_bytes(reason, detail)
}

// ---- packets

#[unsafe(no_mangle)]
pub extern "C" fn hnsr_body_validate_packet(
    opcode: u8,
    context_id: u64,
    body_length: usize,
) -> Cause
    ensures { result ≡ cause_numbers (packet_checked opcode context_id body_length) }
{
    HnsrPacket {
        opcode,
        context_id,
        body_length,
    }
    .validate()
    .into()
}
