//! The text of answers and of their parts.
ghost use Rattle.std.specs.Prelude.{◌≡◌, ◌+◌, ◌<◌, ◌≤◌, ◌++◌, codes, decimal, length, vec_capacity, vec_len, OnOk};
ghost use Rattle.model_jobs.specs.Texts.{address_text, byte_text, bytes_text, field, hex_digit, number_field, refusal_text, reply_text};
ghost use Rattle.text_words.specs.Addresses.{wide_text};
ghost use Rattle.text_words.specs.RecordedTexts.{recorded_text};

use crate::RecordedReply;
use hex::encode_to_slice;
use itoa::Buffer;
use model_words::{MAX_BYTES, Refusal, Reply};
use std::alloc::AllocError;

/// Appends an answer, as a replay prints it.
pub fn add_reply(text: &mut Vec<u8>, reply: &Reply) -> Result<(), AllocError>
    ensures { OnOk result (text.new.items ≡ text.old.items ++ reply_text reply.now) }
{
    match reply {
        Reply::Object(serial, address) => add_object(text, *serial, u64::from(*address)),
        Reply::Done => text.extend_from_slice(b"done"),
        Reply::Bytes(bytes) => add_loaded(text, bytes.as_slice()),
        Reply::At(address) => add_at(text, u64::from(*address)),
        Reply::Byte(byte) => add_byte(text, *byte),
        Reply::Refused(refusal) => add_refusal(text, *refusal),
    }
}

/// Appends an answer, as a recorded history has it.
pub fn add_recorded(text: &mut Vec<u8>, reply: &RecordedReply) -> Result<(), AllocError>
    ensures { OnOk result (text.new.items ≡ text.old.items ++ recorded_text reply.now) }
{
    match reply {
        RecordedReply::Object(serial, address) => add_object(text, *serial, *address),
        RecordedReply::Done => text.extend_from_slice(b"done"),
        RecordedReply::Bytes(bytes) => add_loaded(text, bytes.as_slice()),
        RecordedReply::At(address) => add_at(text, *address),
        RecordedReply::Byte(byte) => add_byte(text, *byte),
        RecordedReply::Refused(refusal) => add_refusal(text, *refusal),
    }
}

/// Appends `object SERIAL at ADDR`.
fn add_object(text: &mut Vec<u8>, serial: u32, address: u64) -> Result<(), AllocError>
    ensures wide { OnOk result
        (text.new.items ≡ text.old.items ++ (codes "object" ++ number_field serial
        ++ codes " at" ++ field (wide_text address))) }
    ensures of_job { address < 4294967296 → OnOk result
        (text.new.items ≡ text.old.items ++ (codes "object" ++ number_field serial
        ++ codes " at" ++ field (address_text address))) }
{
    text.extend_from_slice(b"object ")?;
    add_decimal(text, u64::from(serial))?;
    text.extend_from_slice(b" ")?;
    add_at(text, address)
}

/// Appends `at ADDR`.
fn add_at(text: &mut Vec<u8>, address: u64) -> Result<(), AllocError>
    ensures wide { OnOk result (text.new.items ≡ text.old.items ++ (codes "at" ++ field (wide_text address))) }
    ensures of_job { address < 4294967296 → OnOk result
        (text.new.items ≡ text.old.items ++ (codes "at" ++ field (address_text address))) }
{
    text.extend_from_slice(b"at ")?;
    add_address(text, address)
}

/// Appends `bytes HEX`.
fn add_loaded(text: &mut Vec<u8>, bytes: &[u8]) -> Result<(), AllocError>
    ensures { OnOk result (text.new.items ≡ text.old.items ++ (codes "bytes" ++ field (bytes_text bytes.now))) }
{
    text.extend_from_slice(b"bytes ")?;
    add_bytes(text, bytes)
}

/// Appends `byte HH`.
fn add_byte(text: &mut Vec<u8>, byte: u8) -> Result<(), AllocError>
    ensures { OnOk result (text.new.items ≡ text.old.items ++ (codes "byte" ++ field (byte_text byte))) }
{
    text.extend_from_slice(b"byte ")?;
    add_bytes(text, &[byte])
}

/// Adds `refused NUMBER NAME`.
pub fn add_refusal(text: &mut Vec<u8>, refusal: Refusal) -> Result<(), AllocError>
    ensures { OnOk result (text.new.items ≡ text.old.items ++ refusal_text refusal) }
{
    text.extend_from_slice(b"refused ")?;
    add_decimal(text, u64::from(refusal.number()))?;
    text.push(b' ')?;
    text.extend_from_slice(refusal.name().as_bytes())
}

/// Adds a number in decimal digits without a leading zero.
pub fn add_decimal(text: &mut Vec<u8>, number: u64) -> Result<(), AllocError>
    ensures { OnOk result (text.new.items ≡ text.old.items ++ decimal number) }
{
    let mut digits = Buffer::new();
    text.extend_from_slice(digits.format(number).as_bytes())
}

/// The greatest number of hexadecimal digits of an address.
const MAX_DIGITS: usize = 16;

/// Adds an address in hexadecimal digits without a leading zero.
#[tactic(auto, using(crate::proofs::Addresses::few_digits, crate::proofs::Addresses::address_digits))]
pub fn add_address(text: &mut Vec<u8>, address: u64) -> Result<(), AllocError>
    ensures wide { OnOk result (text.new.items ≡ text.old.items ++ wide_text address) }
    ensures of_job { address < 4294967296 → OnOk result (text.new.items ≡ text.old.items ++ address_text address) }
{
    text.reserve(MAX_DIGITS)?;
    push_address(text, address);
    Ok(())
}

/// Appends the hexadecimal digits of an address. The text must have room for them.
#[tactic(auto, using(crate::proofs::Addresses::one_length, crate::proofs::Addresses::more_length))]
fn push_address(text: &mut Vec<u8>, address: u64)
    requires { vec_len text.old + length (wide_text address) ≤ vec_capacity text.old }
    ensures digits { text.new.items ≡ text.old.items ++ wide_text address }
    ensures len { vec_len text.new ≡ vec_len text.old + length (wide_text address) }
    ensures room { vec_capacity text.new ≡ vec_capacity text.old }
{
    if address < 16 {
        text.push_reserved(digit(address as u8));
        return;
    }
    push_address(text, address / 16);
    text.push_reserved(digit((address % 16) as u8));
}

/// Adds bytes, two hexadecimal digits each, in lower case.
pub fn add_bytes(text: &mut Vec<u8>, bytes: &[u8]) -> Result<(), AllocError>
    ensures { OnOk result (text.new.items ≡ text.old.items ++ bytes_text bytes.now) }
{
    let mut rest = bytes;
    while rest.len() > MAX_BYTES {
        let (first, later) = rest.split_at(MAX_BYTES);
        add_few_bytes(text, first)?;
        rest = later;
    }
    add_few_bytes(text, rest)
}

/// Adds up to 32 bytes, two hexadecimal digits each, in lower case.
fn add_few_bytes(text: &mut Vec<u8>, bytes: &[u8]) -> Result<(), AllocError>
    requires { length bytes.now ≤ 32 }
    ensures { OnOk result (text.new.items ≡ text.old.items ++ bytes_text bytes.now) }
{
    let mut digits = [0; 2 * MAX_BYTES];
    let digits = &mut digits[..2 * bytes.len()];
    encode_to_slice(bytes, digits).unwrap();
    text.extend_from_slice(digits)
}

/// The hexadecimal digit of a value below 16, in lower case.
fn digit(value: u8) -> u8
    requires { value < 16 }
    ensures { result ≡ hex_digit value }
{
    if value < 10 {
        b'0' + value
    } else {
        b'a' + (value - 10)
    }
}
