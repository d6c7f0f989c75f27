//! What stands in a line of a script: fields with one space between two, numbers and hexadecimal.

ghost use Rattle.std.specs.Prelude.{◌≡◌, ◌↔◌, IfOk, IsTrue, map, option_map, slice_index};
ghost use Rattle.std.specs.Str.{bytes_eq};
ghost use Rattle.bt_text.specs.Fields.{number_in, small_number_in, byte_in, yes_or_no_in, fields_of, bytes_in, digits_in, Reads, digest_in};

use super::LineFault;
use hex::{FromHex, FromHexError};
use std::alloc::{AllocError, Global};
use std::str;

/// The parts of a line, with one space between two of them.
pub fn fields(alloc: Global, line: &[u8]) -> Result<Vec<&[u8]>, AllocError>
    ensures { IfOk result (λ v. map (λ x. x.now) v.items ≡ fields_of line.now) }
{
    line.split(|byte| *byte == b' ').collect(alloc)
}

/// The same for whoever has no module of this name beside it.
pub fn words_of(alloc: Global, line: &[u8]) -> Result<Vec<&[u8]>, AllocError>
    ensures { IfOk result (λ v. map (λ x. x.now) v.items ≡ fields_of line.now) }
{
    fields(alloc, line)
}

/// The number that digits write, and nothing but digits, within 64 bits.
pub fn number(text: &[u8]) -> Result<u64, LineFault>
    ensures { Reads (λ n. n) result (number_in text.now) }
{
    parsed(text).ok_or(LineFault::NotAllowed)
}

/// The same within 32 bits.
pub fn small_number(text: &[u8]) -> Result<u32, LineFault>
    ensures { Reads (λ n. n) result (small_number_in text.now) }
{
    u32::try_from(number(text)?).map_err(|_| LineFault::NotAllowed)
}

/// The same within 8 bits.
pub fn byte(text: &[u8]) -> Result<u8, LineFault>
    ensures { Reads (λ n. n) result (byte_in text.now) }
{
    u8::try_from(number(text)?).map_err(|_| LineFault::NotAllowed)
}

/// Yes or no, in these words.
pub fn yes_or_no(text: &[u8]) -> Result<bool, LineFault>
    ensures { Reads (λ answer. answer) result (yes_or_no_in text.now) }
{
    if is(text, "yes") {
        Ok(true)
    } else if is(text, "no") {
        Ok(false)
    } else {
        Err(LineFault::NotAllowed)
    }
}

/// The number that the text says in base ten, a sign allowed.
fn parsed(text: &[u8]) -> Option<u64>
    ensures { result ≡ number_in text.now }
{
    // std's numbers may have a plus in front.
    if has_plus(text) {
        return None;
    }
    str::from_utf8(text).ok()?.parse::<u64>().ok()
}

/// Whether it has a plus sign.
fn has_plus(text: &[u8]) -> bool
    ensures { IsTrue result ↔ (slice_index text.now 0 ≡ 43) }
{
    !text.is_empty() && text[0] == b'+'
}

/// The bytes that hexadecimal digits of either case write, at least one; none where the text is something else.
pub fn read_hex(alloc: Global, text: &[u8]) -> Result<Option<Vec<u8>>, AllocError>
    ensures { IfOk result (λ bytes. option_map (λ v. v.items) bytes ≡ bytes_in text.now) }
{
    if text.is_empty() {
        return Ok(None);
    }
    match hex::decode(alloc, text) {
        Ok(bytes) => Ok(Some(bytes)),
        Err(FromHexError::OutOfMemory) => Err(AllocError),
        Err(_) => Ok(None),
    }
}

/// The same in a line of a script.
pub fn hex_bytes(alloc: Global, text: &[u8]) -> Result<Vec<u8>, LineFault>
    ensures { Reads (λ v. v.items) result (bytes_in text.now) }
{
    read_hex(alloc, text)?.ok_or(LineFault::NotAllowed)
}

/// The values of digits, at least one.
pub fn digits(alloc: Global, text: &[u8]) -> Result<Vec<u8>, LineFault>
    ensures { Reads (λ v. v.items) result (digits_in text.now) }
{
    if text.is_empty() {
        return Err(LineFault::NotAllowed);
    }
    let mut values = Vec::new(alloc);
    for digit in text {
        if !digit.is_ascii_digit() {
            return Err(LineFault::NotAllowed);
        }
        values.push(*digit - b'0')?;
    }
    Ok(values)
}

/// The 20 bytes that hexadecimal digits of either case write.
pub fn hex_digest(text: &[u8]) -> Result<[u8; 20], LineFault>
    ensures { Reads (λ digest. digest) result (digest_in text.now) }
{
    <[u8; 20] as FromHex>::from_hex(text).map_err(|_| LineFault::NotAllowed)
}

/// Whether the word is this one.
pub fn is(word: &[u8], name: &str) -> bool
    ensures { result ≡ bytes_eq word.now name.now }
{
    word == name.as_bytes()
}
