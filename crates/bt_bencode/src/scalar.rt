//! Integers and strings, read where they stand.
ghost use Rattle.std.specs.Prelude.{◌≡◌, ◌+◌, ◌<◌, ◌≤◌, ◌^◌, length, Some, None, nat_lt, if◌then◌else◌, All, IsTrue, IfOk, option_map};
ghost use Rattle.std.specs.Char.{is_ascii_digit};
ghost use Rattle.std.specs.Str.Parse.{digits_value};
ghost use Rattle.bt_bencode.specs.Reading.{seen, key_at, is_late, no_key, run_at, is_padded, string_at, integer_at, integer_of, signed_of};

use crate::fault::BenFault;

/// The integer behind an `i`, and the place behind it.
pub(crate) fn integer(source: &[u8], at: usize) -> Result<(i64, usize), BenFault>
    requires { at ≤ length source.now }
    ensures read { result ≡ integer_at source.now at }
    ensures end { IfOk result (λ x. (at < x.1) × (x.1 ≤ length source.now)) }
{
    let negative = at < source.len() && source[at] == b'-';
    let start = if negative { at + 1 } else { at };
    let run = digits(source, start);
    let end = start + run.len();
    if end == source.len() {
        return Err(BenFault::Truncated);
    }
    if source[end] != b'e' {
        return Err(BenFault::BadInteger);
    }
    Ok((integer_of(negative, run)?, end + 1))
}

/// The integer that a sign and a run of digits write.
fn integer_of(negative: bool, run: &[u8]) -> Result<i64, BenFault>
    requires { All (λ c. IsTrue (is_ascii_digit c)) run.now }
    ensures { result ≡ integer_of negative run.now }
{
    if run.is_empty() || padded(run) || (negative && run[0] == b'0') {
        return Err(BenFault::BadInteger);
    }
    let Some(number) = number(run) else {
        return Err(BenFault::IntegerRange);
    };
    match signed(negative, number) {
        Some(number) => Ok(number),
        None => Err(BenFault::IntegerRange),
    }
}

/// The number with its sign, where an i64 holds it.
fn signed(negative: bool, number: u64) -> Option<i64>
    ensures { result ≡ (if nat_lt number (if negative then 2 ^ 63 + 1 else 2 ^ 63) then Some (signed_of negative number) else None) }
{
    if negative {
        if number == 1 << 63 {
            return Some(i64::MIN);
        }
        if number > 1 << 63 {
            return None;
        }
        return Some(-(number as i64));
    }
    if number >= 1 << 63 {
        return None;
    }
    Some(number as i64)
}

/// The string at whose place a digit stands, and the place behind it.
pub(crate) fn string(source: &[u8], at: usize) -> Result<(&[u8], usize), BenFault>
    requires { at ≤ length source.now }
    ensures read { seen (λ x. (x.0.now, x.1)) result ≡ string_at source.now at }
    ensures end { IfOk result (λ x. (at < x.1) × (x.1 ≤ length source.now)) }
{
    let run = digits(source, at);
    let end = at + run.len();
    if end == source.len() {
        return Err(BenFault::Truncated);
    }
    if source[end] != b':' || padded(run) {
        return Err(BenFault::BadLength);
    }
    let start = end + 1;
    match number(run) {
        Some(len) if len <= (source.len() - start) as u64 => {
            let len = len as usize;
            Ok((&source[start..start + len], start + len))
        }
        _ => Err(BenFault::Truncated),
    }
}

/// The longest run of digits at a place.
fn digits(source: &[u8], at: usize) -> &[u8]
    requires { at ≤ length source.now }
    ensures run { result.now ≡ run_at source.now at }
    ensures within { at + length result.now ≤ length source.now }
{
    let mut end = at;
    while end < source.len() && source[end].is_ascii_digit() {
        end += 1;
    }
    &source[at..end]
}

/// Whether a zero stands before another digit.
fn padded(run: &[u8]) -> bool
    ensures { result ≡ is_padded run.now }
{
    run.len() > 1 && run[0] == b'0'
}

/// The number that digits write, where 64 bits hold it.
fn number(run: &[u8]) -> Option<u64>
    requires { All (λ c. IsTrue (is_ascii_digit c)) run.now }
    ensures { result ≡ (if nat_lt (digits_value 10 run.now) (2 ^ 64) then Some (digits_value 10 run.now) else None) }
{
    let mut number: u64 = 0;
    for digit in run {
        let value = (*digit - b'0') as u64;
        if number > (u64::MAX - value) / 10 {
            return None;
        }
        number = number * 10 + value;
    }
    Some(number)
}

/// The key at a place, and the place behind it. It must be above the last one.
#[tactic(auto, unfolding(crate::specs::Reading::key_at))]
pub(crate) fn key<'a>(
    source: &'a [u8],
    at: usize,
    last: Option<&[u8]>,
) -> Result<(&'a [u8], usize), BenFault>
    requires { at < length source.now }
    ensures read { seen (λ x. (x.0.now, x.1)) result ≡ key_at source.now (option_map (λ x. x.now) last.entry) at }
    ensures end { IfOk result (λ x. (at < x.1) × (x.1 ≤ length source.now)) }
{
    if !source[at].is_ascii_digit() {
        return Err(no_key(source[at]));
    }
    let (key, end) = string(source, at)?;
    if is_late(last, key) {
        return Err(BenFault::KeyOrder);
    }
    Ok((key, end))
}

/// Whether a key should have come earlier: it is no greater than the last one.
fn is_late(last: Option<&[u8]>, key: &[u8]) -> bool
    ensures { result ≡ is_late (option_map (λ x. x.now) last.entry) key.now }
{
    match last {
        Some(last) => !last.cmp(key).is_lt(),
        None => false,
    }
}

/// Why no key begins with this byte.
fn no_key(byte: u8) -> BenFault
    ensures { result ≡ no_key byte }
{
    match byte {
        b'i' | b'l' | b'd' => BenFault::KeyKind,
        _ => BenFault::BadByte,
    }
}
