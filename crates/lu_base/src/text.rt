//! The texts of values, and reading them back.

ghost use Rattle.std.specs.Prelude.{◌≡◌, ◌≢◌, ℕ, ◌+◌, ◌/◌, ◌%◌, ◌^◌, ◌<◌, ◌≤◌, ◌↔◌, ◌==◌, List, [], ◌∷◌, ◌++◌, length, take, map, IfOk, OnOk, OnErr, IfSome, IfNone, IsTrue, All, decimal, slice_index};
ghost use Rattle.std.specs.List.{slice_split, list_all, AllPass};
ghost use Rattle.hex.specs.Hex.{encode_lower, IsBytes};
ghost use Rattle.lu_base.specs.Texts.{pair_text, repeated_text, bytes_text, is_repeated, HasStar, IsRepeatedText, IsDataText, is_name_byte, IsName, AreNames, path_text, further_text, IsPath};

use super::faults::Memory;
use super::sequence::{Bytes, Name, Names, Path};
use itoa::Buffer;
use std::alloc::Global;

/// The most names that a path has.
const MOST_NAMES: usize = 32;

/// The most bytes that a path has.
const MOST_PATH_BYTES: usize = 1024;

/// The most times that a repeated byte stands.
const MOST_REPEATS: u64 = 65536;

/// Appends the decimal text of a number. After want of memory `out` is as before.
pub fn put_number(out: &mut Bytes, n: u64) -> Result<(), Memory>
    ensures put { OnOk result (out.new ≡ out.old ++ decimal n) }
    ensures kept { OnErr result (out.new ≡ out.old) }
{
    let mut buffer = Buffer::new();
    out.extend(buffer.format(n).as_bytes())
}

/// Appends `high.low`, the high and the low 32 bits in decimal. After want of memory `out` is as before.
pub fn put_pair(out: &mut Bytes, n: u64) -> Result<(), Memory>
    ensures put { OnOk result (out.new ≡ out.old ++ pair_text n) }
    ensures kept { OnErr result (out.new ≡ out.old) }
{
    let length = out.len();
    let put = put_halves(out, n >> 32, n & 0xffff_ffff);
    if put.is_err() {
        out.truncate(length);
    }
    put
}

/// Appends two numbers with a dot between them.
fn put_halves(out: &mut Bytes, high: u64, low: u64) -> Result<(), Memory>
    ensures put { OnOk result (out.new ≡ out.old ++ (decimal high ++ 46 ∷ decimal low)) }
    ensures before { take (length out.old) out.new ≡ out.old }
{
    put_number(out, high)?;
    out.push(b'.')?;
    put_number(out, low)
}

/// Appends bytes: `-` for none; two or more equal ones as the byte, `*` and their number; else two
/// hexadecimal digits a byte. After want of memory `out` is as before.
pub fn put_bytes(out: &mut Bytes, held: &[u8]) -> Result<(), Memory>
    ensures put { OnOk result (out.new ≡ out.old ++ bytes_text held.now) }
    ensures kept { OnErr result (out.new ≡ out.old) }
{
    let length = out.len();
    let put = put_held(out, held);
    if put.is_err() {
        out.truncate(length);
    }
    put
}

/// Appends the text of bytes, or a part of it.
fn put_held(out: &mut Bytes, held: &[u8]) -> Result<(), Memory>
    ensures put { OnOk result (out.new ≡ out.old ++ bytes_text held.now) }
    ensures before { take (length out.old) out.new ≡ out.old }
{
    let Some(byte) = held.first() else {
        return out.push(b'-');
    };
    if is_repeated(held) {
        put_repeated(out, *byte, held.len())
    } else {
        put_digits(out, held)
    }
}

/// Whether there are two or more bytes, all equal.
fn is_repeated(held: &[u8]) -> bool
    ensures test { result ≡ is_repeated held.now }
{
    match held.split_first() {
        None => false,
        Some((byte, rest)) => !rest.is_empty() && are_all(rest, *byte),
    }
}

/// Whether all these bytes are the byte.
fn are_all(held: &[u8], byte: u8) -> bool
    ensures test { result ≡ list_all (λ other. other == byte) held.now }
{
    held.iter().all(|other| *other == byte)
}

/// Appends a byte, `*` and how often it stands.
fn put_repeated(out: &mut Bytes, byte: u8, count: usize) -> Result<(), Memory>
    ensures put { OnOk result (out.new ≡ out.old ++ repeated_text byte count) }
    ensures before { take (length out.old) out.new ≡ out.old }
{
    put_digits(out, &[byte])?;
    out.push(b'*')?;
    put_number(out, count as u64)
}

/// Appends two hexadecimal digits a byte.
fn put_digits(out: &mut Bytes, held: &[u8]) -> Result<(), Memory>
    ensures put { OnOk result (out.new ≡ out.old ++ encode_lower held.now) }
    ensures before { take (length out.old) out.new ≡ out.old }
{
    for byte in held {
        out.extend(&digits_of(*byte))?;
    }
    Ok(())
}

/// The two hexadecimal digits of a byte.
fn digits_of(byte: u8) -> [u8; 2]
    ensures digits { result ≡ encode_lower (byte ∷ []) }
{
    let mut digits = [0u8; 2];
    let written = hex::encode_to_slice([byte].as_slice(), &mut digits);
    prove!(written.is_ok());
    digits
}

/// The number whose decimal text this is, below 2^64, without sign and needless zeros.
pub fn read_number(text: &[u8]) -> Option<u64>
    ensures some { IfSome result (λ n. text.now ≡ decimal n) }
    ensures fits { IfSome result (λ n. n < 2 ^ 64) }
    ensures none { IfNone result ((n : ℕ) → n < 2 ^ 64 → text.now ≢ decimal n) }
{
    let Ok(held) = std::str::from_utf8(text) else {
        return None;
    };
    let Ok(n) = held.parse::<u64>() else {
        return None;
    };
    let mut buffer = Buffer::new();
    if buffer.format(n).as_bytes() == text {
        return Some(n);
    }
    None
}

/// The bytes that a text says, in the form of a scenario: two lower case hexadecimal digits a byte, at
/// least one byte; or one byte, `*` and a number from 1 to 65,536. None where the text has neither form.
pub fn read_bytes(alloc: Global, text: &[u8]) -> Result<Option<Bytes>, Memory>
    ensures some { IfOk result (λ read. IfSome read (λ bytes. IsDataText text.now bytes)) }
    ensures none { IfOk result (λ read. IfNone read ((bytes : List ℕ) → IsBytes bytes → ¬ IsDataText text.now bytes)) }
    ensures bytes { IfOk result (λ read. IfSome read IsBytes) }
{
    if has_star(text) {
        read_repeated(alloc, text)
    } else {
        read_digits(alloc, text)
    }
}

/// Whether the third byte is `*`.
fn has_star(text: &[u8]) -> bool
    ensures star { IsTrue result ↔ HasStar text.now }
{
    text.len() > 2 && text[2] == b'*'
}

/// The bytes of two digits each, at least one byte.
fn read_digits(alloc: Global, text: &[u8]) -> Result<Option<Bytes>, Memory>
    ensures some { IfOk result (λ read. IfSome read (λ bytes. (text.now ≡ encode_lower bytes) × (bytes ≢ []))) }
    ensures none { IfOk result (λ read. IfNone read ((b : List ℕ) → IsBytes b → text.now ≡ encode_lower b → b ≡ [])) }
    ensures bytes { IfOk result (λ read. IfSome read IsBytes) }
{
    let mut bytes = vec![in alloc; 0u8; text.len() / 2]?;
    if bytes.is_empty() {
        return Ok(None);
    }
    if hex::decode_to_slice(text, bytes.as_mut_slice()).is_err() {
        return Ok(None);
    }
    if !is_digits(alloc, text, bytes.as_slice())? {
        return Ok(None);
    }
    Ok(Some(Bytes::from(bytes)))
}

/// Whether a text is the lower case digits of these bytes.
fn is_digits(alloc: Global, text: &[u8], bytes: &[u8]) -> Result<bool, Memory>
    ensures test { IfOk result (λ is. IsTrue is ↔ (text.now ≡ encode_lower bytes.now)) }
{
    let digits = hex::encode(alloc, bytes)?;
    Ok(digits.as_bytes() == text)
}

/// A repeated byte, of a text whose third byte is `*`.
fn read_repeated(alloc: Global, text: &[u8]) -> Result<Option<Bytes>, Memory>
    requires star { HasStar text.now }
    ensures some { IfOk result (λ read. IfSome read (IsRepeatedText text.now)) }
    ensures none { IfOk result (λ read. IfNone read ((bytes : List ℕ) → ¬ IsRepeatedText text.now bytes)) }
    ensures bytes { IfOk result (λ read. IfSome read IsBytes) }
{
    let Some(byte) = read_byte(&text[..2]) else {
        return Ok(None);
    };
    let Some(count) = read_number(&text[3..]) else {
        return Ok(None);
    };
    if count == 0 || count > MOST_REPEATS {
        return Ok(None);
    }
    Ok(Some(Bytes::from(vec![in alloc; byte; count as usize]?)))
}

/// The byte of two lower case digits.
fn read_byte(digits: &[u8]) -> Option<u8>
    ensures some { IfSome result (λ byte. digits.now ≡ encode_lower (byte ∷ [])) }
    ensures none { IfNone result ((byte : ℕ) → byte < 256 → digits.now ≢ encode_lower (byte ∷ [])) }
{
    let mut byte = [0u8; 1];
    if hex::decode_to_slice(digits, &mut byte).is_err() {
        return None;
    }
    if digits_of(byte[0]).as_slice() == digits {
        return Some(byte[0]);
    }
    None
}

/// Appends a path: `/`, and its names joined by `/`. After want of memory `out` is as before.
pub fn put_path(out: &mut Bytes, path: &Path) -> Result<(), Memory>
    ensures put { OnOk result (out.new ≡ out.old ++ path_text path.now) }
    ensures kept { OnErr result (out.new ≡ out.old) }
{
    let length = out.len();
    let put = put_names(out, path.as_slice());
    if put.is_err() {
        out.truncate(length);
    }
    put
}

/// Appends `/` and names joined by `/`, or a part of it.
fn put_names(out: &mut Bytes, names: &[Name]) -> Result<(), Memory>
    ensures put { OnOk result (out.new ≡ out.old ++ path_text names.now) }
    ensures before { take (length out.old) out.new ≡ out.old }
{
    if names.is_empty() {
        return out.push(b'/');
    }
    put_further_names(out, names)
}

/// Appends `/` and a name, for each name, or a part of it.
fn put_further_names(out: &mut Bytes, names: &[Name]) -> Result<(), Memory>
    ensures put { OnOk result (out.new ≡ out.old ++ further_text names.now) }
    ensures before { take (length out.old) out.new ≡ out.old }
{
    for name in names {
        out.push(b'/')?;
        out.extend(name.as_slice())?;
    }
    Ok(())
}

/// The parts of a text between the bytes that separate them.
pub fn split_at_byte(alloc: Global, text: &[u8], separator: u8) -> Result<Vec<&[u8]>, Memory>
    ensures parts { IfOk result (λ all. map (λ part. part.now) all.items ≡ slice_split (λ b. b == separator) text.now) }
{
    let parts = text.split(|byte| *byte == separator).collect(alloc)?;
    Ok(parts)
}

/// The path that a text says, in the form of a scenario: `/`, or names that each follow a `/`, at most
/// 32 of them and 1,024 bytes in all. A name may be longer than a directory takes. None where the text
/// has no such form.
pub fn read_path(alloc: Global, text: &[u8]) -> Result<Option<Path>, Memory>
    ensures some { IfOk result (λ read. IfSome read (λ path. IsPath path × (text.now ≡ path_text path))) }
    ensures none { IfOk result (λ read. IfNone read ((p : List (List ℕ)) → IsPath p → text.now ≢ path_text p)) }
{
    let Some((first, rest)) = text.split_first() else {
        return Ok(None);
    };
    if *first != b'/' || text.len() > MOST_PATH_BYTES {
        return Ok(None);
    }
    if rest.is_empty() {
        return Ok(Some(Path::new(alloc)));
    }
    read_names(alloc, rest)
}

/// Names joined by `/`.
fn read_names(alloc: Global, text: &[u8]) -> Result<Option<Path>, Memory>
    ensures some { IfOk result (λ read. IfSome read (λ p. (p ≡ slice_split (λ b. b == 47) text.now) × AreNames p)) }
    ensures none { IfOk result (λ read. IfNone read (¬ AreNames (slice_split (λ b. b == 47) text.now))) }
{
    let parts = split_at_byte(alloc, text, b'/')?;
    if !are_names(parts.as_slice()) {
        return Ok(None);
    }
    let names = copy_all(alloc, parts.as_slice())?;
    Ok(Some(names))
}

/// Whether these are names, and not more than a path has.
fn are_names(parts: &[&[u8]]) -> bool
    ensures test { IsTrue result ↔ AreNames (map (λ part. part.now) parts.now) }
{
    if parts.len() > MOST_NAMES {
        return false;
    }
    all_are_names(parts)
}

/// Whether each of these is a name.
fn all_are_names(parts: &[&[u8]]) -> bool
    ensures test { IsTrue result ↔ All (λ part. IsName part.now) parts.now }
{
    parts.iter().all(|part| is_name(part))
}

/// Copies of these bytes.
fn copy_all(alloc: Global, parts: &[&[u8]]) -> Result<Names, Memory>
    ensures same { IfOk result (λ names. names ≡ map (λ part. part.now) parts.now) }
{
    let mut names = Names::new(alloc);
    for part in parts {
        names.push(Bytes::from_slice(alloc, part)?)?;
    }
    Ok(names)
}

/// Whether this is a name that a scenario can write: letters, digits, `.`, `_` and `-`, at least one,
/// and neither `.` nor `..`.
pub fn is_name(text: &[u8]) -> bool
    ensures test { IsTrue result ↔ IsName text.now }
{
    if text.is_empty() || text == b".".as_slice() || text == b"..".as_slice() {
        return false;
    }
    are_name_bytes(text)
}

/// Whether a name may hold these bytes.
fn are_name_bytes(text: &[u8]) -> bool
    ensures test { IsTrue result ↔ AllPass is_name_byte text.now }
{
    text.iter().all(|byte| is_name_byte(*byte))
}

/// Whether a name may hold this byte.
fn is_name_byte(byte: u8) -> bool
    ensures test { result ≡ is_name_byte byte }
{
    byte.is_ascii_alphanumeric() || byte == b'.' || byte == b'_' || byte == b'-'
}
