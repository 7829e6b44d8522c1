//! Base64 (RFC 4648, section 4), with padding, and in its one spelling: the bits behind the last byte are zero. No branch and no
//! address depends on a symbol that is right, or on a byte.
#![tactic(auto)]

ghost use Rattle.std.specs.Prelude.{◌≡◌, ◌<◌, ◌≤◌, ◌+◌, ◌++◌, ◌&&◌, ◌==◌, not, nat_lt, Ok, ℕ, List, [], ◌∷◌, length, take, drop, MatchOption, IfSome, IfOk, min, ◌-◌, ◌/◌, ◌*◌};
ghost use Rattle.std.specs.List.{filter};
ghost use Rattle.fips204_shake.specs.Base64.{symbol, base64, base64_length, IsBytes};
ghost use Rattle.fips204_shake.specs.Base64Reading.{value_of, group_at, symbols_at, is_black};
ghost use Rattle.fips204_shake.specs.Reading.{Gives};

use crate::pem::fault::PemFault;

/// 1 if the byte is at least so large, and else 0.
fn is_from(byte: u32, least: u32) -> u32
    requires { (byte < 256) × (0 < least) × (least ≤ 256) }
    ensures { result ≡ (byte + 256 - least) / 256 }
{
    (byte + 256 - least) / 256
}

/// The number of a symbol, or at least 256 for another byte.
fn value(byte: u8) -> u32
    ensures number { min 64 result ≡ value_of byte }
    ensures apart { 64 ≤ result → 256 ≤ result }
    ensures small { result < 1024 }
{
    let byte = byte as u32;
    let plus = is_from(byte, 43) - is_from(byte, 44);
    let slash = is_from(byte, 47) - is_from(byte, 48);
    let digit = is_from(byte, 48) - is_from(byte, 58);
    let upper = is_from(byte, 65) - is_from(byte, 91);
    let lower = is_from(byte, 97) - is_from(byte, 123);
    let other = 1 - (plus + slash + digit + upper + lower);
    byte + 19 * plus + 16 * slash + 4 * digit + 256 * other - 65 * upper - 71 * lower
}

/// The symbol of a number.
fn symbol(value: u8) -> u8
    requires { value < 64 }
    ensures { result ≡ symbol value }
{
    let value = value as u32;
    let lower = is_from(value, 26);
    let digit = is_from(value, 52);
    let plus = is_from(value, 62);
    let slash = is_from(value, 63);
    (value + 65 + 6 * lower + 3 * slash - 75 * digit - 15 * plus) as u8
}

/// The bytes of four symbols, and how many they are.
fn group(a: u8, b: u8, c: u8, d: u8) -> Result<([u8; 3], usize), PemFault>
    ensures bytes { Gives (λ x. take x.1 x.0) result (group_at a b c d) }
    ensures size { IfOk result (λ x. length (take x.1 x.0) ≡ x.1) }
{
    let p = value(a);
    let q = value(b);
    if d != b'=' {
        let r = value(c);
        let s = value(d);
        if p + q + r + s >= 256 {
            return Err(PemFault::Damaged);
        }
        let bytes = [
            (4 * p + q / 16) as u8,
            (16 * (q % 16) + r / 4) as u8,
            (64 * (r % 4) + s) as u8,
        ];
        return Ok((bytes, 3));
    }
    if c != b'=' {
        let r = value(c);
        if p + q + r >= 256 || r % 4 != 0 {
            return Err(PemFault::Damaged);
        }
        let bytes = [(4 * p + q / 16) as u8, (16 * (q % 16) + r / 4) as u8, 0];
        return Ok((bytes, 2));
    }
    if p + q >= 256 || q % 16 != 0 {
        return Err(PemFault::Damaged);
    }
    Ok(([(4 * p + q / 16) as u8, 0, 0], 1))
}

/// The first symbol of a text, and what stands behind it.
fn first_symbol(text: &[u8]) -> Option<(u8, &[u8])>
    ensures parts { MatchOption result (filter is_black text.now ≡ []) (λ x. filter is_black text.now ≡ x.0 ∷ filter is_black x.1.now) }
    ensures shorter { IfSome result (λ x. length x.1.now < length text.now) }
{
    let mut rest = text;
    while let [byte, after @ ..] = rest {
        // A symbol is above all white space.
        if *byte > b' ' || !byte.is_ascii_whitespace() {
            return Some((*byte, after));
        }
        rest = after;
    }
    None
}

/// The first three symbols of a text, and what stands behind them.
fn three_symbols(text: &[u8]) -> Option<(u8, u8, u8, &[u8])>
    ensures parts { MatchOption result (length (filter is_black text.now) < 3) (λ x. filter is_black text.now ≡ x.0 ∷ x.1 ∷ x.2 ∷ filter is_black x.3.now) }
    ensures shorter { IfSome result (λ x. length x.3.now < length text.now) }
{
    let Some((first, rest)) = first_symbol(text) else {
        return None;
    };
    let Some((second, rest)) = first_symbol(rest) else {
        return None;
    };
    let Some((third, rest)) = first_symbol(rest) else {
        return None;
    };
    Some((first, second, third, rest))
}

/// Whether symbols follow a group that only the last one may be.
fn is_followed(size: usize, after: &[u8]) -> bool
    ensures { result ≡ (nat_lt size 3 && not (length (filter is_black after.now) == 0)) }
{
    size < 3 && first_symbol(after).is_some()
}

/// Writes a part at this place, and returns the place behind it.
pub(crate) fn put(out: &mut [u8], at: usize, part: &[u8]) -> usize
    requires { at + length part.now ≤ length out.old }
    ensures place { result ≡ at + length part.now }
    ensures written { take result out.new ≡ take at out.old ++ part.now }
{
    let end = at + part.len();
    out[at..end].copy_from_slice(part);
    end
}

/// Decodes what a text has beside white space, and returns how many bytes it wrote.
fn decoded(text: &[u8], out: &mut [u8]) -> Result<usize, PemFault>
    ensures exact { Gives (λ n. take n out.new) result (symbols_at (length out.old) (filter is_black text.now)) }
    ensures within { IfOk result (λ n. n ≤ length out.old) }
{
    let mut rest = text;
    let mut at = 0;
    while let Some((a, behind)) = first_symbol(rest) {
        let Some((b, c, d, after)) = three_symbols(behind) else {
            return Err(PemFault::Damaged);
        };
        let (bytes, size) = group(a, b, c, d)?;
        if is_followed(size, after) {
            return Err(PemFault::Damaged);
        }
        if out.len() - at < size {
            return Err(PemFault::TooLong);
        }
        at = put(out, at, &bytes[..size]);
        rest = after;
    }
    Ok(at)
}

/// Decodes base64 that may have white space anywhere, and returns how many bytes it wrote, at the front of `out`.
///
/// Errors: `Damaged` or `TooLong`, whichever is met first.
pub fn decode(text: &[u8], out: &mut [u8]) -> Result<usize, PemFault>
    // What is written is what the text spells.
    ensures found { IfOk result (λ n. filter is_black text.now ≡ base64 (take n out.new)) }
    // What a text spells is written, where there is room for it.
    ensures only { (bytes : List ℕ) → IsBytes bytes → filter is_black text.now ≡ base64 bytes → length bytes ≤ length out.old
        → Gives {Y = List ℕ} (λ n. take n out.new) result (Ok bytes) }
    // Which fault it is.
    ensures exact { Gives (λ n. take n out.new) result (symbols_at (length out.old) (filter is_black text.now)) }
    ensures within { IfOk result (λ n. n ≤ length out.old) }
{
    decoded(text, out)
}

/// Writes the symbols of bytes at this place, and returns the place behind them.
pub(crate) fn put_symbols(out: &mut [u8], at: usize, bytes: &[u8]) -> usize
    requires { at + base64_length (length bytes.now) ≤ length out.old }
    ensures place { result ≡ at + base64_length (length bytes.now) }
    ensures written { take result out.new ≡ take at out.old ++ base64 bytes.now }
{
    let mut rest = bytes;
    let mut at = at;
    while let [a, b, c, after @ ..] = rest {
        at = put(out, at, &three(*a, *b, *c));
        rest = after;
    }
    match rest {
        [a, b, ..] => put(out, at, &two(*a, *b)),
        [a] => put(out, at, &one(*a)),
        [] => at,
    }
}

/// The symbols of three bytes.
#[tactic(auto, using(crate::proofs::Base64Groups::of_three))]
fn three(a: u8, b: u8, c: u8) -> [u8; 4]
    ensures { (rest : List ℕ) → base64 (a ∷ b ∷ c ∷ rest) ≡ result ++ base64 rest }
{
    [
        symbol(a / 4),
        symbol(16 * (a % 4) + b / 16),
        symbol(4 * (b % 16) + c / 64),
        symbol(c % 64),
    ]
}

/// The symbols of two bytes at the end.
#[tactic(auto, using(crate::proofs::Base64Groups::of_two))]
fn two(a: u8, b: u8) -> [u8; 4]
    ensures { base64 (a ∷ b ∷ []) ≡ result }
{
    [
        symbol(a / 4),
        symbol(16 * (a % 4) + b / 16),
        symbol(4 * (b % 16)),
        b'=',
    ]
}

/// The symbols of one byte at the end.
#[tactic(auto, using(crate::proofs::Base64Groups::of_one))]
fn one(a: u8) -> [u8; 4]
    ensures { base64 (a ∷ []) ≡ result }
{
    [symbol(a / 4), symbol(16 * (a % 4)), b'=', b'=']
}

/// Encodes bytes.
pub fn encode(bytes: &[u8], out: &mut [u8])
    requires { length out.old ≡ base64_length (length bytes.now) }
    ensures { out.new ≡ base64 bytes.now }
{
    put_symbols(out, 0, bytes);
}
