//! Coefficients: from bytes, reduced, rounded, packed, and their hints.
#![tactic(auto)]

ghost use Rattle.std.specs.Prelude.{◌≤ℤ◌, pos};
ghost use Rattle.std.specs.List.{All};

use fips204::conversion::{
    coeff_from_half_byte, coeff_from_three_bytes, simple_bit_pack, simple_bit_unpack,
};
use fips204::helpers::{ZETA_TABLE_MONT, center_mod, mont_reduce};
use fips204::high_low::{decompose, high_bits, make_hint, power2round, use_hint};
use fips204::types::R;

/// `12 34 56`, `12 34 80`, `01 E0 80` and `00 E0 7F` make coefficients, `01 E0 7F` makes none; so do half bytes 3 at
/// eta 2 and 8 at eta 4, but not 15 and 9.
#[test]
fn coefficients_of_bytes(rt: HostRuntime) {
    let of_triples = [
        coeff_from_three_bytes([0x12, 0x34, 0x56]),
        coeff_from_three_bytes([0x12, 0x34, 0x80]),
        coeff_from_three_bytes([0x01, 0xe0, 0x80]),
        coeff_from_three_bytes([0x01, 0xe0, 0x7f]),
        coeff_from_three_bytes([0x00, 0xe0, 0x7f]),
    ];
    let at_two = [coeff_from_half_byte(2, 3), coeff_from_half_byte(2, 15)];
    let at_four = [coeff_from_half_byte(4, 8), coeff_from_half_byte(4, 9)];
    let wanted = [Some(5649426), Some(13330), Some(57345), None, Some(8380416)];
    let wanted = (wanted, [Some(-1), None], [Some(-4), None]);
    assert_eq!(rt; (of_triples, at_two, at_four), wanted);
}

/// What `mont_reduce` gives, or `q - 1` outside of its range.
pub fn reduced(wide: i64) -> i32 {
    if -17996808470921216 <= wide && wide <= 17996808462540799 {
        mont_reduce(wide)
    } else {
        8380416
    }
}

/// `mont_reduce` at 0, 1, 2^32 and both ends of its range; the table of powers begins with 4193792, 25847, 5771523.
#[test]
fn montgomery_reductions(rt: HostRuntime) {
    let numbers = [0, 1, 4294967296, -17996808470921216, 17996808462540799];
    assert_eq!(rt; numbers.map(reduced), [0, -114592, 1, 0, 0]);
    assert!(rt; ZETA_TABLE_MONT.starts_with(&[4193792, 25847, 5771523]));
}

/// Centring at both ends of its range; hints at 0 wrap to 43 and 15, and 190465 and 523777 are the largest distances
/// that a hint leaves. `decompose` on both sides of q - 1 less gamma2; `make_hint` of 95232, the largest change for
/// which a hint is promised, and of 95233.
#[test]
fn centred_values_and_hints(rt: HostRuntime) {
    let near = [center_mod(0), center_mod(4190208)];
    let turned = [center_mod(4190209), center_mod(8380416)];
    let far = [center_mod(0 - 43 * 190464), center_mod(0 - 15 * 523776)];
    let hinted = [use_hint(95232, 1, 0), use_hint(261888, 1, 0)];
    let sides = [decompose(95232, 8285184), decompose(95232, 8285185)];
    let side = decompose(261888, 8118529);
    let hints = [make_hint(95232, 95232, 0), make_hint(95232, 95233, 0)];
    let high = [high_bits(95232, 95232), high_bits(95232, 95233)];
    let found = ([near, turned, far], (sides, side), (hinted, hints, high));
    let centred = [[0, 4190208], [-4190208, -1], [190465, 523777]];
    let parts = ([(43, 95232), (0, -95232)], (0, -261888));
    let hinted = ([43, 15], [false, true], [0, 1]);
    assert_eq!(rt; found, (centred, parts, hinted));
}

fn parts_of(coefficients: [i32; 256]) -> ([i32; 256], [i32; 256])
    requires { All (λ x. (pos 0 ≤ℤ x) × (x ≤ℤ pos 8380416)) coefficients }
{
    let (high, low) = power2round(&[R(coefficients)]);
    (high[0].0, low[0].0)
}

/// `power2round` of 4096, 4097 and q - 1.
#[test]
fn parts_of_coefficients(rt: HostRuntime) {
    assert!(rt; parts_of([4096; 256]) == ([0; 256], [4096; 256]));
    assert!(rt; parts_of([4097; 256]) == ([1; 256], [-4095; 256]));
    assert!(rt; parts_of([8380416; 256]) == ([1023; 256], [0; 256]));
}

/// 256 times 1023 packs to 320 bytes FF, and back.
#[test]
#[tactic(auto, unfolding(fips204_base::specs::Packing::bit_length))]
fn fields_of_ten_bits(rt: HostRuntime) {
    let mut bytes = [0u8; 320];
    simple_bit_pack(&R([1023; 256]), 1023, &mut bytes);
    let fields = simple_bit_unpack(&bytes, 1023).map(|w| w.0);
    assert!(rt; bytes == [0xff; 320] && fields == Some([1023; 256]));
}
