//! Keccak-f[1600] (FIPS 202, section 3).
#![tactic(auto)]

ghost use Rattle.std.specs.Prelude.{◌≡◌, ◌<◌};
ghost use Rattle.shake.specs.Keccak.{lane, plane, effects, theta, rho, pi, chi, round, keccak_f};

/// The constants of iota.
pub(crate) const ROUND_CONSTANTS: [u64; 24] = [
    0x0000000000000001,
    0x0000000000008082,
    0x800000000000808a,
    0x8000000080008000,
    0x000000000000808b,
    0x0000000080000001,
    0x8000000080008081,
    0x8000000000008009,
    0x000000000000008a,
    0x0000000000000088,
    0x0000000080008009,
    0x000000008000000a,
    0x000000008000808b,
    0x800000000000008b,
    0x8000000000008089,
    0x8000000000008003,
    0x8000000000008002,
    0x8000000000000080,
    0x000000000000800a,
    0x800000008000000a,
    0x8000000080008081,
    0x8000000000008080,
    0x0000000080000001,
    0x8000000080008008,
];

/// The offsets of rho (table 2) modulo 64: that of lane (x, y) at place `x + 5 * y`.
const OFFSETS: [u32; 25] = [
    0, 1, 62, 28, 27, 36, 44, 6, 55, 20, 3, 10, 43, 25, 39, 41, 45, 15, 21, 8, 18, 2, 61, 56, 14,
];

/// What theta adds to each column.
#[inline(always)]
pub(crate) fn effects(a: &[u64; 25]) -> [u64; 5]
    ensures { result ≡ effects a.now }
{
    let c0 = a[0] ^ a[5] ^ a[10] ^ a[15] ^ a[20];
    let c1 = a[1] ^ a[6] ^ a[11] ^ a[16] ^ a[21];
    let c2 = a[2] ^ a[7] ^ a[12] ^ a[17] ^ a[22];
    let c3 = a[3] ^ a[8] ^ a[13] ^ a[18] ^ a[23];
    let c4 = a[4] ^ a[9] ^ a[14] ^ a[19] ^ a[24];
    [
        c4 ^ c1.rotate_left(1),
        c0 ^ c2.rotate_left(1),
        c1 ^ c3.rotate_left(1),
        c2 ^ c4.rotate_left(1),
        c3 ^ c0.rotate_left(1),
    ]
}

/// Lane (x, y) after theta, rho and pi. Theta adds `d` to the columns.
#[inline(always)]
fn moved_lane(a: &[u64; 25], d: &[u64; 5], x: usize, y: usize) -> u64
    requires place { (x < 5) × (y < 5) }
    requires effects { d.now ≡ effects a.now }
    ensures { result ≡ lane (pi (rho (theta a.now))) x y }
{
    let column = (x + 3 * y) % 5;
    let from = column + 5 * x;
    (a[from] ^ d[column]).rotate_left(OFFSETS[from])
}

/// The lanes (0, y) to (4, y) after theta, rho, pi and chi. Theta adds `d` to the columns.
#[inline(always)]
pub(crate) fn plane(a: &[u64; 25], d: &[u64; 5], y: usize) -> [u64; 5]
    requires place { y < 5 }
    requires effects { d.now ≡ effects a.now }
    ensures { result ≡ plane (chi (pi (rho (theta a.now)))) y }
{
    let b0 = moved_lane(a, d, 0, y);
    let b1 = moved_lane(a, d, 1, y);
    let b2 = moved_lane(a, d, 2, y);
    let b3 = moved_lane(a, d, 3, y);
    let b4 = moved_lane(a, d, 4, y);
    [
        b0 ^ (!b1 & b2),
        b1 ^ (!b2 & b3),
        b2 ^ (!b3 & b4),
        b3 ^ (!b4 & b0),
        b4 ^ (!b0 & b1),
    ]
}

/// A round, plane by plane, so that few lanes are at hand at a time.
#[inline(always)]
pub(crate) fn round(a: &[u64; 25], constant: u64) -> [u64; 25]
    ensures { result ≡ round a.now constant }
{
    let d = effects(a);
    let [e0, e1, e2, e3, e4] = plane(a, &d, 0);
    let [e5, e6, e7, e8, e9] = plane(a, &d, 1);
    let [e10, e11, e12, e13, e14] = plane(a, &d, 2);
    let [e15, e16, e17, e18, e19] = plane(a, &d, 3);
    let [e20, e21, e22, e23, e24] = plane(a, &d, 4);
    [
        e0 ^ constant,
        e1,
        e2,
        e3,
        e4,
        e5,
        e6,
        e7,
        e8,
        e9,
        e10,
        e11,
        e12,
        e13,
        e14,
        e15,
        e16,
        e17,
        e18,
        e19,
        e20,
        e21,
        e22,
        e23,
        e24,
    ]
}

/// The permutation Keccak-f[1600] of the 25 lanes of a state, lane (x, y) at place `x + 5 * y`.
// Compiled for AVX2 too.
pub fn f1600(state: &mut [u64; 25])
    ensures { state.new ≡ keccak_f state.old }
{
    let mut a = *state;
    // two rounds a turn, so that the state between them need not be stored
    for pair in 0..12 {
        let b = round(&a, ROUND_CONSTANTS[2 * pair]);
        a = round(&b, ROUND_CONSTANTS[2 * pair + 1]);
    }
    *state = a;
}
