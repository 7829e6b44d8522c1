//! Keccak-f[1600] on four states side by side: lane by lane, that of each state.
#![tactic(auto)]

ghost use Rattle.std.specs.Prelude.{◌≡◌, ◌≢◌, ◌<◌, ◌≤◌, ◌%◌, ℕ, length, take, slice_set};
ghost use Rattle.shake.specs.Keccak.{round, keccak_f};
ghost use Rattle.shake.specs.Four.{AreFour, beside, state_at, with_plane};
ghost use Rattle.shake.specs.Shake.{bytes};

use crate::blocks::write_block;
use crate::permutation::{ROUND_CONSTANTS, effects, plane, round};

/// Writes four states side by side.
#[inline(always)]
pub(crate) fn write_beside(
    a: &[u64; 25],
    b: &[u64; 25],
    c: &[u64; 25],
    d: &[u64; 25],
    states: &mut [[u64; 4]; 25],
)
    ensures { states.new ≡ beside a.now b.now c.now d.now }
{
    for index in 0..25 {
        states[index] = [a[index], b[index], c[index], d[index]];
    }
}

/// State `j` of four.
#[inline(always)]
pub(crate) fn state_at(states: &[[u64; 4]; 25], j: usize) -> [u64; 25]
    requires { j < 4 }
    ensures { result ≡ state_at states.now j }
{
    let mut state = [0; 25];
    for index in 0..25 {
        state[index] = states[index][j];
    }
    state
}

/// Writes the first bytes of state `j`.
// Rust: #[inline(always)]
pub(crate) fn write_block_of(states: &[[u64; 4]; 25], j: usize, block: &mut [u8])
    requires place { j < 4 }
    requires size { length block.old ≤ 200 }
    requires whole { length block.old % 8 ≡ 0 }
    ensures { block.new ≡ take (length block.old) (bytes (state_at states.now j)) }
{
    write_block(&state_at(states, j), block);
}

/// Writes a lane of state `j`.
#[inline(always)]
fn write_lane(states: &mut [[u64; 4]; 25], j: usize, place: usize, lane: u64)
    requires four { AreFour states.old }
    requires place { (j < 4) × (place < 25) }
    ensures four { AreFour states.new }
    ensures written { state_at states.new j ≡ slice_set (state_at states.old j) place lane }
    ensures others { (i : ℕ) → i < 4 → i ≢ j → state_at states.new i ≡ state_at states.old i }
{
    states[place][j] = lane;
}

/// Writes the lanes (0, y) to (4, y) of state `j`.
#[inline(always)]
fn write_plane(states: &mut [[u64; 4]; 25], j: usize, y: usize, lanes: [u64; 5])
    requires four { AreFour states.old }
    requires place { (j < 4) × (y < 5) }
    ensures four { AreFour states.new }
    ensures written { state_at states.new j ≡ with_plane (state_at states.old j) y lanes }
    ensures others { (i : ℕ) → i < 4 → i ≢ j → state_at states.new i ≡ state_at states.old i }
{
    let [e0, e1, e2, e3, e4] = lanes;
    write_lane(states, j, 5 * y, e0);
    write_lane(states, j, 5 * y + 1, e1);
    write_lane(states, j, 5 * y + 2, e2);
    write_lane(states, j, 5 * y + 3, e3);
    write_lane(states, j, 5 * y + 4, e4);
}

/// Two rounds of each state, written plane by plane. The compiler takes as many states at a time as a vector of the processor
/// has lanes.
#[inline(always)]
fn two_rounds(states: &mut [[u64; 4]; 25], first: u64, second: u64)
    requires { AreFour states.old }
    ensures four { AreFour states.new }
    ensures rounds { (j : ℕ) → j < 4 → state_at states.new j ≡ round (round (state_at states.old j) first) second }
{
    for j in 0..4 {
        let a = round(&state_at(states, j), first);
        let d = effects(&a);
        let [e0, e1, e2, e3, e4] = plane(&a, &d, 0);
        write_plane(states, j, 0, [e0 ^ second, e1, e2, e3, e4]);
        write_plane(states, j, 1, plane(&a, &d, 1));
        write_plane(states, j, 2, plane(&a, &d, 2));
        write_plane(states, j, 3, plane(&a, &d, 3));
        write_plane(states, j, 4, plane(&a, &d, 4));
    }
}

/// The permutation Keccak-f[1600] of each state. The rounds are a loop: 24 of them one after the other are more instructions
/// than the processor keeps at hand, and take longer.
// Compiled for AVX2 too.
pub(crate) fn f1600x4(states: &mut [[u64; 4]; 25])
    requires { AreFour states.old }
    ensures four { AreFour states.new }
    ensures permuted { (j : ℕ) → j < 4 → state_at states.new j ≡ keccak_f (state_at states.old j) }
{
    for pair in 0..12 {
        two_rounds(
            states,
            ROUND_CONSTANTS[2 * pair],
            ROUND_CONSTANTS[2 * pair + 1],
        );
    }
}

/// The permutation Keccak-f[1600] of each of four states.
pub fn f1600_four(a: &mut [u64; 25], b: &mut [u64; 25], c: &mut [u64; 25], d: &mut [u64; 25])
    ensures first { a.new ≡ keccak_f a.old }
    ensures second { b.new ≡ keccak_f b.old }
    ensures third { c.new ≡ keccak_f c.old }
    ensures fourth { d.new ≡ keccak_f d.old }
{
    let mut states = [[0; 4]; 25];
    write_beside(a, b, c, d, &mut states);
    f1600x4(&mut states);
    *a = state_at(&states, 0);
    *b = state_at(&states, 1);
    *c = state_at(&states, 2);
    *d = state_at(&states, 3);
}
