//! Blocks of bytes, into and out of a state.
#![tactic(auto)]

ghost use Rattle.std.specs.Prelude.{◌≡◌, ◌<◌, ◌≤◌, ◌+◌, ◌*◌, ◌-◌, ◌%◌, ◌^◌, ◌++◌, ℕ, length, min, take, drop, slice_index};
ghost use Rattle.shake.specs.Shake.{bytes, block_lane, add_block, padding};

/// Copies from `source` as many bytes as `out` takes, and returns how many.
pub(crate) fn write_run(source: &[u8], out: &mut [u8]) -> usize
    ensures count { result ≡ min (length source.now) (length out.old) }
    ensures copied { out.new ≡ take result source.now ++ drop result out.old }
{
    let count = source.len().min(out.len());
    out[..count].copy_from_slice(&source[..count]);
    count
}

/// Lane `index` of a block.
#[inline(always)]
#[tactic(auto, unfolding(crate::specs::Shake::block_lane))]
fn block_lane(block: &[u8], index: usize) -> u64
    requires { 8 * index + 8 ≤ length block.now }
    ensures { result ≡ block_lane block.now index }
{
    let at = 8 * index;
    u64::from_le_bytes([
        block[at],
        block[at + 1],
        block[at + 2],
        block[at + 3],
        block[at + 4],
        block[at + 5],
        block[at + 6],
        block[at + 7],
    ])
}

/// Adds a block to the state.
// Rust: #[inline(always)]
pub(crate) fn add_block(state: &mut [u64; 25], block: &[u8])
    requires size { length block.now ≤ 200 }
    requires whole { length block.now % 8 ≡ 0 }
    ensures { state.new ≡ add_block state.old block.now }
{
    for index in 0..block.len() / 8 {
        state[index] ^= block_lane(block, index);
    }
}

/// Writes the first bytes of the state.
// Rust: #[inline(always)]
pub(crate) fn write_block(state: &[u64; 25], block: &mut [u8])
    requires size { length block.old ≤ 200 }
    requires whole { length block.old % 8 ≡ 0 }
    ensures written { block.new ≡ take (length block.old) (bytes state.now) }
    ensures words { (i : ℕ) → slice_index state.now i < 2 ^ 64 }
{
    for index in 0..block.len() / 8 {
        let at = 8 * index;
        block[at..at + 8].copy_from_slice(&state[index].to_le_bytes());
    }
}

/// Pads a block in which `used` bytes are of the message.
pub(crate) fn pad(block: &mut [u8], used: usize)
    requires { used < length block.old }
    ensures { block.new ≡ take used block.old ++ padding (length block.old - used) }
{
    let last = block.len() - 1;
    block[used..].fill(0);
    block[used] = 0x1f;
    block[last] |= 0x80;
}
