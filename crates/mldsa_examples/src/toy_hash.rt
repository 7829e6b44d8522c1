//! A toy hash, for the XOFs of `toy_stream`. Nothing here names the crate `fips204`.
#![tactic(auto)]

ghost use Rattle.std.specs.Prelude.{◌≡◌};
ghost use Rattle.std.specs.List.{fold, flat_map};
ghost use Rattle.mldsa_examples.specs.ToyHash.{next_state, toy_state, toy_hash};

/// The state after one more byte.
fn next_state(state: u32, byte: u8) -> u32
    ensures { result ≡ next_state state byte }
{
    ((state as u64 * 16_777_619 + byte as u64) % 4_294_967_291) as u32
}

/// The state after the bytes of one part.
fn absorb(state: u32, part: &[u8]) -> u32
    ensures { result ≡ fold next_state state part.now }
{
    let mut state = state;
    for byte in part {
        state = next_state(state, *byte);
    }
    state
}

/// The state after the joined parts, however they are cut.
pub fn state_of(parts: &[&[u8]]) -> u32
    ensures { result ≡ toy_state (flat_map (λ part. part.now) parts.now) }
{
    let mut state = 2_166_136_261;
    for part in parts {
        state = absorb(state, part);
    }
    state
}

/// The digest of the joined parts.
pub fn digest(parts: &[&[u8]]) -> [u8; 4]
    ensures { result ≡ toy_hash (flat_map (λ part. part.now) parts.now) }
{
    state_of(parts).to_le_bytes()
}
