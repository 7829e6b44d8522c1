//! Keys as bytes (FIPS 204, Algorithms 22 and 23).
#![tactic(auto)]

ghost use Rattle.std.specs.Prelude.{◌≡◌, ◌+◌, ◌*◌, pos, length};
ghost use Rattle.std.specs.List.{All};
ghost use Rattle.fips204_base.specs.Encodings.{public_key_bytes};
ghost use Rattle.fips204_base.specs.Bounds.{VectorInRange};
ghost use Rattle.fips204_base.specs.Vectors.{IsVector};

mod private_key;
mod signature;
mod vectors;

use crate::types::{R, R0};
pub use private_key::{sk_decode, sk_encode, write_private_key_parts};
pub use signature::{
    sig_decode, sig_encode, w1_encode, write_encoded_signature, write_signature_parts,
};
pub(crate) use vectors::polynomial_size;
use vectors::{write_packed_vector, write_unpacked_vector};

/// `pkEncode` (Algorithm 22): encodes a public key, `rho` followed by the polynomials of `t1`, whose
/// coefficients are in `[0, 1023]`. `PK_LEN` is `32 + 320 * K`.
#[tactic(auto, unfolding(crate::specs::Packing::bit_length))]
pub fn pk_encode<const K: usize, const PK_LEN: usize>(rho: &[u8; 32], t1: &[R; K]) -> [u8; PK_LEN]
    requires size { PK_LEN ≡ 32 + 320 * K }
    requires range { VectorInRange (pos 0) (pos 1023) t1.now }
    ensures { result ≡ public_key_bytes rho.now t1.now }
{
    let mut pk = [0u8; PK_LEN];
    let (seed, vector) = pk.split_at_mut(32);
    // line 1: pk = rho
    seed.copy_from_slice(rho);
    // lines 2 to 4: pk = pk || SimpleBitPack(t1[i], 2^(bitlen(q - 1) - d) - 1)
    write_packed_vector(t1, 0, 1023, vector);
    pk
}

/// `pkDecode` (Algorithm 23): the parts of a public key, `rho` and `t1`. `PK_LEN` is `32 + 320 * K`. Any
/// bytes encode a public key, and `pk_encode` of the parts returns `pk` again.
pub fn pk_decode<const K: usize, const PK_LEN: usize>(pk: &[u8; PK_LEN]) -> (&[u8; 32], [R; K])
    requires { PK_LEN ≡ 32 + 320 * K }
    ensures same_bytes { pk.now ≡ public_key_bytes result.0.now result.1 }
    ensures seed { length result.0.now ≡ 32 }
    ensures range { VectorInRange (pos 0) (pos 1023) result.1 }
    ensures count { All (λ w. length w.0 ≡ 256) result.1 }
{
    let mut t1 = [R0; K];
    let rho = write_public_key_parts(pk, &mut t1);
    (rho, t1)
}

/// `pk_decode` with `t1` written into the caller's place. Internal: serves the crate `fips204` alone.
#[tactic(auto, unfolding(crate::specs::Packing::bit_length))]
pub fn write_public_key_parts<'a, const K: usize>(pk: &'a [u8], t1: &mut [R; K]) -> &'a [u8; 32]
    requires { length pk.now ≡ 32 + 320 * K }
    ensures same_bytes { pk.now ≡ public_key_bytes result.now t1.new }
    ensures seed { length result.now ≡ 32 }
    ensures vector { IsVector K 0 1023 t1.new }
{
    // line 1: (rho, z_0, .., z_(k - 1)) = pk
    let (rho, z) = pk.split_first_chunk::<32>().unwrap();
    // lines 2 to 4: t1[i] = SimpleBitUnpack(z_i, 2^(bitlen(q - 1) - d) - 1)
    write_unpacked_vector(z, 0, 1023, t1);
    rho
}
