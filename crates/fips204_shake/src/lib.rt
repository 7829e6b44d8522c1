//! ML-DSA of FIPS 204: the library `fips204` over SHAKE256 and SHAKE128.
//!
//! `MlDsa44`, `MlDsa65` and `MlDsa87` have the calls of a parameter set with keys and signatures as slices, and no type
//! of a key: `keygen`, `sign`, `verify`, `public_key`, `check_private_key`, `is_whole`, `is_pair`, and those with
//! prepared keys. From `crates/mldsa_examples/src/over_bytes.rt`:
//!
//! ```rust
//!     MlDsa65::keygen(seed, &mut public_key, &mut private_key)?;
//! ..
//!     let input = Input::Message(message, b"a page of documentation");
//!     MlDsa65::sign(private_key, random, &input, &mut signature)?;
//! ..
//!     MlDsa65::verify(public_key, &input, signature)
//! ```
//!
//! Where the set is known only when the program runs, `AnySet` has the same calls by its name: `AnySet::sign(SetName::MlDsa65, ..)`.
//!
//! The modules `ml_dsa_44`, `ml_dsa_65` and `ml_dsa_87` have the key types of a set over these two XOFs: `KG`, `PublicKey`,
//! `PrivateKey`, and the prepared (expanded) ones. Their calls are those of the traits of `fips204`:
//!
//! | to | call |
//! |---|---|
//! | make a key pair | `KG::keygen_from_seed(&seed)?`, `ml_dsa_65::try_keygen_with_rng(&mut rng)?` |
//! | store a key and read it back | `private.into_bytes()`, `PrivateKey::try_from_bytes(bytes)?` |
//! | derive the public key | `private.get_public_key()?` |
//! | sign a message | `private.try_sign_with_seed(&random, message, context)?`, `private.try_sign_with_rng(&mut rng, message, context)?` |
//! | verify it | `public.verify(message, &signature, context)` |
//! | sign a digest | `private.try_hash_sign_with_seed(&random, digest, context, &SHA2_256)?` |
//! | verify it | `public.hash_verify(digest, &signature, context, &SHA2_256)` |
//! | use a key many times | `private.prepare()?`, `public.prepare()?`, and the same calls |
#![tactic(auto)]

pub mod bytes;
mod callers;
pub mod der;
pub mod ml_dsa_44;
pub mod ml_dsa_65;
pub mod ml_dsa_87;
pub mod pem;
pub mod pieces;
pub mod streams;

pub use bytes::{Buffer, Input, Refusal, SetName};
pub use fips204::{
    Fault, MAX_PREHASH_LEN, MAX_SIGN_ATTEMPTS, RngError, check_pre_hash, fault, laws, pre_hash,
    traits, xof,
};
use streams::{Shake128Stream, Shake256Stream};

/// The calls of ML-DSA-44 over bytes.
pub type MlDsa44 = bytes::MlDsa<4, 4, Shake256Stream, Shake128Stream>;

/// The calls of ML-DSA-65 over bytes.
pub type MlDsa65 = bytes::MlDsa<6, 5, Shake256Stream, Shake128Stream>;

/// The calls of ML-DSA-87 over bytes.
pub type MlDsa87 = bytes::MlDsa<8, 7, Shake256Stream, Shake128Stream>;

/// The calls over bytes of a parameter set by its name.
pub type AnySet = bytes::AnySet<Shake256Stream, Shake128Stream>;
