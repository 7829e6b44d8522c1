//! Keys and their calls, for every parameter set: making a pair stands here, each key with its calls and its bytes in a
//! module of its own.
#![tactic(auto)]

ghost use Rattle.fips204.specs.Refusals.{generated, sign_input, VerifiesInput};
ghost use Rattle.fips204.specs.Signing.{sign};

mod prepared;
mod private;
mod public;
mod random;

use crate::ml_dsa;
use crate::sets::{HasSet, KeySizes, Matrix, Set, SignatureSizes};
use crate::traits::{CryptoRngCore, KeyGen, Scheme, Signer, Verifier, draw};
use crate::types::KG;
use fips204_base::Fault;
use fips204_base::xof::Xof;
pub(crate) use prepared::KeyTransforms;
pub use prepared::{PreparedPrivateKey, PreparedPublicKey};
pub use private::PrivateKey;
pub use public::PublicKey;

// Every head here and in the modules says the same: `S` is the parameter set that `Matrix<K, L>` names, and the arrays of `S` name the
// other sizes: `SIG_LEN` bytes of a signature, `PK_LEN` and `SK_LEN` of the keys. That these are the set's
// sizes in the standard's tables is the law of `SignatureSizes` and of `KeySizes`.

impl<
    S,
    const K: usize,
    const L: usize,
    const SIG_LEN: usize,
    const PK_LEN: usize,
    const SK_LEN: usize,
    H: Xof,
    G: Xof,
> KeyGen for KG<K, L, H, G>
where
    Matrix<K, L>: HasSet<Set = S>,
    S: Set<Signature = [u8; SIG_LEN], PublicKey = [u8; PK_LEN], PrivateKey = [u8; SK_LEN]>,
    S: SignatureSizes<K, L, SIG_LEN> + KeySizes<K, L, PK_LEN, SK_LEN>,
{
    type PublicKey = PublicKey<K, L, H, G>;

    type PrivateKey = PrivateKey<K, L, H, G>;

    ghost generated = { generated S.set H.front G.front };

    fn try_keygen_with_rng<R: CryptoRngCore>(
        rng: &mut R,
    ) -> Result<(Self::PublicKey, Self::PrivateKey), Fault> {
        Self::keygen_from_seed(&draw(rng, Fault::KeyGenRng)?)
    }

    // Inlined, since both keys are copied on their way through a call.
    #[inline(always)]
    fn keygen_from_seed(xi: &[u8; 32]) -> Result<(Self::PublicKey, Self::PrivateKey), Fault> {
        ml_dsa::key_gen_internal::<K, L, PK_LEN, H, G>(&S::params(), xi)
    }
}

impl<
    S,
    const K: usize,
    const L: usize,
    const SIG_LEN: usize,
    const PK_LEN: usize,
    const SK_LEN: usize,
    H: Xof,
    G: Xof,
> Scheme for KG<K, L, H, G>
where
    Matrix<K, L>: HasSet<Set = S>,
    S: Set<Signature = [u8; SIG_LEN], PublicKey = [u8; PK_LEN], PrivateKey = [u8; SK_LEN]>,
    S: SignatureSizes<K, L, SIG_LEN> + KeySizes<K, L, PK_LEN, SK_LEN>,
{
    type Public = PublicKey<K, L, H, G>;

    type Private = PrivateKey<K, L, H, G>;

    type Signature = [u8; SIG_LEN];

    ghost generated = { generated S.set H.front G.front };

    ghost signs = { sign_input S.set H.front G.front };

    ghost accepts = { VerifiesInput S.set H.front G.front };

    fn keygen(xi: &[u8; 32]) -> Result<(Self::Public, Self::Private), Fault> {
        KG::<K, L, H, G>::keygen_from_seed(xi)
    }

    fn sign(
        sk: &Self::Private,
        rnd: &[u8; 32],
        message: &[u8],
        ctx: &[u8],
    ) -> Result<[u8; SIG_LEN], Fault> {
        sk.try_sign_with_seed(rnd, message, ctx)
    }

    fn verify(pk: &Self::Public, message: &[u8], signature: &[u8; SIG_LEN], ctx: &[u8]) -> bool {
        pk.verify(message, signature, ctx)
    }
}
