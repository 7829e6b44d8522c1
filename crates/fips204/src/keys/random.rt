//! The signing calls of plain and prepared keys, each written once over an input: they differ in where the 32 random bytes
//! come from.
#![tactic(auto)]

ghost use Rattle.std.specs.Prelude.{◌≡◌, ℕ, List, Result, Ok, Err, Some};
ghost use Rattle.fips204_base.specs.declared.fault.Fault.{Fault};
ghost use Rattle.fips204_base.specs.declared.fault.Fault.TheVariants.{InternalRng};
ghost use Rattle.fips204.specs.Framing as definition;
ghost use Rattle.fips204.specs.Inputs.{input_of};
ghost use Rattle.fips204.specs.Refusals.{DrawsUnless, DrawsIf, input_fault};

use crate::input::Input;
use crate::ml_dsa::check_input;
use crate::traits::{CryptoRngCore, DummyRng, draw};
use fips204_base::Fault;

/// A private key, plain or prepared, that signs an input with given random bytes.
pub(crate) trait SignsInput: Sized {
    /// The byte array of a signature.
    type Signature;

    // What signing returns for random bytes and an input.
    ghost signs: { Self → List ℕ → definition.Input → Result Self.Signature Fault };

    // Whether what signing an input returns is accepted, if the key is consistent.
    ghost accepted: { Self → definition.Input → Result Self.Signature Fault → Type 0 };

    /// Signs an input with these random bytes.
    fn sign_with(&self, random: &[u8; 32], input: &Input<'_>) -> Result<Self::Signature, Fault>
        ensures answer { result ≡ signs self.now random.now (input_of input.now) }
        ensures accepted { accepted self.now (input_of input.now) result };

    // An input that breaks a condition is rejected, with the error of the first that it breaks.
    ghost refused: { (key : Self) (random : List ℕ) (input : definition.Input) (fault : Fault)
        → input_fault input ≡ Some fault → signs key random input ≡ Err fault };

    // An error has nothing that could be accepted.
    ghost unsigned: { (key : Self) (input : definition.Input) (fault : Fault) → accepted key input (Err fault) };
}

/// Signs an input with 32 random bytes of the generator, which is asked once, and not for an input that is rejected.
/// Returns `refusal` if the generator fails.
pub(crate) fn sign_drawn<K: SignsInput, R: CryptoRngCore>(
    key: &K,
    rng: &mut R,
    input: &Input<'_>,
    refusal: Fault,
) -> Result<K::Signature, Fault>
    ensures answer { DrawsUnless (input_fault (input_of input.now)) R.gives R.refuses rng.old rng.new refusal
        (λ random. K.signs key.now random (input_of input.now)) result }
    ensures accepted { K.accepted key.now (input_of input.now) result }
{
    check_input(input)?;
    key.sign_with(&draw(rng, refusal)?, input)
}

/// Signs an input with the random bytes `seed`: a generator returns them.
pub(crate) fn sign_seeded<K: SignsInput>(
    key: &K,
    seed: &[u8; 32],
    input: &Input<'_>,
) -> Result<K::Signature, Fault>
    ensures answer { result ≡ K.signs key.now seed.now (input_of input.now) }
    ensures accepted { K.accepted key.now (input_of input.now) result }
{
    sign_drawn(key, &mut DummyRng { bytes: *seed }, input, Fault::SignRng)
}

/// Signs an input of a signing hook. The 32 random bytes are zeros without `hedged`; with it they are drawn from the
/// generator, which is asked once. Returns `Fault::InternalRng` if the generator fails.
pub(crate) fn sign_hedged<K: SignsInput, R: CryptoRngCore>(
    key: &K,
    rng: &mut R,
    input: &Input<'_>,
    hedged: bool,
) -> Result<K::Signature, Fault>
    ensures answer { DrawsIf hedged R.gives R.refuses rng.old rng.new InternalRng
        (λ random. K.signs key.now random (input_of input.now)) result }
    ensures accepted { K.accepted key.now (input_of input.now) result }
{
    key.sign_with(&draw_if(hedged, rng)?, input)
}

/// The random bytes of a signing hook: 32 zeros without `hedged`; with it, 32 bytes drawn from the generator,
/// or `Fault::InternalRng` if that fails.
fn draw_if<R: CryptoRngCore>(hedged: bool, rng: &mut R) -> Result<[u8; 32], Fault>
    ensures { DrawsIf hedged R.gives R.refuses rng.old rng.new InternalRng Ok result }
{
    if hedged {
        draw(rng, Fault::InternalRng)
    } else {
        Ok([0; 32])
    }
}
