//! Keys as values.
#![tactic(auto)]

ghost use Rattle.std.specs.Prelude.{◌≡◌, ◌≤◌, length, take, drop, IfOk, IfErr};
ghost use Rattle.fips204.specs.Sets.{named_set};
ghost use Rattle.fips204_shake.specs.Fronts.{shake256_front};
ghost use Rattle.mlsign_engine.specs.Keys.{HasBytes, IsConsistent, public_of_pair};
ghost use Rattle.mlsign_engine.specs.Commands.{HasNoKeysOrMemory};
ghost use Rattle.mlsign_engine.specs.InnerSteps.{HasPrivateBytes};
ghost use Rattle.mlsign_engine.specs.declared.fault.CommandFault.TheVariants.{Memory};
ghost use Rattle.fips204_shake.specs.Keys.{Seed, Expanded, HasPrivateSizes, private_length, public_length, file_parts};

use crate::fault::CommandFault;
use fips204::laws;
use fips204::xof::hash;
use fips204_shake::bytes::array_of;
use fips204_shake::der::PrivateKey;
use fips204_shake::streams::Shake256Stream;
use fips204_shake::{AnySet, SetName};
use std::alloc::Global;
use std::marker::Model;

/// A public key.
#[derive(Drop)]
pub struct PublicKey {
    algorithm: SetName,
    bytes: Vec<u8>,
}

impl Model for PublicKey {
    ghost use Rattle.std.specs.Prelude.{◌≡◌, length};
    ghost use Rattle.mlsign_engine.specs.Keys.{PublicValue};
    ghost use Rattle.fips204_shake.specs.Keys.{public_length};

    ghost Value = { PublicValue };

    ghost view = { λ a. record { algorithm = a.algorithm; bytes = a.bytes.items } };

    ghost invariant = { λ a. length a.bytes.items ≡ public_length a.algorithm };
}

impl PublicKey {
    /// The public key with these bytes.
    pub(crate) fn new(algorithm: SetName, bytes: Vec<u8>) -> PublicKey
        requires { length bytes.items ≡ public_length algorithm }
        ensures algorithm { result.algorithm ≡ algorithm }
        ensures bytes { result.bytes ≡ bytes.items }
    {
        PublicKey { algorithm, bytes }
    }

    /// Its parameter set.
    pub fn algorithm(&self) -> SetName
        ensures { result ≡ self.now.algorithm }
    {
        self.algorithm
    }

    /// Its bytes (FIPS 204, Algorithm 22).
    pub fn bytes(&self) -> &[u8]
        ensures bytes { result.now ≡ self.now.bytes }
        ensures size { length self.now.bytes ≡ public_length self.now.algorithm }
    {
        self.bytes.as_slice()
    }

    /// The hash of its bytes, which FIPS 204 calls `tr`: SHAKE256. That of a private key is the same.
    pub fn hash(&self) -> [u8; 64]
        ensures { result ≡ take 64 (shake256_front self.now.bytes) }
    {
        hash::<Shake256Stream, 64>(&[self.bytes()])
    }
}

/// What a file has of a private key whose bytes are known.
#[derive(Debug, Clone, Copy, PartialEq, Eq)]
pub(crate) enum Held {
    /// Its seed.
    Seed([u8; 32]),
    /// The bytes.
    Expanded,
    /// Both.
    Both([u8; 32]),
}

/// A private key that is consistent, and the public key that belongs to it.
#[derive(Drop)]
pub struct KeyPair {
    algorithm: SetName,
    held: Held,
    public: Vec<u8>,
    private: Vec<u8>,
}

impl Model for KeyPair {
    ghost use Rattle.fips204.specs.Sets.{named_set};
    ghost use Rattle.mlsign_engine.specs.Keys.{PairValue, parts_of, HasBytes};

    ghost Value = { PairValue };

    ghost view = { λ a. record {
      algorithm = a.algorithm;
      parts = parts_of a.held a.private.items;
      public = a.public.items;
      private = a.private.items;
    } };

    ghost invariant = { λ a. HasBytes (named_set a.algorithm) (parts_of a.held a.private.items) a.public.items a.private.items };
}

impl KeyPair {
    /// The pair of a file's private key, if that is consistent.
    pub(crate) fn of_parts(
        alloc: Global,
        set: SetName,
        key: PrivateKey<'_>,
    ) -> Result<KeyPair, CommandFault>
        requires { HasPrivateSizes (private_length set) (file_parts key) }
        ensures algorithm { IfOk result (λ pair. pair.algorithm ≡ set) }
        ensures parts { IfOk result (λ pair. pair.parts ≡ file_parts key.entry) }
        ensures consistent { IfOk result IsConsistent }
        ensures fault { IfErr result (HasNoKeysOrMemory (named_set set) (file_parts key.entry)) }
    {
        match key {
            PrivateKey::Seed(seed) => {
                let (public, private) = generated(alloc, set, seed)?;
                Ok(KeyPair {
                    algorithm: set,
                    held: Held::Seed(*array_of(seed)),
                    public,
                    private,
                })
            }
            PrivateKey::Expanded(expanded) => Ok(KeyPair {
                algorithm: set,
                held: Held::Expanded,
                public: derived(alloc, set, expanded)?,
                private: Vec::from_slice(alloc, expanded)?,
            }),
            PrivateKey::Both { seed, expanded } => {
                let (public, private) = generated(alloc, set, seed)?;
                if private.as_slice() != expanded {
                    return Err(CommandFault::Inconsistent);
                }
                Ok(KeyPair {
                    algorithm: set,
                    held: Held::Both(*array_of(seed)),
                    public,
                    private,
                })
            }
        }
    }

    /// What a file has of it.
    pub(crate) fn parts(&self) -> PrivateKey<'_>
        ensures parts { file_parts result ≡ self.now.parts }
        ensures sizes { HasPrivateSizes (private_length self.now.algorithm) (file_parts result) }
    {
        let private = self.private.as_slice();
        match &self.held {
            Held::Seed(seed) => PrivateKey::Seed(seed.as_slice()),
            Held::Expanded => PrivateKey::Expanded(private),
            Held::Both(seed) => PrivateKey::Both {
                seed: seed.as_slice(),
                expanded: private,
            },
        }
    }

    /// The parameter set of both keys.
    pub fn algorithm(&self) -> SetName
        ensures { result ≡ self.now.algorithm }
    {
        self.algorithm
    }

    /// The bytes of the private key (FIPS 204, Algorithm 24).
    pub(crate) fn private(&self) -> &[u8]
        ensures bytes { result.now ≡ self.now.private }
        ensures consistent { IsConsistent self.now }
    {
        self.private.as_slice()
    }

    /// The bytes of the public key.
    pub(crate) fn public(&self) -> &[u8]
        ensures bytes { result.now ≡ self.now.public }
        ensures size { length self.now.public ≡ public_length self.now.algorithm }
    {
        self.public.as_slice()
    }

    /// The public key.
    ///
    /// Errors: `Memory`.
    pub fn public_key(&self, alloc: Global) -> Result<PublicKey, CommandFault>
        ensures key { IfOk result (λ key. key ≡ public_of_pair self.now) }
        ensures fault { IfErr result (λ fault. fault ≡ Memory) }
    {
        let bytes = Vec::from_slice(alloc, self.public())?;
        Ok(PublicKey::new(self.algorithm(), bytes))
    }
}

/// A key of either kind.
#[derive(Drop)]
pub enum AnyKey {
    /// A public key.
    Public(PublicKey),
    /// A private key, which is consistent.
    Private(KeyPair),
}

/// The bytes of both keys of a seed.
fn generated(alloc: Global, set: SetName, seed: &[u8]) -> Result<(Vec<u8>, Vec<u8>), CommandFault>
    requires { length seed.now ≡ 32 }
    ensures bytes { IfOk result (λ x. HasBytes (named_set set) (Seed seed.now) x.0.items x.1.items) }
    ensures fault { IfErr result (HasNoKeysOrMemory (named_set set) (Seed seed.now)) }
{
    laws::signed_is_accepted();
    let seed = array_of(seed);
    let mut public = vec![in alloc; 0; set.public_key_len()]?;
    let mut private = vec![in alloc; 0; set.private_key_len()]?;
    let first = public.as_mut_slice();
    let second = private.as_mut_slice();
    AnySet::keygen(set, &seed, first, second)?;
    Ok((public, private))
}

/// The bytes of the public key that belongs to an expanded key, if that is consistent.
fn derived(alloc: Global, set: SetName, expanded: &[u8]) -> Result<Vec<u8>, CommandFault>
    requires { length expanded.now ≡ private_length set }
    ensures bytes { IfOk result (λ public. HasBytes (named_set set) (Expanded expanded.now) public.items expanded.now) }
    ensures fault { IfErr result (HasNoKeysOrMemory (named_set set) (Expanded expanded.now)) }
{
    check_expanded(set, expanded)?;
    let mut public = vec![in alloc; 0; set.public_key_len()]?;
    let bytes = public.as_mut_slice();
    AnySet::public_key(set, expanded, bytes).unwrap();
    Ok(public)
}

/// Does nothing if an expanded key is consistent.
fn check_expanded(set: SetName, expanded: &[u8]) -> Result<(), CommandFault>
    requires { length expanded.now ≡ private_length set }
    ensures bytes { IfOk result (λ _. HasPrivateBytes (named_set set) (Expanded expanded.now) expanded.now) }
    ensures fault { IfErr result (HasNoKeysOrMemory (named_set set) (Expanded expanded.now)) }
{
    laws::key_bytes();
    if AnySet::check_private_key(set, expanded).is_err() {
        return Err(CommandFault::Inconsistent);
    }
    if !AnySet::is_pair(set, expanded)? {
        return Err(CommandFault::Inconsistent);
    }
    Ok(())
}
