//! Keys that are prepared once, for many messages.
#![tactic(auto)]

ghost use Rattle.std.specs.Prelude.{◌≡◌, ◌≤◌, length, take, drop, IfOk, IfErr};
ghost use Rattle.fips204.specs.Framing.{represented};
ghost use Rattle.fips204.specs.Sets.{named_set};
ghost use Rattle.fips204_shake.specs.Bytes.{Signs, Judges};
ghost use Rattle.fips204_shake.specs.Keys.{public_length};
ghost use Rattle.fips204_shake.specs.Fronts.{shake256_front, shake128_front};
ghost use Rattle.mlsign_engine.specs.Commands.{FailsToPrepare};
ghost use Rattle.mlsign_engine.specs.Keys.{IsConsistent};
ghost use Rattle.mlsign_engine.specs.declared.fault.CommandFault.TheVariants.{Memory};

use crate::fault::CommandFault;
use crate::keys::{KeyPair, PublicKey};
use fips204_shake::bytes::laws;
use fips204_shake::{AnySet, Input, Refusal, SetName};
use std::alloc::Global;
use std::marker::Model;

/// A private key with its matrix, which signs.
#[derive(Drop)]
pub struct SigningKey {
    pair: KeyPair,
    prepared: Vec<u8>,
}

impl Model for SigningKey {
    ghost use Rattle.mlsign_engine.specs.Keys.{PairValue, ArePreparedOf};

    ghost Value = { PairValue };

    ghost view = { λ a. a.pair };

    ghost invariant = { λ a. ArePreparedOf a.pair a.prepared.items };
}

impl SigningKey {
    /// Prepares a private key.
    ///
    /// Errors: `Memory`.
    pub fn new(alloc: Global, pair: KeyPair) -> Result<SigningKey, CommandFault>
        ensures key { IfOk result (λ key. key ≡ pair) }
        ensures fault { IfErr result (λ fault. fault ≡ Memory) }
    {
        let set = pair.algorithm();
        let mut prepared = vec![in alloc; 0; set.prepared_private_key_len()]?;
        let room = prepared.as_mut_slice();
        AnySet::prepare_private_key(set, pair.private(), room).unwrap();
        Ok(SigningKey { pair, prepared })
    }

    /// Its parameter set.
    pub fn algorithm(&self) -> SetName
        ensures { result ≡ self.now.algorithm }
    {
        self.pair.algorithm()
    }

    /// The hash `tr` that it has (FIPS 204, Algorithm 24). It is consistent.
    pub(crate) fn tr(&self) -> [u8; 64]
        ensures tr { result ≡ take 64 (drop 64 self.now.private) }
        ensures consistent { IsConsistent self.now }
    {
        tr_of(self.pair.private())
    }

    /// Signs the hash mu of a message.
    pub(crate) fn sign_mu(
        &self,
        random: &[u8; 32],
        mu: &[u8; 64],
        signature: &mut [u8],
    ) -> Result<(), Refusal>
        ensures { Signs (named_set self.now.algorithm) shake256_front shake128_front self.now.private random.now (represented mu.now) signature.old signature.new result }
    {
        laws::prepared_stands_for_plain();
        let set = self.pair.algorithm();
        let prepared = self.prepared.as_slice();
        AnySet::sign_prepared(set, prepared, random, &Input::Mu(mu), signature)
    }
}

/// The hash `tr` in the bytes of a private key.
fn tr_of(private: &[u8]) -> [u8; 64]
    requires { 128 ≤ length private.now }
    ensures { result ≡ take 64 (drop 64 private.now) }
{
    let mut tr = [0; 64];
    tr.copy_from_slice(&private[64..128]);
    tr
}

/// A public key with its hash and its matrix, which verifies.
#[derive(Drop)]
pub struct VerifyingKey {
    key: PublicKey,
    tr: [u8; 64],
    prepared: Vec<u8>,
}

impl Model for VerifyingKey {
    ghost use Rattle.std.specs.Prelude.{◌≡◌, length, take};
    ghost use Rattle.fips204_shake.specs.Fronts.{shake256_front};
    ghost use Rattle.mlsign_engine.specs.Keys.{PublicValue, ArePreparedPublicOf};
    ghost use Rattle.fips204_shake.specs.Keys.{public_length};

    ghost Value = { PublicValue };

    ghost view = { λ a. a.key };

    ghost invariant = { λ a. (length a.key.bytes ≡ public_length a.key.algorithm) × (a.tr ≡ take 64 (shake256_front a.key.bytes))
        × ArePreparedPublicOf a.key a.prepared.items };
}

impl VerifyingKey {
    /// Prepares a public key.
    ///
    /// Errors: `Library` with `SamplingLimit` if rejection sampling of the matrix reaches its limit; `Memory`.
    pub fn new(alloc: Global, key: PublicKey) -> Result<VerifyingKey, CommandFault>
        ensures key { IfOk result (λ verifying. verifying ≡ key) }
        ensures fault { IfErr result (FailsToPrepare key) }
    {
        let set = key.algorithm();
        let mut prepared = vec![in alloc; 0; set.prepared_public_key_len()]?;
        let room = prepared.as_mut_slice();
        AnySet::prepare_public_key(set, key.bytes(), room)?;
        Ok(VerifyingKey {
            tr: key.hash(),
            key,
            prepared,
        })
    }

    /// The key.
    pub fn key(&self) -> &PublicKey
        ensures { result.now ≡ self.now }
    {
        &self.key
    }

    /// The hash `tr` of the key's bytes.
    pub(crate) fn tr(&self) -> &[u8; 64]
        ensures tr { result.now ≡ take 64 (shake256_front self.now.bytes) }
        ensures size { length self.now.bytes ≡ public_length self.now.algorithm }
    {
        &self.tr
    }

    /// Whether the key accepts these bytes as a signature of the hash mu of a message.
    pub(crate) fn judge_mu(&self, mu: &[u8; 64], signature: &[u8]) -> Result<bool, Refusal>
        ensures { Judges (named_set self.now.algorithm) shake256_front shake128_front self.now.bytes (represented mu.now) signature.now result }
    {
        laws::prepared_stands_for_plain();
        let set = self.key.algorithm();
        let prepared = self.prepared.as_slice();
        AnySet::verify_prepared(set, prepared, &Input::Mu(mu), signature)
    }
}
