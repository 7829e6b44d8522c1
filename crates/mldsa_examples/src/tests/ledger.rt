//! A ledger that grows, and changes that are noticed.
#![tactic(auto)]

use super::pair;
use crate::ledger::{AppendFault, Entry, append, check_all};
use fips204::Fault;
use fips204::ml_dsa_44::{PrivateKey, PublicKey, SIG_LEN};
use fips204::traits::SerDes;
use fips204::xof::{Fill, Sha256Ctr};
use std::test::Fail;

/// Entries that were appended stand; a broken link, a swapped pair, a changed payload, a cut signature and a missing
/// first entry are noticed, and a dropped tail is not. With keys that have no matrix both calls return an error, and the
/// ledger stays.
#[test]
fn a_ledger(rt: HostRuntime) -> Result<(), Fail> {
    let mut ledger = Vec::new(rt.alloc());
    let (key, owner) = pair(7)?;
    for payload in 0..3u8 {
        append(&mut ledger, &owner, &[0; 32], &[payload; 32])?;
    }
    let entries = <[Entry; 3]>::try_from(ledger.as_slice())?;
    let [first, second, third] = entries;
    let (mut link, mut payload, mut signature) = (second, third, third);
    link.previous[0] ^= 1;
    payload.payload[31] ^= 1;
    signature.signature[SIG_LEN - 1] ^= 1;
    assert!(rt; check_all(&key, &entries) == Ok(true));
    assert!(rt; check_all(&key, &[]) == Ok(true));
    assert!(rt; check_all(&key, &entries[..2]) == Ok(true));
    assert!(rt; check_all(&key, &entries[1..]) == Ok(false));
    assert!(rt; check_all(&key, &[second, first, third]) == Ok(false));
    assert!(rt; check_all(&key, &[first, link, third]) == Ok(false));
    assert!(rt; check_all(&key, &[first, second, payload]) == Ok(false));
    assert!(rt; check_all(&key, &[first, second, signature]) == Ok(false));
    let owner = PrivateKey::<Sha256Ctr, Fill<0xff>>::try_from_bytes(owner.into_bytes())?;
    let key = PublicKey::<Sha256Ctr, Fill<0xff>>::try_from_bytes(key.into_bytes())?;
    let appended = append(&mut ledger, &owner, &[0; 32], &[3; 32]);
    assert!(rt; appended == Err(AppendFault::Signing(Fault::SamplingLimit)));
    assert!(rt; check_all(&key, ledger.as_slice()) == Err(Fault::SamplingLimit));
    assert!(rt; ledger.as_slice() == entries.as_slice());
    Ok(())
}
