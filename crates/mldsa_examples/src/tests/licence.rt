//! Tokens that are valid, and tokens that are not.
#![tactic(auto)]

use super::pair;
use crate::licence::{Token, accepted_for_both, licence_valid, spelled};
use fips204::traits::Signer;
use std::test::Fail;

/// A token is valid up to its last day, and not with another product, day, customer, signature or context; and its
/// signature is accepted for it twice, and not for it and another.
#[test]
fn a_licence(rt: HostRuntime) -> Result<(), Fail> {
    let (product, last_day, customer) = (17, 20_000, [b'a'; 32]);
    let token = Token {
        product,
        last_day,
        customer,
    };
    let (key, owner) = pair(7)?;
    for (context, is_right) in [
        (b"licence".as_slice(), true),
        (b"manifest", false),
        (b"", false),
    ] {
        let signature = owner.try_sign_with_seed(&[0; 32], &spelled(&token), context)?;
        assert!(rt; licence_valid(&key, &token, &signature, 20_000) == is_right);
        assert!(rt; licence_valid(&key, &token, &signature, 19_999) == is_right);
        assert!(rt; !licence_valid(&key, &token, &signature, 20_001));
        let mut others = [token; 3];
        others[0].product = 18;
        others[1].last_day = 20_001;
        others[2].customer[31] = b'b';
        for other in &others {
            assert!(rt; !licence_valid(&key, other, &signature, 19_999));
        }
        assert!(rt; !accepted_for_both(&key, &token, &others[0], &signature));
        assert!(rt; accepted_for_both(&key, &token, &token, &signature) == is_right);
        let mut changed = signature;
        changed[0] ^= 1;
        assert!(rt; !licence_valid(&key, &token, &changed, 19_999));
    }
    Ok(())
}
