//! Keys and signatures where every byte of `H` is 55 and every byte of `G` is 00.
#![tactic(auto)]

ghost use Rattle.std.specs.Prelude.{◌<◌, ◌≤◌};

/// `t0` where every coefficient is 2: these bytes again and again.
const LOW_2: &[u8; 13] = b"\xfe\xcf\xff\xf9\x3f\xff\xe7\xff\xfc\x9f\xff\xf3\x7f";

/// `t0` where every coefficient is 0: these bytes again and again.
pub const LOW_0: &[u8; 13] = b"\x00\x10\x00\x02\x40\x00\x08\x00\x01\x20\x00\x04\x80";

/// Puts 13 bytes again and again.
pub fn repeat(bytes: &mut [u8], pattern: &[u8; 13]) {
    for (i, byte) in bytes.iter_mut().enumerate() {
        *byte = pattern[i % 13];
    }
}

/// The public key of set 44: every coefficient of t1 is 0.
pub fn public_44() -> [u8; 1312] {
    let mut key = [0u8; 1312];
    key[..32].fill(0x55);
    key
}

/// The public key of set 65: every coefficient of t1 is 1023.
pub fn public_65() -> [u8; 1952] {
    let mut key = [0xffu8; 1952];
    key[..32].fill(0x55);
    key
}

/// The public key of set 87: every coefficient of t1 is 0.
pub fn public_87() -> [u8; 2592] {
    let mut key = [0u8; 2592];
    key[..32].fill(0x55);
    key
}

/// The private key of set 44: every coefficient of s1, s2 and t0 is 2.
pub fn private_44() -> [u8; 2560] {
    let mut key = [0u8; 2560];
    key[..128].fill(0x55);
    repeat(&mut key[896..], LOW_2);
    key
}

/// The private key of set 65: every coefficient of s1 and s2 is -1, and of t0 0.
pub fn private_65() -> [u8; 4032] {
    let mut key = [0x55u8; 4032];
    repeat(&mut key[1536..], LOW_0);
    key
}

/// The private key of set 87: every coefficient of s1, s2 and t0 is 2.
pub fn private_87() -> [u8; 4896] {
    let mut key = [0u8; 4896];
    key[..128].fill(0x55);
    repeat(&mut key[1568..], LOW_2);
    key
}

/// The fields of a polynomial of z: one at places 0 to 84, another from 85 on, and a third at every second from `turn`.
fn fields(turn: usize, first: u32, second: u32, third: u32) -> [u32; 256] {
    let mut out = [second; 256];
    out[..85].fill(first);
    for field in out.iter_mut().skip(turn).step_by(2) {
        *field = third;
    }
    out
}

/// Puts the fields of a polynomial again and again, each of so many bits, the lowest first.
pub fn put_fields(bytes: &mut [u8], fields: &[u32; 256], width: usize)
    requires some { 0 < width }
    requires few { width ≤ 20 }
{
    let mut at = 0usize;
    for byte in bytes {
        *byte = 0;
        for bit in 0..8u32 {
            if (fields[at / width % 256] >> (at % width)) % 2 == 1 {
                *byte |= 1u8 << bit;
            }
            at = at.wrapping_add(1);
        }
    }
}

/// The signature of set 44.
pub fn signature_44() -> [u8; 2420] {
    let mut sig = [0u8; 2420];
    sig[..32].fill(0x55);
    put_fields(&mut sig[32..2336], &fields(218, 87379, 87383, 87387), 18);
    sig
}

/// The signature of set 44 with the private key whose first coefficient of s1 is -2: the first polynomial
/// of z is smaller by four times the challenge.
pub fn signature_44_of_least_coefficient() -> [u8; 2420] {
    let mut signature = signature_44();
    let mut fields = fields(219, 87379, 87383, 87387);
    fields[85] = 87379;
    put_fields(&mut signature[32..608], &fields, 18);
    signature
}

/// The signature of set 65.
pub fn signature_65() -> [u8; 3309] {
    let mut sig = [0u8; 3309];
    sig[..48].fill(0x55);
    put_fields(&mut sig[48..3248], &fields(208, 349526, 349524, 349522), 20);
    sig
}

/// The signature of set 87.
pub fn signature_87() -> [u8; 4627] {
    let mut sig = [0u8; 4627];
    sig[..64].fill(0x55);
    put_fields(&mut sig[64..4544], &fields(197, 349525, 349521, 349525), 20);
    sig
}
