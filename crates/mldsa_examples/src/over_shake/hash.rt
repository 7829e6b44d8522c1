//! SHAKE128 and SHAKE256 beside Python's hashlib.
#![tactic(auto)]

ghost use Rattle.std.specs.Prelude.{◌<◌};
ghost use Rattle.shake.specs.State.{IsRate};

use sha2::{Digest, Sha256};
use shake::{Shake, Shake128, Shake256, ShakeReader, f1600, f1600_four};

/// The lengths of the messages.
const LENGTHS: [usize; 9] = [0, 1, 135, 136, 137, 167, 168, 169, 1000];

/// Of a message of each length, a line each, the first eight bytes of the SHA-256 of 1, 32, 168 and 4096 bytes of
/// SHAKE128, as hashlib gives them.
const OF_SHAKE128: &str = "\
620bfdaa346b088f 0dfff16e27b94057 b162b569f72ca793 788a9e3f9c3c9d04
50e721e49c013f00 bbab55e702208893 f74e39de6e2eb7a6 d92107822bbd95d7
951dcee3a7a4f3aa dc6035d7de53aeb0 ccb84545576f3949 e8c856a95bb5beb8
27952171c7fcdf0d cc4fc291507f7777 f871030a2bcfc164 e16b957caf229e85
8ce86a6ae65d3692 d9c5919ae2e430ad 2db54bc4d897336f 884a6bc2c1f0913d
9d277175737fb500 cda4390511b43e27 4213dcece9aa4d8a 8059d166a1a56c6c
ba5ec51d07a4ac0e 8e257a4bfce487d9 4eac009f0669454f a910808616d660fc
5ee0dd4d4840229f 0e0167966ace0b97 ab2ae1ff7dd2ac24 5873f69c411f7c49
a83dd0ccbffe39d0 d1e43a46061b6eb2 2c791b226d7e405c 9619bdb5339d21ac";

/// The same of SHAKE256.
const OF_SHAKE256: &str = "\
f67ab10ad4e4c531 9e04f0752b264c18 5321a6fa639f3e02 fed7437a863da459
b7d25296e7bc6a6b a733a8d50f1b5ae3 fed5b0b6f35c2c1b a0f680575abb41a2
36a9e7f1c95b82ff 993910c091bbb526 7574e635775b1fe5 44738d22006de32a
9be3799f24592e94 e26987a55edc0186 c28c47010b7d32bf c41d2df430527b76
334359b90efed75d ba72e6e3b8fc2605 dabe0fbee3f94f4c 169a36d21af861a1
7a4a4b50f5121ed5 c4957710ed756ce9 3366182d5547c3bb 89d484613ceee5b9
1f184f101c67d585 c58098cad98b0493 7701a56e6479a74f 4fb1b57811a77d4c
d16bd22f7196c0a7 ed5c1679ddce54c2 447995cb4d798476 f03c72f34efa6311
951dcee3a7a4f3aa 5155d925b7324ab7 46f6b9f62bb507f6 88f480e0687ac188";

/// The numbers of each line of a table, in hex.
fn recorded<const N: usize>(table: &str) -> [[u64; 4]; N] {
    let mut lines = [[0; 4]; N];
    for (line, words) in lines.iter_mut().zip(table.lines()) {
        for (number, word) in line.iter_mut().zip(words.split(' ')) {
            *number = u64::from_str_radix(word, 16).unwrap_or(0);
        }
    }
    lines
}

/// A message of 1000 bytes, whose byte `i` is `7 i + 3` modulo 251.
fn message() -> [u8; 1000] {
    let mut bytes = [0u8; 1000];
    for i in 0..1000 {
        bytes[i] = ((7 * i + 3) % 251) as u8;
    }
    bytes
}

/// The first eight bytes of the SHA-256 of the joined parts.
fn short(parts: &[&[u8]]) -> u64 {
    let mut hasher = Sha256::new();
    for part in parts {
        hasher.update(*part);
    }
    let [a, b, c, d, e, f, g, h, ..] = hasher.finalize();
    u64::from_be_bytes([a, b, c, d, e, f, g, h])
}

/// What the first 1, 32, 168 and 4096 bytes are for a message taken in three parts, where these are read in pieces.
fn in_pieces<const R: usize>(mut hasher: Shake<R>, message: &[u8]) -> [u64; 4] {
    let third = message.len() / 3;
    hasher.update(&message[..third]);
    hasher.update(&[]);
    hasher.update(&message[third..]);
    let mut reader = hasher.finalize_xof();
    let mut first = [0u8; 1];
    let mut second = [0u8; 31];
    let mut third = [0u8; 136];
    let mut fourth = [0u8; 137];
    let mut last = [0u8; 3791];
    reader.read(&mut first);
    reader.read(&mut second);
    reader.read(&mut []);
    reader.read(&mut third);
    reader.read(&mut fourth);
    reader.read(&mut last);
    [
        short(&[&first]),
        short(&[&first, &second]),
        short(&[&first, &second, &third]),
        short(&[&first, &second, &third, &fourth, &last]),
    ]
}

/// SHAKE128 of messages of each length about its rate and that of SHAKE256.
#[test]
fn shake128_of_each_length(rt: HostRuntime) {
    let message = message();
    let mut given = [[0; 4]; 9];
    for i in 0..9 {
        given[i] = in_pieces(Shake128::new(), &message[..LENGTHS[i]]);
    }
    assert_eq!(rt; given, recorded(OF_SHAKE128));
}

/// SHAKE256 of the same messages.
#[test]
fn shake256_of_each_length(rt: HostRuntime) {
    let message = message();
    let mut given = [[0; 4]; 9];
    for i in 0..9 {
        given[i] = in_pieces(Shake256::new(), &message[..LENGTHS[i]]);
    }
    assert_eq!(rt; given, recorded(OF_SHAKE256));
}

/// The four outputs of a message in one call each.
#[test]
fn digests_in_one_call(rt: HostRuntime) {
    let message = message();
    let mut bytes = [0u8; 4096];
    Shake128::digest_xof(&message, &mut bytes);
    let first = short(&[&bytes]);
    Shake256::digest_xof(&message, &mut bytes);
    let (shake128, shake256) = (recorded::<9>(OF_SHAKE128), recorded::<9>(OF_SHAKE256));
    assert_eq!(rt; [first, short(&[&bytes])], [shake128[8][3], shake256[8][3]]);
}

/// The first four lanes after one permutation: those of SHAKE128, SHAKE256, SHA3-256 and SHA3-512 of the empty message, as
/// hashlib gives them.
const PERMUTED: &str = "\
7d828fe8a42b9c7f 3e85057650456061 88bceff693803bd7 26ef66faac6e1aeb
138da80b2bddb946 24eb3e74eb3f3b23 821bb862ea52cd3f 2f76d56e64270cb5
66d71ebff8c6ffa7 62d661a05647c151 fa493be44dff80f5 4a43f8804b0ad882
c59a3aa2cc739fa6 6e755a18dc67b5c8 5958e24f1682c997 a6805c47c1dcd1e0";

/// The state of one block: its padding begins with `first` and ends in lane `last`.
fn padded(first: u64, last: usize) -> [u64; 25]
    requires { last < 25 }
{
    let mut state = [0; 25];
    state[0] = first;
    state[last] = 1 << 63;
    state
}

/// The first four lanes.
fn begin(state: &[u64; 25]) -> [u64; 4] {
    [state[0], state[1], state[2], state[3]]
}

/// Four states that differ, side by side and one by one.
#[test]
fn permutations_of_four_states(rt: HostRuntime) {
    let mut a = padded(0x1f, 20);
    let mut b = padded(0x1f, 16);
    let mut c = padded(0x06, 16);
    let mut d = padded(0x06, 8);
    let mut one = d;
    f1600(&mut one);
    f1600_four(&mut a, &mut b, &mut c, &mut d);
    assert_eq!(rt;
        [begin(&a), begin(&b), begin(&c), begin(&d)],
        recorded(PERMUTED)
    );
    assert!(rt; one == d);
}

/// The first 168 bytes of output for four messages of different lengths.
fn digests_of_four<const R: usize>(message: &[u8; 1000]) -> [u64; 4]
    requires { IsRate R }
{
    let mut a = [0u8; 168];
    let mut b = [0u8; 168];
    let mut c = [0u8; 168];
    let mut d = [0u8; 168];
    Shake::<R>::digest_four(
        &[],
        &message[..135],
        &message[..168],
        message,
        &mut a,
        &mut b,
        &mut c,
        &mut d,
    );
    [short(&[&a]), short(&[&b]), short(&[&c]), short(&[&d])]
}

/// Four digests at once.
#[test]
fn digests_side_by_side(rt: HostRuntime) {
    let message = message();
    let [a, _, b, _, _, _, c, _, d] = recorded::<9>(OF_SHAKE128);
    assert_eq!(rt; digests_of_four::<168>(&message), [a[2], b[2], c[2], d[2]]);
    let [a, _, b, _, _, _, c, _, d] = recorded::<9>(OF_SHAKE256);
    assert_eq!(rt; digests_of_four::<136>(&message), [a[2], b[2], c[2], d[2]]);
}

/// The first 4096 bytes of four readers: some of each alone, so that their blocks begin at different places, then 1000 and then
/// 31 bytes of all four, and then the rest of each alone.
fn read_in_turns<const R: usize>(message: &[u8; 1000]) -> [u64; 4]
    requires { IsRate R }
{
    let mut a = Shake::<R>::reader(&[]);
    let mut b = Shake::<R>::reader(&message[..135]);
    let mut c = Shake::<R>::reader(&message[..168]);
    let mut d = Shake::<R>::reader(message);
    let mut a_first = [0u8; 1];
    let mut a_next = [0u8; 1000];
    let mut a_third = [0u8; 31];
    let mut a_last = [0u8; 3064];
    let mut b_first = [0u8; 136];
    let mut b_next = [0u8; 1000];
    let mut b_third = [0u8; 31];
    let mut b_last = [0u8; 2929];
    let mut c_next = [0u8; 1000];
    let mut c_third = [0u8; 31];
    let mut c_last = [0u8; 3065];
    let mut d_first = [0u8; 300];
    let mut d_next = [0u8; 1000];
    let mut d_third = [0u8; 31];
    let mut d_last = [0u8; 2765];
    a.read(&mut a_first);
    b.read(&mut b_first);
    d.read(&mut d_first);
    ShakeReader::<R>::read_four(
        &mut a,
        &mut b,
        &mut c,
        &mut d,
        &mut a_next,
        &mut b_next,
        &mut c_next,
        &mut d_next,
    );
    ShakeReader::<R>::read_four(
        &mut a,
        &mut b,
        &mut c,
        &mut d,
        &mut a_third,
        &mut b_third,
        &mut c_third,
        &mut d_third,
    );
    a.read(&mut a_last);
    b.read(&mut b_last);
    c.read(&mut c_last);
    d.read(&mut d_last);
    [
        short(&[
            a_first.as_slice(),
            a_next.as_slice(),
            a_third.as_slice(),
            a_last.as_slice(),
        ]),
        short(&[
            b_first.as_slice(),
            b_next.as_slice(),
            b_third.as_slice(),
            b_last.as_slice(),
        ]),
        short(&[c_next.as_slice(), c_third.as_slice(), c_last.as_slice()]),
        short(&[
            d_first.as_slice(),
            d_next.as_slice(),
            d_third.as_slice(),
            d_last.as_slice(),
        ]),
    ]
}

/// Readers that are read alone and by fours.
#[test]
fn readers_side_by_side(rt: HostRuntime) {
    let message = message();
    let [a, _, b, _, _, _, c, _, d] = recorded::<9>(OF_SHAKE128);
    assert_eq!(rt; read_in_turns::<168>(&message), [a[3], b[3], c[3], d[3]]);
    let [a, _, b, _, _, _, c, _, d] = recorded::<9>(OF_SHAKE256);
    assert_eq!(rt; read_in_turns::<136>(&message), [a[3], b[3], c[3], d[3]]);
}
