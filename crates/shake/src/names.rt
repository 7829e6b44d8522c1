//! What the names of the two functions stand for, by the output of each. No code calls these functions.
#![tactic(auto)]

ghost use Rattle.std.specs.Prelude.{◌≡◌, length};
ghost use Rattle.shake.specs.Shake.{shake128, shake256};

use crate::sponge::{Shake128, Shake128Reader, Shake256, Shake256Reader};

/// The first bytes of SHAKE128.
pub(crate) fn read_128(input: &[u8], out: &mut [u8])
    ensures { out.new ≡ shake128 input.now (length out.old) }
{
    let mut reader: Shake128Reader = Shake128::reader(input);
    reader.read(out);
}

/// The first bytes of SHAKE256.
pub(crate) fn read_256(input: &[u8], out: &mut [u8])
    ensures { out.new ≡ shake256 input.now (length out.old) }
{
    let mut reader: Shake256Reader = Shake256::reader(input);
    reader.read(out);
}
