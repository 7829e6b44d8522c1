//! What each command reads, writes and returns.
#![tactic(auto)]

ghost use Rattle.std.specs.Prelude.{◌≡◌, ◌≤◌, ◌↔◌, ◌∷◌, [], length, map, take, false, true, Err, IsTrue, IfOk, IfErr};
ghost use Rattle.fips204.specs.Encodings.{PublicParts, IsPublicKeyOf};
ghost use Rattle.fips204.specs.Refusals.{VerifiesInput};
ghost use Rattle.fips204.specs.Framing.{plain};
ghost use Rattle.fips204.specs.Prepared.{prepared_public};
ghost use Rattle.fips204.specs.Sets.{named_set};
ghost use Rattle.mldsa_engine.specs.Lines.{AllFit, IsInputFault, StopsAt};
ghost use Rattle.mldsa_engine.specs.ProgramText.{two_bytes, entry_lines, input_lines, lines_of_input, hex_text, TellsKeys, TellsSignature, TellsCheck, Answers, Executes};
ghost use Rattle.mldsa_engine.specs.InnerSteps.{AcceptsIfPrepared, JudgesEntries, JudgesByKey};

mod writing;

use crate::call::Task;
use crate::lines::read_lines;
use crate::{Marked, RunFault};
use fips204::sets::{HasSet, KeySizes, Matrix, Set, SignatureSizes};
use fips204::traits::{KeyGen, SerDes, Signer, Verifier, pairwise_check};
use fips204::types::{KG, PreparedPublicKey, PrivateKey, PublicKey};
use fips204::xof::Xof;
use fips204::{Fault, SetName};
use std::alloc::Global;
use std::io::Read;
use std::marker::PhantomData;
pub(crate) use writing::Reply;
use writing::{one_line, refuse, tell, two_lines};

/// Reads the lines that a command wants, and carries it out at a parameter set.
pub(crate) fn execute<H: Xof, G: Xof, I: Read>(
    alloc: Global,
    task: Task,
    set: SetName,
    input: &mut Marked<I>,
) -> Result<Reply, RunFault>
    requires unmarked { input.old.failed ≡ false }
    ensures read_failed { IsTrue input.new.failed ↔ (result ≡ Err RunFault.Read) }
    ensures executed { IfOk result (λ output. Executes H.front G.front task (named_set set)
        (I.remaining input.old.device) (I.remaining input.new.device) output.text.items output.success) }
    ensures stops { IfErr result (StopsAt I.remaining input.old input.new 1 (lines_of_input task set (I.remaining input.old.device))) }
    ensures faults { IfErr result (λ fault. IsInputFault fault) }
{
    match set {
        SetName::MlDsa44 => AtSet::<4, 4, H, G>::run(alloc, task, input),
        SetName::MlDsa65 => AtSet::<6, 5, H, G>::run(alloc, task, input),
        SetName::MlDsa87 => AtSet::<8, 7, H, G>::run(alloc, task, input),
    }
}

/// The commands at the parameter set whose matrix has `K` rows and `L` columns, over the XOFs `H` and `G`.
///
/// A command is not inlined, so that its keys stand in the stack alone.
struct AtSet<const K: usize, const L: usize, H, G>(PhantomData<(H, G)>);

impl<
    S,
    const K: usize,
    const L: usize,
    const SIG_LEN: usize,
    const PK_LEN: usize,
    const SK_LEN: usize,
    H: Xof,
    G: Xof,
> AtSet<K, L, H, G>
where
    Matrix<K, L>: HasSet<Set = S>,
    S: Set<Signature = [u8; SIG_LEN], PublicKey = [u8; PK_LEN], PrivateKey = [u8; SK_LEN]>,
    S: SignatureSizes<K, L, SIG_LEN> + KeySizes<K, L, PK_LEN, SK_LEN>,
{
    /// Reads the lines that a command wants, and carries it out.
    fn run<I: Read>(alloc: Global, task: Task, input: &mut Marked<I>) -> Result<Reply, RunFault>
        requires unmarked { input.old.failed ≡ false }
        ensures read_failed { IsTrue input.new.failed ↔ (result ≡ Err RunFault.Read) }
        ensures executed { IfOk result (λ output. Executes H.front G.front task S.set
            (I.remaining input.old.device) (I.remaining input.new.device) output.text.items output.success) }
        ensures stops { IfErr result (StopsAt I.remaining input.old input.new 1 (input_lines task S.set (I.remaining input.old.device))) }
        ensures faults { IfErr result (λ fault. IsInputFault fault) }
    {
        match task {
            Task::Id => {
                let lines = read_lines(alloc, 1, &[Some(PK_LEN)], input)?;
                let lines = lines.as_slice();
                Self::identify(alloc, lines[0].as_slice())
            }
            Task::Keygen => {
                let lines = read_lines(alloc, 1, &[Some(32)], input)?;
                let lines = lines.as_slice();
                Self::keygen(alloc, array_of(lines[0].as_slice()))
            }
            Task::Sign => {
                let wanted = [Some(SK_LEN), Some(32), None, None];
                let lines = read_lines(alloc, 1, &wanted, input)?;
                let [key, seed, context, message] = fields(lines.as_slice());
                Self::sign(alloc, key, array_of(seed), context, message)
            }
            Task::Verify => {
                let wanted = [Some(PK_LEN), Some(SIG_LEN), None, None];
                let lines = read_lines(alloc, 1, &wanted, input)?;
                let [key, signature, context, message] = fields(lines.as_slice());
                tell(alloc, Self::accepts(key, message, signature, context))
            }
            Task::Check => {
                let wanted = [Some(32), Some(32), None, None];
                let lines = read_lines(alloc, 1, &wanted, input)?;
                let [xi, rnd, context, message] = fields(lines.as_slice());
                Self::check(alloc, array_of(xi), array_of(rnd), context, message)
            }
            Task::Batch => {
                let lines = read_lines(alloc, 1, &[Some(PK_LEN), None, Some(2)], input)?;
                let lines = lines.as_slice();
                let count = number_of(lines[2].as_slice());
                let (key, context) = (lines[0].as_slice(), lines[1].as_slice());
                Self::judge_batch(alloc, key, context, count, input)
            }
        }
    }

    /// The public key that has these bytes, and its hash, as lines of hex.
    #[inline(never)]
    fn identify(alloc: Global, key: &[u8]) -> Result<Reply, RunFault>
        requires key { length key.now ≡ PK_LEN }
        ensures given { IfOk result (λ output. (output.text.items ≡ hex_text (key.now ∷ take 64 (H.front key.now) ∷ []))
            × (output.success ≡ true)) }
        ensures memory { IfErr result (λ fault. fault ≡ RunFault.Memory) }
    {
        let key = Self::decode(key);
        let tr = *key.tr();
        two_lines(alloc, &key.into_bytes(), &tr)
    }

    /// The keys of a seed, as lines of hex, or the error.
    #[inline(never)]
    fn keygen(alloc: Global, seed: &[u8; 32]) -> Result<Reply, RunFault>
        ensures given { IfOk result (λ output. TellsKeys S.set H.front G.front seed.now output.text.items output.success) }
        ensures memory { IfErr result (λ fault. fault ≡ RunFault.Memory) }
    {
        match KG::<K, L, H, G>::keygen_from_seed(seed) {
            Ok((public, private)) => two_lines(alloc, &public.into_bytes(), &private.into_bytes()),
            Err(fault) => refuse(alloc, fault),
        }
    }

    /// The signature by the private key that has these bytes, as a line of hex, or the error; that of the key's
    /// bytes stands first.
    #[inline(never)]
    fn sign(
        alloc: Global,
        key: &[u8],
        seed: &[u8; 32],
        context: &[u8],
        message: &[u8],
    ) -> Result<Reply, RunFault>
        requires key { length key.now ≡ SK_LEN }
        ensures given { IfOk result (λ output. TellsSignature S.set H.front G.front
            key.now seed.now context.now message.now output.text.items output.success) }
        ensures memory { IfErr result (λ fault. fault ≡ RunFault.Memory) }
    {
        match PrivateKey::<K, L, H, G>::try_from_bytes(*array_of(key)) {
            Ok(key) => match key.try_sign_with_seed(seed, message, context) {
                Ok(signature) => one_line(alloc, &signature),
                Err(fault) => refuse(alloc, fault),
            },
            Err(fault) => refuse(alloc, fault),
        }
    }

    /// Whether the public key that has these bytes accepts a signature.
    #[inline(never)]
    fn accepts(key: &[u8], message: &[u8], signature: &[u8], context: &[u8]) -> bool
        requires key { length key.now ≡ PK_LEN }
        requires signature { length signature.now ≡ SIG_LEN }
        ensures { (pk : PublicParts) × IsPublicKeyOf H.front S.set.k key.now pk
            × (IsTrue result ↔ VerifiesInput S.set H.front G.front pk signature.now (plain message.now context.now)) }
    {
        Self::decode(key).verify(message, array_of(signature), context)
    }

    /// Whether the pair of a seed verifies what it signs, as a word and a truth value, or the first error.
    #[inline(never)]
    fn check(
        alloc: Global,
        xi: &[u8; 32],
        rnd: &[u8; 32],
        context: &[u8],
        message: &[u8],
    ) -> Result<Reply, RunFault>
        ensures given { IfOk result (λ output. TellsCheck S.set H.front G.front
            xi.now rnd.now context.now message.now output.text.items output.success) }
        ensures memory { IfErr result (λ fault. fault ≡ RunFault.Memory) }
    {
        match pairwise_check::<KG<K, L, H, G>>(xi, rnd, message, context) {
            Ok(answer) => tell(alloc, answer),
            Err(fault) => refuse(alloc, fault),
        }
    }

    /// Judges the entries of a batch, as many as are counted, by the public key that has these bytes, which is
    /// prepared once.
    #[inline(never)]
    fn judge_batch<I: Read>(
        alloc: Global,
        key: &[u8],
        context: &[u8],
        count: usize,
        input: &mut Marked<I>,
    ) -> Result<Reply, RunFault>
        requires unmarked { input.old.failed ≡ false }
        requires key { length key.now ≡ PK_LEN }
        requires few { count ≤ 65535 }
        ensures read_failed { IsTrue input.new.failed ↔ (result ≡ Err RunFault.Read) }
        ensures judged { IfOk result (λ output. JudgesByKey S.set H.front G.front key.now context.now count
            (I.remaining input.old.device) (I.remaining input.new.device) output.text.items output.success) }
        ensures stops { IfErr result (StopsAt I.remaining input.old input.new 4 (entry_lines SIG_LEN count)) }
        ensures faults { IfErr result (λ fault. IsInputFault fault) }
    {
        let key = Self::decode(key);
        let mut prepared = Err(Fault::SamplingLimit);
        Self::write_prepared(&key, &mut prepared);
        Self::judge_entries(alloc, &prepared, context, count, input)
    }

    /// Prepares a public key in the caller's place.
    ///
    /// Not inlined, so that the prepared key stands in the stack beside the entries once.
    #[inline(never)]
    fn write_prepared(
        key: &PublicKey<K, L, H, G>,
        prepared: &mut Result<PreparedPublicKey<K, L, H>, Fault>,
    )
        ensures { prepared.new ≡ prepared_public S.set G.front key.now }
    {
        *prepared = key.prepare();
    }

    /// Judges the entries by a prepared key: reads the two lines of an entry, and keeps of it the verdict alone.
    #[inline(never)]
    fn judge_entries<I: Read>(
        alloc: Global,
        key: &Result<PreparedPublicKey<K, L, H>, Fault>,
        context: &[u8],
        count: usize,
        input: &mut Marked<I>,
    ) -> Result<Reply, RunFault>
        requires unmarked { input.old.failed ≡ false }
        requires few { count ≤ 65535 }
        ensures read_failed { IsTrue input.new.failed ↔ (result ≡ Err RunFault.Read) }
        ensures judged { IfOk result (λ output. JudgesEntries
            (λ signature message. AcceptsIfPrepared S.set H.front key.now message signature context.now) SIG_LEN count
            (I.remaining input.old.device) (I.remaining input.new.device) output.text.items output.success) }
        ensures stops { IfErr result (StopsAt I.remaining input.old input.new 4 (entry_lines SIG_LEN count)) }
        ensures faults { IfErr result (λ fault. IsInputFault fault) }
    {
        let mut output = Reply {
            text: Vec::new(alloc),
            success: true,
        };
        for entry in 0..count {
            let lines = read_lines(alloc, 4 + 2 * entry, &[Some(SIG_LEN), None], input)?;
            let signature = array_of(lines[0].as_slice());
            let message = lines[1].as_slice();
            let accepted = Self::is_accepted(key, message, signature, context);
            output.add_answer(accepted)?;
        }
        Ok(output)
    }

    /// The public key that has these bytes.
    #[inline(never)]
    fn decode(key: &[u8]) -> PublicKey<K, L, H, G>
        requires key { length key.now ≡ PK_LEN }
        ensures { IsPublicKeyOf H.front S.set.k key.now result }
    {
        PublicKey::<K, L, H, G>::try_from_bytes(*array_of(key)).unwrap()
    }

    /// Whether a prepared key accepts a signature; false if the key has no matrix.
    fn is_accepted(
        key: &Result<PreparedPublicKey<K, L, H>, Fault>,
        message: &[u8],
        signature: &[u8; SIG_LEN],
        context: &[u8],
    ) -> bool
        ensures { IsTrue result ↔ AcceptsIfPrepared S.set H.front key.now message.now signature.now context.now }
    {
        match key {
            Ok(key) => key.verify(message, signature, context),
            Err(_) => false,
        }
    }
}

/// The bytes of each of four lines.
fn fields(lines: &[Vec<u8>]) -> [&[u8]; 4]
    requires { length lines.now ≡ 4 }
    ensures { map (λ field. field.now) result ≡ map (λ line. line.items) lines.now }
{
    [
        lines[0].as_slice(),
        lines[1].as_slice(),
        lines[2].as_slice(),
        lines[3].as_slice(),
    ]
}

/// A line of a known number of bytes as an array.
fn array_of<const N: usize>(bytes: &[u8]) -> &[u8; N]
    requires { length bytes.now ≡ N }
    ensures { result.now ≡ bytes.now }
{
    bytes.as_array::<N>().unwrap()
}

/// The number that two bytes spell, the high byte first.
fn number_of(bytes: &[u8]) -> usize
    requires { length bytes.now ≡ 2 }
    ensures value { result ≡ two_bytes bytes.now }
    ensures most { result ≤ 65535 }
{
    usize::from(bytes[0]) * 256 + usize::from(bytes[1])
}
