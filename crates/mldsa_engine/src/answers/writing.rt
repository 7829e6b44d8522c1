//! Lines of output.
#![tactic(auto)]

ghost use Rattle.std.specs.Prelude.{◌≡◌, ◌↔◌, ◌++◌, ◌∷◌, [], true, IsTrue, IfOk, IfErr, OnOk};
ghost use Rattle.mldsa_engine.specs.ProgramText.{text, hex_text, answer_word, Refuses};

use crate::RunFault;
use fips204::Fault;
use std::alloc::Global;

/// The result of a command.
#[derive(Drop)]
pub(crate) struct Reply {
    /// What is written.
    pub(crate) text: Vec<u8>,
    /// Whether the command succeeded or its result is `yes`.
    pub(crate) success: bool,
}

impl Reply {
    /// Adds the word for a result on a line. The output is a success as long as no result is `no`.
    pub(super) fn add_answer(&mut self, answer: bool) -> Result<(), RunFault>
        ensures text { OnOk result (self.new.text.items ≡ self.old.text.items ++ (answer_word answer ++ 10 ∷ [])) }
        ensures success { IsTrue self.new.success ↔ IsTrue self.old.success × IsTrue answer }
        ensures memory { IfErr result (λ fault. fault ≡ RunFault.Memory) }
    {
        self.success = self.success && answer;
        push_line(&mut self.text, word_of(answer))
    }
}

/// The words of an error on a line, and no success.
pub(super) fn refuse(alloc: Global, fault: Fault) -> Result<Reply, RunFault>
    ensures given { IfOk result (λ output. Refuses fault output.text.items output.success) }
    ensures memory { IfErr result (λ fault. fault ≡ RunFault.Memory) }
{
    word_line(alloc, fault.as_str(), false)
}

/// The word for a result on a line, which is a success if it is `yes`.
pub(super) fn tell(alloc: Global, answer: bool) -> Result<Reply, RunFault>
    ensures given { IfOk result (λ output. (output.text.items ≡ text (answer_word answer ∷ [])) × (output.success ≡ answer)) }
    ensures memory { IfErr result (λ fault. fault ≡ RunFault.Memory) }
{
    word_line(alloc, word_of(answer), answer)
}

/// The word for a result.
fn word_of(answer: bool) -> &'static str
    ensures { result.now ≡ answer_word answer }
{
    if answer { "yes" } else { "no" }
}

/// A line of these characters, and whether it is a success.
fn word_line(alloc: Global, word: &str, success: bool) -> Result<Reply, RunFault>
    ensures given { IfOk result (λ output. (output.text.items ≡ text (word.now ∷ [])) × (output.success ≡ success)) }
    ensures memory { IfErr result (λ fault. fault ≡ RunFault.Memory) }
{
    let mut text = Vec::new(alloc);
    push_line(&mut text, word)?;
    Ok(Reply { text, success })
}

/// A line that spells these bytes in lower case hex.
pub(super) fn one_line(alloc: Global, bytes: &[u8]) -> Result<Reply, RunFault>
    ensures given { IfOk result (λ output. (output.text.items ≡ hex_text (bytes.now ∷ [])) × (output.success ≡ true)) }
    ensures memory { IfErr result (λ fault. fault ≡ RunFault.Memory) }
{
    let line = hex::encode(alloc, bytes)?;
    word_line(alloc, line.as_str(), true)
}

/// Two lines that spell these bytes in lower case hex.
pub(super) fn two_lines(alloc: Global, first: &[u8], second: &[u8]) -> Result<Reply, RunFault>
    ensures given { IfOk result (λ output. (output.text.items ≡ hex_text (first.now ∷ second.now ∷ []))
        × (output.success ≡ true)) }
    ensures memory { IfErr result (λ fault. fault ≡ RunFault.Memory) }
{
    let mut output = one_line(alloc, first)?;
    let line = hex::encode(alloc, second)?;
    push_line(&mut output.text, line.as_str())?;
    Ok(output)
}

/// Adds a line of these characters.
fn push_line(written: &mut Vec<u8>, word: &str) -> Result<(), RunFault>
    ensures given { OnOk result (written.new.items ≡ written.old.items ++ (word.now ++ 10 ∷ [])) }
    ensures memory { IfErr result (λ fault. fault ≡ RunFault.Memory) }
{
    written.extend_from_slice(word.as_bytes())?;
    written.push(b'\n')?;
    Ok(())
}
