//! The words of a call.
#![tactic(auto)]

ghost use Rattle.std.specs.Prelude.{◌≡◌, ℕ, List, [], ◌∷◌, Some, None, map, string_bytes, IfSome, IfNone};
ghost use Rattle.mldsa_engine.specs.Calls.{streams_word, task_word, set_word, call_words, AreNoCall};

use fips204::SetName;

/// The XOFs of a run: what stands for `H` and for `G`.
#[derive(Debug, Clone, Copy, PartialEq, Eq)]
pub enum Streams {
    /// `Sha256Ctr` and `Sha512Ctr`.
    Sha2,
    /// `Fill<0x00>` twice.
    Fill00,
    /// `Fill<0x55>` and `Fill<0x00>`.
    Fill55,
    /// `Fill<0xFF>` twice.
    FillFf,
}

/// What a run does.
#[derive(Debug, Clone, Copy, PartialEq, Eq)]
pub enum Task {
    /// Prints a public key and its hash.
    Id,
    /// Makes the keys of a seed and prints them.
    Keygen,
    /// Signs a message and prints the signature.
    Sign,
    /// Prints whether a signature is accepted.
    Verify,
    /// Makes the key pair of a seed, signs with it and prints whether the signature is accepted.
    Check,
    /// Prints for each of many signatures whether it is accepted.
    Batch,
}

/// The XOFs that a word names.
fn streams_of(word: &str) -> Option<Streams>
    ensures named { IfSome result (λ streams. word.now ≡ streams_word streams) }
    ensures unnamed { IfNone result ((streams : Streams) → ¬ (word.now ≡ streams_word streams)) }
{
    match word {
        "sha2" => Some(Streams::Sha2),
        "fill00" => Some(Streams::Fill00),
        "fill55" => Some(Streams::Fill55),
        "fillff" => Some(Streams::FillFf),
        _ => None,
    }
}

/// The command that a word names.
fn task_of(word: &str) -> Option<Task>
    ensures named { IfSome result (λ task. word.now ≡ task_word task) }
    ensures unnamed { IfNone result ((task : Task) → ¬ (word.now ≡ task_word task)) }
{
    match word {
        "id" => Some(Task::Id),
        "keygen" => Some(Task::Keygen),
        "sign" => Some(Task::Sign),
        "verify" => Some(Task::Verify),
        "check" => Some(Task::Check),
        "batch" => Some(Task::Batch),
        _ => None,
    }
}

/// The parameter set that a word names.
fn set_name(word: &str) -> Option<SetName>
    ensures named { IfSome result (λ set. word.now ≡ set_word set) }
    ensures unnamed { IfNone result ((set : SetName) → ¬ (word.now ≡ set_word set)) }
{
    match word {
        "44" => Some(SetName::MlDsa44),
        "65" => Some(SetName::MlDsa65),
        "87" => Some(SetName::MlDsa87),
        _ => None,
    }
}

/// The call that these words make, or `None`.
pub(crate) fn call_of(words: &[String]) -> Option<(Streams, Task, SetName)>
    ensures named { IfSome result (λ call. map string_bytes words.now ≡ call_words call.0 call.1 call.2) }
    ensures unnamed { IfNone result (AreNoCall (map string_bytes words.now)) }
{
    match words {
        [streams, task, set] => Some((
            streams_of(streams.as_str())?,
            task_of(task.as_str())?,
            set_name(set.as_str())?,
        )),
        _ => None,
    }
}
