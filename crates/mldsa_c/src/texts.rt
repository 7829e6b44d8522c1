//! The texts of the numbers that the exports return.
#![tactic(auto)]

ghost use Rattle.std.specs.Prelude.{◌≡◌, ◌≤◌, ◌++◌, ◌-◌, length, replicate, slice_index_or, map};
ghost use Rattle.mldsa_c.specs.Numbers.{no_status};
ghost use Rattle.mldsa_c.specs.Texts.{text_of, TextOfAnswers};

use crate::numbers::{DONE, NO_STATUS, TEXTS, WRONG_LENGTH};

/// The text that a table has of a number.
fn text_at(texts: &[&'static str], number: u32) -> &'static str
    ensures { result.now ≡ slice_index_or (map (λ text. text.now) texts.now) number no_status }
{
    match texts.get(number as usize) {
        Some(text) => text,
        None => NO_STATUS,
    }
}

/// The text of a number.
pub(crate) fn text_of(number: u32) -> &'static str
    ensures text { result.now ≡ text_of number }
    ensures short { length result.now ≤ 63 }
{
    text_at(&TEXTS, number)
}

/// Writes words, and zeros behind them.
pub(crate) fn write_padded(words: &[u8], text: &mut [u8])
    requires { length words.now ≤ length text.old }
    ensures { text.new ≡ words.now ++ replicate (length text.old - length words.now) 0 }
{
    text.fill(0);
    text[..words.len()].copy_from_slice(words);
}

/// Writes the text of a status, and zeros behind it: 64 bytes.
#[unsafe(no_mangle)]
pub extern "C" fn mldsa_text_of(status: u32, text: &mut [u8]) -> u32
    ensures { TextOfAnswers status text.old text.new result }
{
    if text.len() != 64 {
        return WRONG_LENGTH;
    }
    write_padded(text_of(status).as_bytes(), text);
    DONE
}
