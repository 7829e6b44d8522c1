//! The lines of an input.
#![tactic(auto)]

ghost use Rattle.std.specs.Prelude.{◌≡◌, ◌<◌, ◌≤◌, ◌+◌, ◌^◌, ◌↔◌, ◌∷◌, [], length, take, map, position, false, true, Ok, Err, IsTrue, IfOk, IfErr, MatchResult};
ghost use Rattle.mldsa_engine.specs.Lines.{longest_line, line_digits, ends_line, sized, refused, Fits, AllFit, IsInputFault, TakesLines, StopsAt};
ghost use Rattle.mldsa_engine.specs.LineSteps.{TakesPiece, TakesLine};

use crate::fault::RunFault;
use crate::marked::Marked;
use hex::FromHexError;
use std::alloc::Global;
use std::io::Read;

/// The largest number of characters of a line.
pub const LONGEST_LINE: usize = 2097152;

/// The most bytes that are asked for at once.
const PIECE: usize = 4096;

/// How many characters of a line are asked for before it is known to be too short or too long: two
/// for each wanted byte, and its LF.
fn characters_of(wanted: Option<usize>) -> usize
    ensures value { result ≤ line_digits wanted + 1 }
    ensures most { result ≤ longest_line + 1 }
{
    match wanted {
        Some(wants) => 2 * wants.min(LONGEST_LINE / 2) + 1,
        None => 0,
    }
}

/// The place of the first LF.
fn end_of(given: &[u8]) -> Option<usize>
    ensures { result ≡ position ends_line given.now }
{
    given.iter().position(|byte| *byte == b'\n')
}

/// What ended a piece of a line.
#[derive(Clone, Copy)]
enum Ending {
    /// Nothing: the line may go on.
    Open,
    /// LF, which was read too.
    Line,
    /// The end of the input.
    Input,
}

/// A piece of a line: how many characters of the room it fills, and what ended it.
#[derive(Clone, Copy)]
struct Piece {
    length: usize,
    ending: Ending,
}

/// Reads characters into the room, each by a call of the device, and nothing past LF.
fn read_singly<I: Read>(input: &mut Marked<I>, room: &mut [u8]) -> Result<Piece, RunFault>
    requires unmarked { input.old.failed ≡ false }
    requires some { 0 < length room.old }
    ensures mark { MatchResult result (λ _. input.new.failed ≡ false)
        (λ fault. (input.new.failed ≡ true) × (fault ≡ RunFault.Read)) }
    ensures bound { IfOk result (λ piece. piece.length ≤ length room.new) }
    ensures ended { IfOk result (λ piece. ¬ (piece.ending ≡ Ending.Open) → piece.length < length room.new) }
    ensures taken { IfOk result (λ piece. TakesPiece 0 (I.remaining input.old.device) (I.remaining input.new.device)
        (take piece.length room.new) piece.ending) }
{
    for length in 0..room.len() {
        let mut character = [0];
        if input.read(&mut character)? == 0 {
            return Ok(Piece {
                length,
                ending: Ending::Input,
            });
        }
        if character[0] == b'\n' {
            return Ok(Piece {
                length,
                ending: Ending::Line,
            });
        }
        room[length] = character[0];
    }
    Ok(Piece {
        length: room.len(),
        ending: Ending::Open,
    })
}

/// Reads a piece of a line into the room: as many characters as are asked for by one call of the device, where
/// these are several, and otherwise one at a time.
fn read_piece<I: Read>(
    input: &mut Marked<I>,
    asked: usize,
    room: &mut [u8],
) -> Result<Piece, RunFault>
    requires unmarked { input.old.failed ≡ false }
    requires some { 0 < length room.old }
    ensures mark { MatchResult result (λ _. input.new.failed ≡ false)
        (λ fault. (input.new.failed ≡ true) × (fault ≡ RunFault.Read)) }
    ensures bound { IfOk result (λ piece. piece.length ≤ length room.new) }
    ensures ended { IfOk result (λ piece. ¬ (piece.ending ≡ Ending.Open) → piece.length < length room.new) }
    ensures taken { IfOk result (λ piece. TakesPiece asked (I.remaining input.old.device) (I.remaining input.new.device)
        (take piece.length room.new) piece.ending) }
{
    if asked < 2 {
        return read_singly(input, room);
    }
    let most = asked.min(room.len());
    let count = input.read(&mut room[..most])?;
    let (length, ending) = match end_of(&room[..count]) {
        Some(end) => (end, Ending::Line),
        None if count == 0 => (0, Ending::Input),
        None => (count, Ending::Open),
    };
    Ok(Piece { length, ending })
}

/// The fault of a line that the input ends with, which is missing if it has no characters.
fn require_line(number: usize, line: &[u8]) -> Result<(), RunFault>
    ensures { MatchResult result (λ _. 0 < length line.now) (λ fault. (fault ≡ RunFault.Missing number) × (length line.now ≡ 0)) }
{
    if line.is_empty() {
        return Err(RunFault::Missing { line: number });
    }
    Ok(())
}

/// The characters of the next line, without its LF. They are asked for one at a time, but for those
/// that a line needs to have the wanted bytes, which are asked for in pieces. At most one character more
/// than a line may have is read.
fn read_line<I: Read>(
    alloc: Global,
    number: usize,
    wanted: Option<usize>,
    room: &mut [u8; PIECE],
    input: &mut Marked<I>,
) -> Result<Vec<u8>, RunFault>
    requires unmarked { input.old.failed ≡ false }
    ensures read_failed { IsTrue input.new.failed ↔ (result ≡ Err RunFault.Read) }
    ensures taken { IfOk result (λ line. (length line.items ≤ longest_line)
        × TakesLine wanted (I.remaining input.old.device) (I.remaining input.new.device) line.items) }
    ensures stops { IfErr result (StopsAt I.remaining input.old input.new number (wanted ∷ [])) }
    ensures faults { IfErr result (λ fault. IsInputFault fault) }
{
    let characters = characters_of(wanted);
    let mut line = Vec::new(alloc);
    while line.len() <= LONGEST_LINE {
        let asked = characters.saturating_sub(line.len());
        let most = PIECE.min(LONGEST_LINE + 1 - line.len());
        let piece = read_piece(input, asked, &mut room[..most])?;
        line.extend_from_slice(&room[..piece.length])?;
        match piece.ending {
            Ending::Open => {}
            Ending::Line => return Ok(line),
            Ending::Input => {
                require_line(number, line.as_slice())?;
                return Ok(line);
            }
        }
    }
    Err(RunFault::TooLong { line: number })
}

/// The bytes of a line, by what decoding its characters gave, or its fault, which is `Memory` only if memory for
/// the bytes ran out.
fn judge(
    number: usize,
    wanted: Option<usize>,
    decoded: Result<Vec<u8>, FromHexError>,
) -> Result<Vec<u8>, RunFault>
    ensures { MatchResult decoded
        (λ bytes. MatchResult result
        (λ same. (sized number wanted bytes.items ≡ Ok same.items) × Fits wanted same.items)
        (λ fault. sized number wanted bytes.items ≡ Err fault))
        (λ refusal. result ≡ Err (refused number refusal)) }
{
    match (decoded, wanted) {
        (Ok(bytes), Some(wants)) if bytes.len() != wants => Err(RunFault::Length {
            line: number,
            wants,
            has: bytes.len(),
        }),
        (Ok(bytes), _) => Ok(bytes),
        (Err(FromHexError::OutOfMemory), _) => Err(RunFault::Memory),
        (Err(_), _) => Err(RunFault::NotHex { line: number }),
    }
}

/// The bytes of the next line, which has this number.
fn read_bytes<I: Read>(
    alloc: Global,
    number: usize,
    wanted: Option<usize>,
    room: &mut [u8; PIECE],
    input: &mut Marked<I>,
) -> Result<Vec<u8>, RunFault>
    requires unmarked { input.old.failed ≡ false }
    ensures read_failed { IsTrue input.new.failed ↔ (result ≡ Err RunFault.Read) }
    ensures fits { IfOk result (λ bytes. Fits wanted bytes.items) }
    ensures taken { IfOk result (λ bytes. TakesLines number (wanted ∷ [])
        (I.remaining input.old.device) (I.remaining input.new.device) (bytes.items ∷ [])) }
    ensures stops { IfErr result (StopsAt I.remaining input.old input.new number (wanted ∷ [])) }
    ensures faults { IfErr result (λ fault. IsInputFault fault) }
{
    let line = read_line(alloc, number, wanted, room, input)?;
    judge(number, wanted, hex::decode(alloc, line.as_slice()))
}

/// Reads the bytes of the wanted lines; the first has this number: as many bytes of each as are wanted of it, or any
/// number of them. A line is judged as soon as it is there, and no byte past the last one's LF is taken.
pub fn read_lines<I: Read>(
    alloc: Global,
    first: usize,
    wanted: &[Option<usize>],
    input: &mut Marked<I>,
) -> Result<Vec<Vec<u8>>, RunFault>
    requires unmarked { input.old.failed ≡ false }
    requires numbers { first + length wanted.now < 2 ^ 64 }
    ensures read_failed { IsTrue input.new.failed ↔ (result ≡ Err RunFault.Read) }
    ensures fit { IfOk result (λ lines. AllFit wanted.now (map (λ line. line.items) lines.items)) }
    ensures taken { IfOk result (λ lines. TakesLines first wanted.now
        (I.remaining input.old.device) (I.remaining input.new.device) (map (λ line. line.items) lines.items)) }
    ensures stops { IfErr result (StopsAt I.remaining input.old input.new first wanted.now) }
    ensures faults { IfErr result (λ fault. IsInputFault fault) }
{
    let mut room = [0; PIECE];
    let mut lines = Vec::new(alloc);
    for length in wanted {
        let bytes = read_bytes(alloc, first + lines.len(), *length, &mut room, input)?;
        lines.push(bytes)?;
    }
    Ok(lines)
}
