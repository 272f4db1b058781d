// A card read from a stream and a text written to one, for the programs that read a card and print a text of its archive.
#![tactic(auto)]

ghost use Rattle.std.specs.Prelude.{◌≡◌, ◌≤◌, ℕ, List, length, take, OnOk, OnErr};
ghost use Rattle.std.specs.Io.KnownBytes.{Appends};
ghost use Rattle.streams.specs.Read.{Fits, ReadsFront};
ghost use Rattle.streams.specs.Written.{AppendsPart, Shows};

use std::io;
use std::io::{Cursor, Eprint, ErrorKind, Read, Write};

// Why a program did not print a text of the card that it reads.
#[derive(Drop)]
pub enum Failure {
    Reading(io::Error),
    Writing(io::Error),
}

// Whether a call that failed is to be made again, since a signal came before it had moved a byte.
fn interrupted(error: &io::Error) -> bool {
    error.kind() == ErrorKind::Interrupted
}

// Reads until the card ends or fills the input, and answers how many bytes there are of it. A loop that is proved has to end, and nothing says that signals do: the
// interruption after the millionth counts as an error.
pub fn read_card<R: Read>(card: &mut R, input: &mut [u8]) -> io::Result<usize>
    ensures fits { Fits result (length input.new) }
    ensures front { ReadsFront (R.remaining card.old) result input.new }
{
    let mut read = 0;
    let mut patience = 1000000u32;
    while read < input.len() {
        match card.read(&mut input[read..]) {
            Ok(0) => return Ok(read),
            Ok(more) => read += more,
            Err(failed) => {
                if patience == 0 || !interrupted(&failed) {
                    return Err(failed);
                }
                patience -= 1;
            }
        }
    }
    Ok(read)
}

// Writes all of the text, with the same patience, or up to where a write failed. std's `write_all` names an output that takes no
// more otherwise than `write zero`, and says nothing of what a failed call has written.
pub fn write_text<W: Write>(out: &mut W, text: &[u8]) -> io::Result<()>
    ensures all { OnOk result (Appends (W.contents out.old) (W.contents out.new) text.now) }
    ensures part { OnErr result (AppendsPart (W.contents out.old) (W.contents out.new) text.now) }
{
    let mut written = 0;
    let mut patience = 1000000u32;
    while written < text.len() {
        match out.write(&text[written..]) {
            Ok(0) => return Err(io::Error::from(ErrorKind::WriteZero)),
            Ok(more) => written += more,
            Err(error) => {
                if patience == 0 || !interrupted(&error) {
                    return Err(error);
                }
                patience -= 1;
            }
        }
    }
    Ok(())
}

// A program that prints a text of a card.
pub trait Program {
    // the text of a card, and the room that the program asks for the card and for its text
    ghost text: { List ℕ → List ℕ };

    ghost card_room: { ℕ };

    ghost text_room: { ℕ };

    // Writes the text of a card, of which `read` bytes were read to the front of the input, to the front of the output, and answers
    // its length. A card that is longer than the input has the text of what was read.
    fn print(input: &[u8], read: usize, out: &mut [u8]) -> usize
        requires lines { card_room ≤ length input.now }
        requires filled { read ≤ length input.now }
        requires room { text_room ≤ length out.old }
        ensures within { result ≤ length out.new }
        ensures front { (card : List ℕ) → take (length input.now) card ≡ take read input.now → take result out.new ≡ text card };
}

// Reads a card into this input and writes its text, by way of this output.
pub fn show<P: Program, R: Read, W: Write>(
    card: &mut R,
    input: &mut [u8],
    out: &mut [u8],
    to: &mut W,
) -> Result<(), Failure>
    requires lines { P.card_room ≤ length input.old }
    requires room { P.text_room ≤ length out.old }
    ensures { Shows (R.remaining card.old) P.text result (W.contents to.old) (W.contents to.new) }
{
    let read = read_card(card, input).map_err(Failure::Reading)?;
    let length = P::print(input, read, out);
    write_text(to, &out[..length]).map_err(Failure::Writing)
}

// Tells in one line on standard error what failed, and the system's reason: the text of the error without its number.
pub fn fail(rt: &impl Eprint, what: &str, error: &io::Error) {
    let mut text = [0u8; 320];
    let mut line = Cursor::new(&mut text[..]);
    let _ = write!(line, "{error}");
    let end = line.position() as usize;
    let said = str::from_utf8(&text[..end.min(text.len())]).unwrap_or("");
    let reason = match said.split_once(" (os error ") {
        Some((reason, _)) => reason,
        None => said,
    };
    let _ = eprintln!(rt; "{what}: {reason}");
}

// Tells why a program did not print its text, if it did not.
pub fn tell(rt: &impl Eprint, done: Result<(), Failure>, reading: &str, writing: &str) {
    match done {
        Ok(()) => {}
        Err(Failure::Reading(error)) => fail(rt, reading, &error),
        Err(Failure::Writing(error)) => fail(rt, writing, &error),
    }
}
