// Cards written back: the call, and what the program write_card prints.
#![tactic(auto)]

ghost use Rattle.std.specs.Prelude.{◌≡◌};
ghost use Rattle.calls.specs.Outcomes.{answer_of};
ghost use Rattle.printing.specs.Printed.{PrintRoom, PrintsRead};
ghost use Rattle.writing.specs.Written.{card_text, write, written};

use refusals::Refusal;

// The card of the archive: rows 1 to 3, then 16; else its length, with the card at the front of the output. Its first line begins
// with the capacity, word 1, and it has no last column.
pub fn write(w: &[u64], out: &mut [u8]) -> Result<u64, Refusal>
    ensures { (answer_of result ≡ write w.now out.old) × (out.new ≡ written w.now out.old) }
{
    printing::write_text(w, out, 1, 0)
}

// Writes a card of any length in archive order, of which `read` bytes were read to the front of the input, or the line of a
// refused card, and answers the length.
pub fn print(input: &[u8], read: usize, out: &mut [u8]) -> usize
    requires { PrintRoom 33 input.now read out.old }
    ensures { PrintsRead card_text input.now read out.old result out.new }
{
    printing::print(input, read, out, 1, 0)
}
