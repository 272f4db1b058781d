// The program write_card: reads a card from standard input and prints it in archive order, or one line for a refused card.
// Errors of reading and writing as in the report program.
#![tactic(auto)]

ghost use Rattle.std.specs.Prelude.{◌*◌};
ghost use Rattle.printing.specs.Printed.{printed};
ghost use Rattle.writing.specs.Written.{card_text};
ghost use Rattle.streams.specs.Written.{Shows};

use std::io::{Read, Write};
use streams::{Failure, Program, show, tell};

struct Printer;

impl Program for Printer {
    ghost text = { printed card_text };

    // 514 lines of a card are all that decide, and the longest card has 513: `print` asks for so much
    // room, and proves that it is enough for a card of any length.
    ghost card_room = { 33 * 514 };

    ghost text_room = { 33 * 513 };

    fn print(input: &[u8], read: usize, out: &mut [u8]) -> usize {
        writing::print(input, read, out)
    }
}

// Reads a card and writes its card in archive order, or the line of a refused card.
pub fn write_card<R: Read, W: Write>(card: &mut R, to: &mut W) -> Result<(), Failure>
    ensures { Shows (R.remaining card.old) (printed card_text) result (W.contents to.old) (W.contents to.new) }
{
    let mut input = [0u8; 33 * 514];
    let mut out = [0u8; 33 * 513];
    show::<Printer, R, W>(card, &mut input, &mut out, to)
}

fn main(rt: HostRuntime) {
    tell(
        &rt,
        write_card(&mut rt.stdin(), &mut rt.stdout()),
        "write_card: cannot read the card",
        "write_card: cannot write the card",
    );
}
