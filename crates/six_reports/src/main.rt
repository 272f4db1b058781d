// The program six_reports: reads a card from standard input and prints its six reports, in the orders 0 to 5 of the axes, one behind
// the other, or one line for a refused card. Errors of reading and writing as in the report program.
#![tactic(auto)]

ghost use Rattle.std.specs.Prelude.{◌*◌};
ghost use Rattle.printing.specs.Printed.{printed};
ghost use Rattle.sixfold.specs.Six.{six_text};
ghost use Rattle.streams.specs.Written.{Shows};

use std::io::{Read, Write};
use streams::{Failure, Program, show, tell};

struct Printer;

impl Program for Printer {
    ghost text = { printed six_text };

    // 514 lines of a card are all that decide, and each of the longest reports has 513: `print` asks for so much
    // room, and proves that it is enough for a card of any length.
    ghost card_room = { 33 * 514 };

    ghost text_room = { 318 * 513 };

    fn print(input: &[u8], read: usize, out: &mut [u8]) -> usize {
        sixfold::print(input, read, out)
    }
}

// Reads a card and writes its six reports, or the line of a refused card.
pub fn six_reports<R: Read, W: Write>(card: &mut R, to: &mut W) -> Result<(), Failure>
    ensures { Shows (R.remaining card.old) (printed six_text) result (W.contents to.old) (W.contents to.new) }
{
    let mut input = [0u8; 33 * 514];
    let mut out = [0u8; 318 * 513];
    show::<Printer, R, W>(card, &mut input, &mut out, to)
}

fn main(rt: HostRuntime) {
    tell(
        &rt,
        six_reports(&mut rt.stdin(), &mut rt.stdout()),
        "six_reports: cannot read the card",
        "six_reports: cannot write the reports",
    );
}
