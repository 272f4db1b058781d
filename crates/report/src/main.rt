// The report program: reads a card from standard input and prints its report, or one line for a refused card. Where the card
// cannot be read it prints nothing. An error of reading or writing is told in one line on standard error, and the exit status is
// 0 all the same.
#![tactic(auto)]

ghost use Rattle.std.specs.Prelude.{◌*◌};
ghost use Rattle.printing.specs.Printed.{printed};
ghost use Rattle.reports.specs.Report.{report_text};
ghost use Rattle.streams.specs.Written.{Shows};

use std::io::{Read, Write};
use streams::{Failure, Program, show, tell};

struct Printer;

impl Program for Printer {
    ghost text = { printed report_text };

    // 514 lines of a card are all that decide, and the longest report has 513: `print` asks for so much
    // room, and proves that it is enough for a card of any length.
    ghost card_room = { 33 * 514 };

    ghost text_room = { 53 * 513 };

    fn print(input: &[u8], read: usize, out: &mut [u8]) -> usize {
        reports::print(input, read, out)
    }
}

// Reads a card and writes its report, or the line of a refused card.
pub fn report<R: Read, W: Write>(card: &mut R, to: &mut W) -> Result<(), Failure>
    ensures { Shows (R.remaining card.old) (printed report_text) result (W.contents to.old) (W.contents to.new) }
{
    let mut input = [0u8; 33 * 514];
    let mut out = [0u8; 53 * 513];
    show::<Printer, R, W>(card, &mut input, &mut out, to)
}

fn main(rt: HostRuntime) {
    tell(
        &rt,
        report(&mut rt.stdin(), &mut rt.stdout()),
        "report: cannot read the card",
        "report: cannot write the report",
    );
}
