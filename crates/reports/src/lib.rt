// Reports: the call, and what the report program prints.
#![tactic(auto)]

ghost use Rattle.std.specs.Prelude.{◌≡◌};
ghost use Rattle.calls.specs.Outcomes.{answer_of};
ghost use Rattle.printing.specs.Printed.{PrintRoom, PrintsRead};
ghost use Rattle.reports.specs.Report.{report_text, report, reported};

use refusals::Refusal;

// The report of the archive: rows 1 to 3, then 16; else its length, with the report at the front of the output. Its first line
// begins with the count, word 0, and its last column has twenty bytes.
pub fn report(w: &[u64], out: &mut [u8]) -> Result<u64, Refusal>
    ensures { (answer_of result ≡ report w.now out.old) × (out.new ≡ reported w.now out.old) }
{
    printing::write_text(w, out, 0, 20)
}

// Writes the report of a card of any length, of which `read` bytes were read to the front of the input, or the line of a refused
// card, and answers the length.
pub fn print(input: &[u8], read: usize, out: &mut [u8]) -> usize
    requires { PrintRoom 53 input.now read out.old }
    ensures { PrintsRead report_text input.now read out.old result out.new }
{
    printing::print(input, read, out, 0, 20)
}
