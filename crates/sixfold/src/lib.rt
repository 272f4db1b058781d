// The six reports of an archive, one in each order of the axes, and what the program six_reports prints.
#![tactic(auto)]

ghost use Rattle.std.specs.Prelude.{◌≡◌, ◌+◌, ◌*◌, ◌≤◌, ◌<◌, length};
ghost use Rattle.slices.specs.Put.{put};
ghost use Rattle.words.specs.Layout.{word, extent, read};
ghost use Rattle.words.specs.Format.{archive_rows};
ghost use Rattle.printing.specs.Printed.{PrintRoom, PrintsRead};
ghost use Rattle.sixfold.specs.Six.{report_in, six_text};

use axes::write;
use card::long_enough;
use printing::load_card;
use reports::report;

// Writes the report in this order at byte `at`, where there is room for the longest, and answers its length. The archive rearranged
// goes to the second slice; what was in it does not matter.
fn put_report(w: &[u64], order: usize, second: &mut [u64], out: &mut [u8], at: usize) -> usize
    requires { (archive_rows w.now 0 ≡ 0) × (order < 6) × (extent (word w.now 1) ≤ length second.old) × (at + 53 * 513 ≤ length out.old) }
    ensures { (out.new ≡ put out.old at (report_in order (read w.now))) × (result ≡ length (report_in order (read w.now))) }
{
    write(w, order, second);
    report(second, &mut out[at..]).unwrap() as usize
}

// Writes the six reports one behind the other, and answers their length.
fn put_six(w: &[u64], second: &mut [u64], out: &mut [u8]) -> usize
    requires { (archive_rows w.now 0 ≡ 0) × (extent (word w.now 1) ≤ length second.old) × (318 * 513 ≤ length out.old) }
    ensures { (out.new ≡ put out.old 0 (six_text (read w.now))) × (result ≡ length (six_text (read w.now))) }
{
    let mut at = 0;
    for order in 0..6 {
        at += put_report(w, order, second, out, at);
    }
    at
}

// Writes the six reports of a card of any length, of which `read` bytes were read to the front of the input, or the line of a refused
// card, and answers the length. A line of a report has 53 bytes, so room for six times 53 for each of 513 lines is enough.
pub fn print(input: &[u8], read: usize, out: &mut [u8]) -> usize
    requires { PrintRoom 318 input.now read out.old }
    ensures { PrintsRead six_text input.now read out.old result out.new }
{
    let mut words = long_enough();
    if let Some(written) = load_card(input, read, &mut words, out) {
        return written;
    }
    let mut second = long_enough();
    put_six(&words, &mut second, out)
}
