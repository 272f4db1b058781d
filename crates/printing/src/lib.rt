// Texts of an archive, written line by line, and printed of a card: what the report and the card written back share. They differ
// in the header's word that line 1 begins with (`first`), and in the bytes of a last column (`wide`, 0 for none). They stay two
// numbers: the contracts of `write_text` and `print` name them.
#![tactic(auto)]

ghost use Rattle.std.specs.Prelude.{◌≡◌, ◌+◌, ◌≤◌, ◌<◌, length, unwrap_or, IfSome};
ghost use Rattle.slices.specs.Put.{put};
ghost use Rattle.refusals.specs.Table.{number_of};
ghost use Rattle.text.specs.Justified.{justified};
ghost use Rattle.words.specs.Layout.{read};
ghost use Rattle.words.specs.Places.{as_record};
ghost use Rattle.calls.specs.Lent.{answer};
ghost use Rattle.calls.specs.Outcomes.{answer_of};
ghost use Rattle.printing.specs.Texts.{lines_of, text_rows, output};
ghost use Rattle.printing.specs.Printed.{refusal_line, PrintRoom, PrintsRead};
ghost use Rattle.printing.specs.Cards.{LoadRoom, LoadsRead};
ghost use Rattle.printing.specs.Forms.{text_row, text_of, LastColumn, TextForm, TextRoom};

use card::{CardError, long_enough, read_card};
use refusals::Refusal;
use words::{Record, record_at, reference_of};

// Writes the last column, if there is one. Its width is written out: where the compiler knows how long the loop is, a report takes
// three quarters of the time.
fn put_last(out: &mut [u8], at: usize, wide: usize, last: u64)
    requires { LastColumn wide × (at + wide ≤ length out.old) }
    ensures { out.new ≡ put out.old at (justified wide last) }
{
    if wide == 0 {
        return;
    }
    text::put_number(out, at, 20, last);
}

// Writes one line at byte `at`: a number and a point in eight bytes each, a number in `wide`, and byte 10.
fn put_line(out: &mut [u8], at: usize, r: Record, wide: usize)
    requires { LastColumn wide × (at + 33 + wide ≤ length out.old) }
    ensures { out.new ≡ put out.old at (text_row wide (as_record r)) }
{
    let axes = r.point.at;
    let x = axes[0] as u64;
    let y = axes[1] as u64;
    let z = axes[2] as u64;
    text::put_number(out, at, 8, r.number);
    text::put_number(out, at + 8, 8, x);
    text::put_number(out, at + 16, 8, y);
    text::put_number(out, at + 24, 8, z);
    put_last(out, at + 32, wide, r.kept);
    out[at + 32 + wide] = b'\n';
}

// Writes the lines of the records behind the first line.
fn put_records(w: &[u64], out: &mut [u8], wide: usize)
    requires { TextRoom wide w.now out.old }
    ensures { out.new ≡ put out.old (33 + wide) (lines_of (text_row wide) (read w.now).rows) }
{
    let n = w[0] as usize;
    for i in 0..n {
        put_line(out, (33 + wide) * (i + 1), record_at(w, i), wide);
    }
}

// The text of the archive: rows 1 to 3, then 16; else its length, with the text at the front of the output.
pub fn write_text(w: &[u64], out: &mut [u8], first: usize, wide: usize) -> Result<u64, Refusal>
    requires { TextForm first wide }
    ensures { (answer_of result ≡ answer (text_rows (33 + wide) w.now out.old) (length (text_of first wide (read w.now)))) × (out.new ≡ output (text_rows (33 + wide) w.now out.old) (text_of first wide (read w.now)) out.old) }
{
    words::refusal(w)?;
    let bytes = (33 + wide as u64) * (w[0] + 1);
    if (out.len() as u64) < bytes {
        return Err(Refusal::OutputShort);
    }
    let head = Record {
        number: w[first],
        point: reference_of(w),
        kept: w[5],
    };
    put_line(out, 0, head, wide);
    put_records(w, out, wide);
    Ok(bytes)
}

// Writes the line of a refused card.
fn put_refusal(out: &mut [u8], error: CardError)
    requires { 17 ≤ length out.old }
    ensures { out.new ≡ put out.old 0 (refusal_line (number_of error.refusal) error.line) }
{
    text::put_number(out, 0, 8, error.refusal.number());
    text::put_number(out, 8, 8, error.line);
    out[16] = b'\n';
}

// Loads a card of any length into words that are enough for every capacity, or writes the line of a refused card. Answers how many
// bytes were written, if the card is refused. `read` bytes of it were read to the front of the input: all of it, or as much as fills
// the input. Lines behind the 514th decide nothing, so room for 514 lines of 33 bytes is enough. In a shorter input a line would be
// cut that decides.
pub fn load_card(input: &[u8], read: usize, words: &mut [u64], out: &mut [u8]) -> Option<usize>
    requires { LoadRoom input.now read words.old out.old }
    ensures loads { LoadsRead input.now read out.old (unwrap_or result 0) words.new out.new }
    ensures written { IfSome result (λ bytes. 0 < bytes) }
{
    match read_card(words, &input[..read]) {
        Ok(_) => None,
        Err(error) => {
            put_refusal(out, error);
            Some(17)
        }
    }
}

// Writes the text of a card of any length, of which `read` bytes were read to the front of the input, or the line of a refused card,
// and answers the length.
pub fn print(input: &[u8], read: usize, out: &mut [u8], first: usize, wide: usize) -> usize
    requires { TextForm first wide × PrintRoom (33 + wide) input.now read out.old }
    ensures { PrintsRead (text_of first wide) input.now read out.old result out.new }
{
    let mut words = long_enough();
    if let Some(written) = load_card(input, read, &mut words, out) {
        return written;
    }
    write_text(&words, out, first, wide).unwrap() as usize
}
