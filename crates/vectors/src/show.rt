// What a call gives: its answer, and a lent list as runs of equal elements. `print!` takes the runtime, which all functions down to here would have to
// hand on.
ghost use Rattle.std.specs.Prelude.{◌≡◌, ◌/◌, ◌%◌, Some, None, ◌==◌, if◌then◌else◌, length};
ghost use Rattle.meanings.specs.Codes.{detail_unit};

use meanings::DETAIL_UNIT;
use num_traits::AsPrimitive;

const OUT: i32 = 1;

// Writes an answer's number and detail. Gives the detail of an accepted call, which for a text is how many bytes are written.
pub fn show_answer(answer: u64) -> Option<u64>
    ensures { result ≡ (if answer % detail_unit == 0 then Some (answer / detail_unit) else None) }
{
    let number = answer % DETAIL_UNIT;
    let detail = answer / DETAIL_UNIT;
    io::print_decimal(OUT, number);
    io::write_all(OUT, b" ");
    io::print_decimal(OUT, detail);
    io::write_all(OUT, b"\n");
    (number == 0).then_some(detail)
}

// Writes a run of equal elements: one of them and, where there are more, how many.
fn show_run(x: u64, count: usize) {
    io::print_decimal(OUT, x);
    if 1 < count {
        io::write_all(OUT, b"*");
        io::print_decimal(OUT, count as u64);
    }
    io::write_all(OUT, b" ");
}

// Writes a list on a line, and gives how many of its elements are written: all.
pub fn show_list<T: AsPrimitive<u64>>(list: &[T]) -> usize
    ensures { result ≡ length list.now }
{
    let mut written = 0;
    let mut rest = list;
    while let Some((x, behind)) = rest.split_first() {
        let more = behind.iter().take_while(|y| *y == x).count();
        show_run(x.as_(), 1 + more);
        written += 1 + more;
        rest = &behind[more..];
    }
    io::write_all(OUT, b"\n");
    written
}

// The answer of a call that writes a text, the text's bytes as they are, then the rest of the buffer. Gives how many bytes are written: all.
pub fn show_text(answer: u64, out: &[u8]) -> usize
    ensures { result ≡ length out.now }
{
    let n = show_answer(answer).map_or(0, |detail| usize::min(detail as usize, out.len()));
    io::write_all(OUT, &out[..n]);
    n + show_list(&out[n..])
}
