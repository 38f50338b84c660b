// The lines of a curve's text: of a mark, of a mark over ranges, and of two numbers.

mod parts;

ghost use Rattle.std.specs.Prelude.{◌≡◌, [], ◌∷◌};
ghost use Rattle.meanings.specs.Output.{decimal, text_line, curve_line};
ghost use Rattle.meanings.specs.ranges.RangeOutput.{range_curve_line};
ghost use Rattle.text.specs.Written.{put_size, put_list};
ghost use Rattle.text.specs.Line.{line_text};

use crate::lines::parts::put_whole_line;
use crate::room::line_fits;
use meanings::ranges::RangeEstimate;
use meanings::{Estimate, Mark};

// Stores a line of numbers and, behind them, values at the front of the list and answers how many bytes it has. Where there is no room for it the list
// stays as it was. Taken into its callers, since the loops over their few numbers are then none: 9 % fewer instructions a line.
#[inline(always)]
#[tactic(auto, using(crate::proofs::RoomLaws::size_put, crate::proofs::RoomLaws::list_put))]
fn put_line(out: &mut [u8], first: u64, numbers: &[u64], values: &[u64]) -> Option<usize>
    ensures value { result ≡ put_size out.old (line_text first numbers.now values.now) }
    ensures out_after { out.new ≡ put_list out.old (line_text first numbers.now values.now) }
{
    if line_fits(out.len(), first, numbers, values) {
        return Some(put_whole_line(out, first, numbers, values));
    }
    None
}

// The line of a mark: mark, half width and the row.
pub(crate) fn put_curve_line(out: &mut [u8], mark: Mark, row: Estimate) -> Option<usize>
    ensures value { result ≡ put_size out.old (curve_line mark.point mark.bandwidth row) }
    ensures out_after { out.new ≡ put_list out.old (curve_line mark.point mark.bandwidth row) }
{
    let half = u64::from(mark.bandwidth);
    let numbers = [half, row.left, row.right, row.weight, row.sum];
    put_line(out, u64::from(mark.point), &numbers, &[row.value])
}

// The same of a mark over ranges, with both sums and both values.
pub(crate) fn put_range_line(out: &mut [u8], mark: Mark, row: RangeEstimate) -> Option<usize>
    ensures value { result ≡ put_size out.old (range_curve_line mark.point mark.bandwidth row) }
    ensures out_after { out.new ≡ put_list out.old (range_curve_line mark.point mark.bandwidth row) }
{
    let sum = row.sum;
    let numbers = [
        u64::from(mark.bandwidth),
        row.left,
        row.right,
        row.weight,
        sum.low,
        sum.high,
    ];
    put_line(
        out,
        u64::from(mark.point),
        &numbers,
        &[row.value.low, row.value.high],
    )
}

// The same of two numbers.
pub(crate) fn put_pair_line(out: &mut [u8], a: u64, b: u64) -> Option<usize>
    ensures value { result ≡ put_size out.old (text_line (decimal a) (decimal b ∷ [])) }
    ensures out_after { out.new ≡ put_list out.old (text_line (decimal a) (decimal b ∷ [])) }
{
    put_line(out, a, &[b], &[])
}
