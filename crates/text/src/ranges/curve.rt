// The text of a curve over ranges.
ghost use Rattle.std.specs.Prelude.{◌≡◌, ◌+◌, ◌*◌, ◌≤◌, length};
ghost use Rattle.meanings.specs.ranges.Ranges.{range_row_width};
ghost use Rattle.text.specs.Written.{Put};
ghost use Rattle.text.specs.RangeTable.{stored_range_row, range_table_lines, range_table_text};

use crate::decimal::put_bytes;
use crate::lines::{put_pair_line, put_range_line};
use meanings::ranges::{Bounds, RANGE_ROW_WIDTH, RangeEstimate};
use meanings::{Mark, Marks};

// The row of mark k. Rows stand one behind the other in one list of numbers, as the C interface lends it; of a TryFrom each call would take an Err that never
// comes, since the room is asked.
pub(crate) fn stored_range_row(rows: &[u64], k: usize) -> RangeEstimate
    requires { range_row_width * k + range_row_width ≤ length rows.now }
    ensures { result ≡ stored_range_row rows.now k }
{
    let first = RANGE_ROW_WIDTH * k;
    RangeEstimate {
        left: rows[first],
        right: rows[first + 1],
        weight: rows[first + 2],
        sum: Bounds {
            low: rows[first + 3],
            high: rows[first + 4],
        },
        value: Bounds {
            low: rows[first + 5],
            high: rows[first + 6],
        },
    }
}

// A line for each mark, which fits. text has the same loop: a trait over the row, with its width and line as ghost members, is longer than both.
#[tactic(auto, unfolding(crate::specs::Written::put_size, crate::specs::Written::put_list, crate::specs::Written::fits, crate::specs::Written::written), using(crate::proofs::RangesTables::next_line_fits))]
pub(crate) fn put_range_lines(out: &mut [u8], marks: Marks, rows: &[u64]) -> Option<usize>
    requires { (length marks.bandwidths.now ≡ length marks.points.now) × (length rows.now ≡ range_row_width * length marks.points.now) × (length (range_table_lines marks.points.now marks.bandwidths.now rows.now (length marks.points.now)) ≤ length out.old) }
    ensures { Put out.old (range_table_lines marks.entry.points.now marks.entry.bandwidths.now rows.now (length marks.entry.points.now)) out.new result }
{
    let mut size = 0;
    for k in 0..marks.points.len() {
        let mark = Mark {
            point: marks.points[k],
            bandwidth: marks.bandwidths[k],
        };
        size += put_range_line(&mut out[size..], mark, stored_range_row(rows, k))?;
    }
    Some(size)
}

// The whole curve, which fits, then kept readings and passes. text has the same with another header; a trait is longer than both, as at put_range_lines.
#[tactic(auto, unfolding(crate::specs::Written::put_size, crate::specs::Written::fits, crate::specs::Whole::whole_text))]
pub(crate) fn put_range_curve(
    out: &mut [u8],
    kept: usize,
    marks: Marks,
    rows: &[u64],
    passes: u64,
) -> Option<usize>
    requires even { length marks.bandwidths.now ≡ length marks.points.now }
    requires seven { length rows.now ≡ range_row_width * length marks.points.now }
    requires fits { length (range_table_text marks.points.now marks.bandwidths.now rows.now kept passes) ≤ length out.old }
    ensures { Put out.old (range_table_text marks.entry.points.now marks.entry.bandwidths.now rows.now kept passes) out.new result }
{
    let lines = put_bytes(
        out,
        b"mark,half,left,right,weight,sumlow,sumhigh,vdklow,vdkhigh\n",
    )?;
    let empty = lines + put_range_lines(&mut out[lines..], marks, rows)?;
    let totals = empty + put_bytes(&mut out[empty..], b"\nkept,passes\n")?;
    Some(totals + put_pair_line(&mut out[totals..], kept as u64, passes)?)
}
