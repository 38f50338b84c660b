// Boxes by tables of cumulative sums, four numbers each.
ghost use Rattle.std.specs.Prelude.{◌≡◌};
ghost use Rattle.boxes.specs.Pairs.{four_terms};
ghost use Rattle.boxes.specs.Rows.{WithinStrips, RowReady, RowsReady, row_of, boxes_of};

use crate::sums::FullTables;
use meanings::boxes::Window;

// The cells of a minute window's strips and a temperature window's, added up: what lies below both ends, less what lies below one beginning, and what
// lies below both beginnings added once again. Modulo 2^64, which is exact wherever the sum fits. The table stays flat, 66 numbers a row:
// by rows of arrays each clause here would name rows beside the flat numbers that it is about.
pub(crate) fn box_sum(table: &[u64; 4356], window: Window, other: Window) -> u64
    requires first { WithinStrips window }
    requires second { WithinStrips other }
    ensures { result ≡ four_terms table.now window.first window.end other.first other.end }
{
    table[66 * window.end + other.end]
        .wrapping_add(table[66 * window.first + other.first])
        .wrapping_sub(table[66 * window.first + other.end])
        .wrapping_sub(table[66 * window.end + other.first])
}

// Count and value sum of one window with each of the other direction. The C interface has the row as a flat list, two numbers a pair.
#[tactic(auto, using(crate::proofs::SumsStoring::row_none, crate::proofs::SumsStoring::row_goes_on, crate::proofs::SumsStoring::row_ends))]
pub(crate) fn put_box_row(tables: FullTables, window: Window, others: &[Window], row: &mut [u64])
    requires { RowReady window others.now row.old }
    ensures { row.new ≡ row_of tables.entry window others.now }
{
    for k in 0..others.len() {
        let other = others[k];
        let count = box_sum(tables.counts, window, other);
        let sum = box_sum(tables.sums, window, other);
        row[2 * k] = count;
        row[2 * k + 1] = sum;
    }
}

// The same of every minute window, slowest.
#[tactic(auto, using(crate::proofs::SumsStoring::rows_begin, crate::proofs::SumsStoring::rows_go_on, crate::proofs::SumsStoring::rows_end, crate::proofs::SumsStoring::row_there))]
pub(crate) fn put_box_rows(
    tables: FullTables,
    minutes: &[Window],
    temperatures: &[Window],
    boxes: &mut [u64],
)
    requires { RowsReady minutes.now temperatures.now boxes.old }
    ensures { boxes.new ≡ boxes_of tables.entry minutes.now temperatures.now }
{
    let width = 2 * temperatures.len();
    let mut at = 0;
    for j in 0..minutes.len() {
        put_box_row(tables, minutes[j], temperatures, &mut boxes[at..at + width]);
        at += width;
    }
}
