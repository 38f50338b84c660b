// Count and value sum of every pair of windows, from two tables of cumulative sums. The function that another crate can reach takes every input.

mod pairs;

ghost use Rattle.std.specs.Prelude.{IsTrue, ◌↔◌, length};
ghost use Rattle.std.specs.List.{All};
ghost use Rattle.meanings.specs.boxes.Lent.{firsts, ends};
ghost use Rattle.boxes.specs.Pairs.{BoxesTried};
ghost use Rattle.boxes.specs.Rows.{WithinStrips};

use meanings::boxes::{BOX_LIMITS, STRIPS, Window};

// Tables of cumulative sums: of how many readings lie in each cell, and of their values.
#[derive(Clone, Copy)]
pub struct Tables<'a> {
    pub counts: &'a [u64],
    pub sums: &'a [u64],
}

// Both as arrays, so that their lengths are in the types.
#[derive(Clone, Copy)]
pub(crate) struct FullTables<'a> {
    pub counts: &'a [u64; 4356],
    pub sums: &'a [u64; 4356],
}

// Whether each window begins and ends at strips: 0 to 65.
pub(crate) fn strips_within(windows: &[Window]) -> bool
    ensures { IsTrue result ↔ All WithinStrips windows.now }
{
    windows
        .iter()
        .all(|window| window.first <= STRIPS && window.end <= STRIPS)
}

// Fills the list of boxes, two numbers for each minute window with each temperature window, by tables of 66 × 66 numbers; a list that doesn't fit stays
// as it is.
#[tactic(auto, using(crate::proofs::SumsStoring::strips_all))]
pub(crate) fn put_boxes(
    tables: Tables,
    minutes: &[Window],
    temperatures: &[Window],
    boxes: &mut [u64],
)
    ensures { BoxesTried tables.entry.counts.now tables.entry.sums.now (firsts minutes.now) (ends minutes.now) (length minutes.now) (firsts temperatures.now) (ends temperatures.now) (length temperatures.now) boxes.old boxes.new }
{
    if let Some(counts) = tables.counts.as_array()
        && let Some(sums) = tables.sums.as_array()
        && minutes.len() <= BOX_LIMITS.points
        && temperatures.len() <= BOX_LIMITS.points
        && boxes.len() == 2 * minutes.len() * temperatures.len()
        && strips_within(minutes)
        && strips_within(temperatures)
    {
        let tables = FullTables { counts, sums };
        pairs::put_box_rows(tables, minutes, temperatures, boxes)
    }
}
