// From lists that no check refuses: cuts and cells, then windows, then tables and boxes. Each function has lists of its own on the stack: 64 + 64
// cuts, 32 + 32 windows, and two tables of 66 × 66 numbers.
ghost use Rattle.std.specs.Prelude.{length};
ghost use Rattle.meanings.specs.boxes.Lent.{firsts, ends};
ghost use Rattle.boxes.specs.Filling.{BoxesByStrips, FewMarks, BoxesByCuts, ListsAccepted, Filled};

use crate::cells::{Cuts, fill_cells};
use crate::cumulative::accumulate;
use crate::cuts::put_cuts;
use crate::sums::{Tables, put_boxes};
use crate::windows::put_windows;
use meanings::boxes::{MAX_CUTS, Question, Window};

// Boxes by the windows of both directions, from tables over both lists of cells.
pub(crate) fn put_by_strips(
    minutes: &[Window],
    temperatures: &[Window],
    counts: &[u32],
    sums: &[u32],
    boxes: &mut [u64],
)
    ensures { BoxesByStrips (firsts minutes.now) (ends minutes.now) (length minutes.now) (firsts temperatures.now) (ends temperatures.now) (length temperatures.now) counts.now sums.now boxes.old boxes.new }
{
    let mut count_table = [0u64; 4356];
    let mut sum_table = [0u64; 4356];
    accumulate(counts, &mut count_table);
    accumulate(sums, &mut sum_table);
    let tables = Tables {
        counts: &count_table,
        sums: &sum_table,
    };
    put_boxes(tables, minutes, temperatures, boxes)
}

// Boxes by the cuts of both directions.
pub(crate) fn put_by_cuts(
    asked: Question,
    cuts: Cuts,
    counts: &[u32],
    sums: &[u32],
    boxes: &mut [u64],
)
    requires { FewMarks asked }
    ensures { BoxesByCuts asked.entry cuts.entry counts.now sums.now boxes.old boxes.new }
{
    let marks = asked.minute_marks;
    let others = asked.temperature_marks;
    let mut windows = [Window::default(); 32];
    let mut other_windows = [Window::default(); 32];
    put_windows(marks, cuts.minutes, &mut windows);
    put_windows(others, cuts.temperatures, &mut other_windows);
    put_by_strips(
        &windows[..marks.points.len()],
        &other_windows[..others.points.len()],
        counts,
        sums,
        boxes,
    )
}

// All three lists, by cuts of its own.
pub(crate) fn fill(asked: Question, boxes: &mut [u64], counts: &mut [u32], sums: &mut [u32])
    requires { ListsAccepted asked boxes.old counts.old sums.old }
    ensures { Filled asked.entry boxes.new counts.new sums.new }
{
    let mut minute_cuts = [0u64; MAX_CUTS];
    let mut temperature_cuts = [0u64; MAX_CUTS];
    let n = put_cuts(asked.minute_marks, &mut minute_cuts);
    let m = put_cuts(asked.temperature_marks, &mut temperature_cuts);
    let cuts = Cuts {
        minutes: &minute_cuts[..n],
        temperatures: &temperature_cuts[..m],
    };
    fill_cells(asked.readings, cuts, counts, sums);
    put_by_cuts(asked, cuts, counts, sums, boxes)
}
