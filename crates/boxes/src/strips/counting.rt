// Cuts counted one by one.
ghost use Rattle.std.specs.Prelude.{◌≤◌, length};
ghost use Rattle.boxes.specs.Strips.{Eighths, Block};

// How many of the cuts 7, 15, 23 and so on lie at or below x.
pub(crate) fn eighths(cuts: &[u64], x: u64) -> usize
    ensures { Eighths cuts.now x result }
{
    let mut count = 0;
    for i in 0..cuts.len() / 8 {
        count += usize::from(cuts[8 * i + 7] <= x);
    }
    count
}

// How many of the eight cuts from `from` on do, or of those that there are.
pub(crate) fn block(cuts: &[u64], from: usize, x: u64) -> usize
    requires { from ≤ length cuts.now }
    ensures { Block cuts.now from x result }
{
    let mut count = 0;
    for i in from..cuts.len().min(from + 8) {
        count += usize::from(cuts[i] <= x);
    }
    count
}
