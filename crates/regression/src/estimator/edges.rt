// Where a window's edges stand among the minutes.
ghost use Rattle.regression.specs.Rows.{Within, FoundFrom};

// The first position from `from` up to `to` whose minute is at least `bound`, else `to`. Both are edges of the record: of a
// part of the list each call would add the start to the position that is the answer.
pub(crate) fn first_from(minutes: &[u16], from: usize, to: usize, bound: u64) -> usize
    requires { Within minutes.now from to }
    ensures { FoundFrom minutes.now from to bound result }
{
    for i in from..to {
        if bound <= minutes[i] as u64 {
            return i;
        }
    }
    to
}
