// The strip of a number among a direction's cuts, without a branch on how a cut and the number compare: of readings in no order such branches are
// guessed wrong half the time.

mod counting;

ghost use Rattle.boxes.specs.Strips.{StripOrZero};

use meanings::boxes::MAX_CUTS;

// How many cuts, which rise, lie at or below x: eight for each eighth one that does, and those of the block behind. Of more than 64 cuts, which no
// direction has, 0: the call takes every list and cannot fail.
#[tactic(auto, using(crate::proofs::Counts::strip_or_zero))]
pub fn strip(cuts: &[u64], x: u64) -> usize
    ensures { StripOrZero cuts.now x result }
{
    if MAX_CUTS < cuts.len() {
        return 0;
    }
    let from = 8 * counting::eighths(cuts, x);
    from + counting::block(cuts, from, x)
}
