// The k readings nearest to a mark stand in a row. From mark to mark their first position never falls, so all marks together
// pass each reading at most once.
ghost use Rattle.std.specs.Prelude.{◌≡◌};
ghost use Rattle.meanings.specs.neighbours.Neighbours.{neighbour_bandwidths};
ghost use Rattle.questions.specs.Nearest.{StartsPassed, NearestFrom, IsBandwidth, Fillable};

// The first start from `from` on at which the sum of its minute and of the one behind its run is not below twice the mark, or the last start that
// there is.
pub(crate) fn nearest_start(minutes: &[u16], from: usize, k: usize, point: u16) -> usize
    requires { StartsPassed minutes.now k point from }
    ensures { NearestFrom minutes.now k point result }
{
    let last = minutes.len() - k;
    for start in from..last {
        if 2 * point as u32 <= minutes[start] as u32 + minutes[start + k] as u32 {
            return start;
        }
    }
    last
}

// The half width that takes in the k readings from `start` on: one more than the distance of the further of the two at their ends.
pub(crate) fn bandwidth_from(minutes: &[u16], start: usize, k: usize, point: u16) -> u32
    requires { NearestFrom minutes.now k point start }
    ensures { IsBandwidth minutes.now point k result }
{
    let z = point as u32;
    let first = minutes[start] as u32;
    let last = minutes[start + k - 1] as u32;
    if first + last <= 2 * z {
        return z - first + 1;
    }
    last - z + 1
}

// Stores the half width of each mark.
pub(crate) fn put_bandwidths(minutes: &[u16], points: &[u16], k: usize, bandwidths: &mut [u32])
    requires { Fillable minutes.now points.now k bandwidths.old }
    ensures { bandwidths.new ≡ neighbour_bandwidths minutes.now points.now k }
{
    let mut start = 0;
    for i in 0..points.len() {
        start = nearest_start(minutes, start, k, points[i]);
        bandwidths[i] = bandwidth_from(minutes, start, k, points[i]);
    }
}
