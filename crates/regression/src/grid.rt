// The bandwidth presets, "the knob", and the evaluation grid, which "the mark filler" fills.

ghost use Rattle.std.specs.Prelude.{◌≡◌, ◌+◌, ◌-◌, ◌*◌, ◌≤◌, length};
ghost use Rattle.meanings.specs.Calls.{answer_of};
ghost use Rattle.meanings.specs.Limits.{full as full_limits, max_u16};
ghost use Rattle.meanings.specs.Grid.{grid};
ghost use Rattle.meanings.specs.Calls.{fill, fill_points, fill_bandwidths};

use checks::full;
use checks::grid::fill_fault;
use meanings::Refusal;

// The bandwidth presets. A program in C hands over a position among them, "the knob".
const PRESETS: [u32; 12] = [30, 45, 60, 90, 120, 180, 240, 360, 480, 720, 1080, 1440];

// Stores mark k as first + k × spacing, for every k.
#[tactic(auto, using(crate::proofs::Fills::point_fits, crate::proofs::Fills::points_go_on, crate::proofs::Fills::points_end))]
pub(crate) fn put_points(points: &mut [u16], first: u16, spacing: u16)
    requires { (length points.old ≤ 512) × (first + (length points.old - 1) * spacing ≤ max_u16) }
    ensures { points.new ≡ grid first spacing (length points.old) }
{
    for (k, point) in points.iter_mut().enumerate() {
        *point = (first as usize + k * spacing as usize) as u16;
    }
}

// The mark filler. First mark, spacing and preset stay three numbers, here and in its checks, and the two lists to be written stay apart, as C gives them.
#[tactic(auto, unfolding(meanings::specs::Calls::fill, meanings::specs::Calls::fill_points, meanings::specs::Calls::fill_bandwidths))]
pub fn fill_grid(
    first: u16,
    spacing: u16,
    preset: u32,
    points: &mut [u16],
    bandwidths: &mut [u32],
) -> Result<(), Refusal>
    ensures result_value { answer_of result ≡ fill full_limits first spacing preset points.old bandwidths.old }
    ensures points_after { points.new ≡ fill_points full_limits first spacing preset points.old bandwidths.old }
    ensures bandwidths_after { bandwidths.new ≡ fill_bandwidths full_limits first spacing preset points.old bandwidths.old }
{
    fill_fault(
        first,
        spacing,
        preset,
        points.len(),
        bandwidths.len(),
        full(),
    )?;
    put_points(points, first, spacing);
    bandwidths.fill(PRESETS[preset as usize]);
    Ok(())
}
