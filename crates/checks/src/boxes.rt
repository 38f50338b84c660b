// What minute and temperature together are refused for. Every function takes every input.

ghost use Rattle.std.specs.Prelude.{◌*◌, ◌≡◌, ◌++◌, length};
ghost use Rattle.meanings.specs.Limits.{max_bandwidth};
ghost use Rattle.meanings.specs.Lists.{lowest};
ghost use Rattle.meanings.specs.Reports.{verdict_fault, first_of, differ, decreases, point_order_checks, bandwidth_list_checks};
ghost use Rattle.meanings.specs.boxes.Boxes.{max_temperature_bandwidth, box_limits, uneven_boxes, box_size_checks};
ghost use Rattle.meanings.specs.boxes.Boxes.{second_order_checks, box_checks};
ghost use Rattle.meanings.specs.boxes.Lent.{along_minutes, along_temperatures};

use crate::curve::first_out_of_range;
use crate::{first_decrease, uneven_rows};
use meanings::boxes::{BOX_LIMITS, CELLS, MAX_TEMPERATURE_BANDWIDTH, Question, Sizes};
use meanings::{MAX_BANDWIDTH, Refusal, Report};

// Whether a list has other than two places for each pair of marks. No product is made, so none wraps.
fn uneven_pairs(places: usize, points: usize, others: usize) -> bool
    ensures { result ≡ differ places (2 * points * others) }
{
    if places % 2 != 0 {
        return true;
    }
    uneven_rows(places / 2, points, others)
}

// Whether lengths don't agree: of the readings, of marks with half widths, of the boxes, of the two lists of cells.
fn uneven_lengths(asked: Question, sizes: Sizes) -> bool
    ensures { result ≡ uneven_boxes (along_minutes asked.entry) (along_temperatures asked.entry) asked.entry.readings.values.now sizes.boxes sizes.counts sizes.sums }
{
    let readings = asked.readings;
    let marks = asked.minute_marks;
    let others = asked.temperature_marks;
    if readings.minutes.len() != readings.temperatures.len() {
        return true;
    }
    if readings.minutes.len() != readings.values.len() {
        return true;
    }
    if marks.points.len() != marks.bandwidths.len() {
        return true;
    }
    if others.points.len() != others.bandwidths.len() {
        return true;
    }
    if uneven_pairs(sizes.boxes, marks.points.len(), others.points.len()) {
        return true;
    }
    if sizes.counts != CELLS {
        return true;
    }
    if sizes.sums != CELLS {
        return true;
    }
    false
}

// What the lengths earn: 8, 6, 7.
fn box_size_fault(asked: Question, sizes: Sizes) -> Result<(), Refusal>
    ensures { verdict_fault result ≡ first_of (box_size_checks box_limits (along_minutes asked.entry) (along_temperatures asked.entry) asked.entry.readings.values.now sizes.boxes sizes.counts sizes.sums) }
{
    let points = asked.minute_marks.points;
    let others = asked.temperature_marks.points;
    if uneven_lengths(asked, sizes) {
        return Err(Report::LengthMismatch.at(0));
    }
    if BOX_LIMITS.samples < asked.readings.minutes.len() {
        return Err(Report::TooMany.at(0));
    }
    if BOX_LIMITS.points < points.len() {
        return Err(Report::TooMany.at(0));
    }
    if BOX_LIMITS.points < others.len() {
        return Err(Report::TooMany.at(0));
    }
    if points.len() == 0 {
        return Err(Report::NoPoints.at(0));
    }
    if others.len() == 0 {
        return Err(Report::NoPoints.at(0));
    }
    Ok(())
}

// The lowest position whose byte is below the one before. Beside first_decrease of `checks`: one for both types would say in its clause how a type's
// numbers are read, and every check of minutes with it. By `for`, as there, for speed.
fn first_byte_decrease(xs: &[u8]) -> Option<usize>
    ensures { result ≡ lowest (decreases xs.now) (length xs.now) }
{
    for i in 1..xs.len() {
        if xs[i] < xs[i - 1] {
            return Some(i);
        }
    }
    None
}

// What the orders of both directions' marks earn: 5, 17.
fn mark_order_fault(points: &[u16], temperature_points: &[u8]) -> Result<(), Refusal>
    ensures { verdict_fault result ≡ first_of (point_order_checks points.now ++ second_order_checks temperature_points.now) }
{
    if let Some(i) = first_decrease(points) {
        return Err(Report::PointOutOfOrder.at(i));
    }
    if let Some(i) = first_byte_decrease(temperature_points) {
        return Err(Report::TemperatureOutOfOrder.at(i));
    }
    Ok(())
}

// What the half widths of both directions earn, each by its own greatest one: 9.
fn half_width_fault(bandwidths: &[u32], temperature_bandwidths: &[u32]) -> Result<(), Refusal>
    ensures { verdict_fault result ≡ first_of (bandwidth_list_checks max_bandwidth bandwidths.now ++ bandwidth_list_checks max_temperature_bandwidth temperature_bandwidths.now) }
{
    if let Some(i) = first_out_of_range(bandwidths, MAX_BANDWIDTH) {
        return Err(Report::BandwidthOutOfRange.at(i));
    }
    if let Some(i) = first_out_of_range(temperature_bandwidths, MAX_TEMPERATURE_BANDWIDTH) {
        return Err(Report::BandwidthOutOfRange.at(i));
    }
    Ok(())
}

// What the call is refused for, with so many numbers in its three lists: 8, 6, 7, 5, 17, 9.
pub fn box_fault(asked: Question, sizes: Sizes) -> Result<(), Refusal>
    ensures { verdict_fault result ≡ first_of (box_checks (along_minutes asked.entry) (along_temperatures asked.entry) asked.entry.readings.values.now sizes.boxes sizes.counts sizes.sums) }
{
    box_size_fault(asked, sizes)?;
    mark_order_fault(asked.minute_marks.points, asked.temperature_marks.points)?;
    half_width_fault(
        asked.minute_marks.bandwidths,
        asked.temperature_marks.bandwidths,
    )
}
