// The refusals of readings, of a record's edges and of one half width, for any pair of limits. Every function takes every input.

ghost use Rattle.std.specs.Prelude.{◌≡◌};
ghost use Rattle.meanings.specs.Reports.{verdict_fault, first_of, size_checks, series_checks, record_checks, bandwidth_checks};

use crate::{first_decrease, out_of_range};
use meanings::{Limits, Readings, Refusal, Report, RunningSums};

// What the lengths of readings earn: 8, 6.
pub(crate) fn size_fault(readings: Readings, limits: Limits) -> Result<(), Refusal>
    ensures { verdict_fault result ≡ first_of (size_checks limits readings.entry.minutes.now readings.entry.values.now) }
{
    if readings.minutes.len() != readings.values.len() {
        return Err(Report::LengthMismatch.at(0));
    }
    if limits.samples < readings.minutes.len() {
        return Err(Report::TooMany.at(0));
    }
    Ok(())
}

// What the lengths and the order of readings earn: 8, 6, 4.
pub fn series_fault(readings: Readings, limits: Limits) -> Result<(), Refusal>
    ensures { verdict_fault result ≡ first_of (series_checks limits readings.entry.minutes.now readings.entry.values.now) }
{
    size_fault(readings, limits)?;
    if let Some(i) = first_decrease(readings.minutes) {
        return Err(Report::SampleOutOfOrder.at(i));
    }
    Ok(())
}

// What a record's edges earn over so many readings: 11.
pub(crate) fn record_fault(samples: usize, running: &RunningSums) -> Result<(), Refusal>
    ensures { verdict_fault result ≡ first_of (record_checks samples running.now.left running.now.right) }
{
    if running.right < running.left {
        return Err(Report::InvalidRecord.at(0));
    }
    if samples < running.right {
        return Err(Report::InvalidRecord.at(0));
    }
    Ok(())
}

// What one half width earns: 9.
pub(crate) fn bandwidth_fault(bandwidth: u32) -> Result<(), Refusal>
    ensures { verdict_fault result ≡ first_of (bandwidth_checks bandwidth) }
{
    if out_of_range(bandwidth) {
        return Err(Report::BandwidthOutOfRange.at(0));
    }
    Ok(())
}
