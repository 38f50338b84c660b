// A sheet of either kind read into lists whose holder counts on them only once it is accepted. Every public function takes every input.

ghost use Rattle.sheet.specs.ScanStages.{EitherScanned, FullLists, ScanOutcome, Zeros};

use crate::front::read_front;
use crate::names::read_named;
use meanings::ranges::RangeCounts;
use meanings::{Refusal, Report};

// The whole sheet, into lists of full length.
pub(crate) fn scan(
    sheet: &[u8],
    minutes: &mut [u16; 1024],
    lows: &mut [u16; 1024],
    highs: &mut [u16; 1024],
    points: &mut [u16; 512],
    bandwidths: &mut [u32; 512],
) -> Result<RangeCounts, Refusal>
    ensures { EitherScanned sheet.now result minutes.new lows.new highs.new points.new bandwidths.new }
{
    let front = read_front(sheet, points, bandwidths)?;
    let named = read_named(sheet, front.next, minutes, lows, highs)?;
    Ok(RangeCounts {
        samples: named.count,
        points: front.count,
        kind: named.kind,
    })
}

// The same for lists of any lengths. What the lists hold after a refusal is left open: they are a reader's own. Each stays a parameter of its own: in a
// struct of lent lists the contract would name the loan of each list once more.
#[tactic(auto, unfolding(meanings::specs::ranges::RangeCalls::read_ranges), using(meanings::proofs::Checks::differ_same, meanings::proofs::Checks::differ_true))]
fn scan_sheet(
    sheet: &[u8],
    minutes: &mut [u16],
    lows: &mut [u16],
    highs: &mut [u16],
    points: &mut [u16],
    bandwidths: &mut [u32],
) -> Result<RangeCounts, Refusal>
    ensures { ScanOutcome sheet.now minutes.old lows.old highs.old points.old bandwidths.old result minutes.new lows.new highs.new points.new bandwidths.new }
{
    let uneven = Report::LengthMismatch.at(0);
    let minutes = minutes.as_mut_array().ok_or(uneven)?;
    let lows = lows.as_mut_array().ok_or(uneven)?;
    let highs = highs.as_mut_array().ok_or(uneven)?;
    let points = points.as_mut_array().ok_or(uneven)?;
    let bandwidths = bandwidths.as_mut_array().ok_or(uneven)?;
    scan(sheet, minutes, lows, highs, points, bandwidths)
}

// Lists of full length of a reader's own. Beside those of `sheet`: one reader for both kinds would take a third list of 1,024 numbers from the stack of the
// plain one.
#[derive(Drop)]
pub struct SheetLists {
    pub minutes: [u16; 1024],
    pub lows: [u16; 1024],
    pub highs: [u16; 1024],
    pub points: [u16; 512],
    pub bandwidths: [u32; 512],
}

impl SheetLists {
    // Lists of zeros.
    pub fn new() -> SheetLists
        ensures { Zeros result.minutes result.lows result.highs result.points result.bandwidths }
    {
        SheetLists {
            minutes: [0; 1024],
            lows: [0; 1024],
            highs: [0; 1024],
            points: [0; 512],
            bandwidths: [0; 512],
        }
    }

    // Reads the sheet into these lists. What they hold after a refusal is left open.
    pub fn scan(&mut self, sheet: &[u8]) -> Result<RangeCounts, Refusal>
        ensures scanned { EitherScanned sheet.now result self.new.minutes self.new.lows self.new.highs self.new.points self.new.bandwidths }
        ensures lengths { FullLists self.new.minutes self.new.lows self.new.highs self.new.points self.new.bandwidths }
    {
        scan_sheet(
            sheet,
            &mut self.minutes,
            &mut self.lows,
            &mut self.highs,
            &mut self.points,
            &mut self.bandwidths,
        )
    }
}
