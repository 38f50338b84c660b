// The second header line of a sheet, which tells its kind, and the reading lines behind it. Every public function takes every input.

ghost use Rattle.std.specs.Prelude.{length};
ghost use Rattle.sheet.specs.NamesStages.{NamesTried, NamedOutcome};

use crate::front::skip_header;
use crate::readings::read_readings;
use meanings::ranges::Kind;
use meanings::{Refusal, Report};

// What the second header line tells: the kind, and where the next line begins.
#[derive(Clone, Copy, Debug, PartialEq, Eq)]
pub(crate) struct Names {
    pub kind: Kind,
    pub next: usize,
}

// What stands from the second header line on: the kind and how many readings are kept.
#[derive(Clone, Copy, Debug, PartialEq, Eq)]
pub struct Named {
    pub kind: Kind,
    pub count: usize,
}

// The second header line at byte `from`, which alone tells the kind, if it is one.
pub(crate) fn second_header(sheet: &[u8], from: usize) -> Option<Names>
    ensures { NamesTried sheet.now from result }
{
    if let Some(next) = skip_header(sheet, from, b"minute,inj,vdk") {
        return Some(Names {
            kind: Kind::Plain,
            next,
        });
    }
    let next = skip_header(sheet, from, b"minute,inj,low,high")?;
    Some(Names {
        kind: Kind::Ranges,
        next,
    })
}

// From the second header line at byte `from` on, into lists of any lengths. What they hold after a refusal is left open: they are a reader's own. The three
// stay parameters of their own for the reason at store_reading of `readings`.
#[tactic(auto, unfolding(crate::specs::NamesStages::named_call, crate::specs::ReadingsStages::readings_call))]
pub(crate) fn read_named(
    sheet: &[u8],
    from: usize,
    minutes: &mut [u16],
    lows: &mut [u16],
    highs: &mut [u16],
) -> Result<Named, Refusal>
    ensures { NamedOutcome sheet.now from (length minutes.old) (length lows.old) (length highs.old) result minutes.new lows.new highs.new }
{
    let Some(names) = second_header(sheet, from) else {
        return Err(Report::BadHeader.at(from));
    };
    let count = read_readings(sheet, names.next, names.kind, minutes, lows, highs)?;
    Ok(Named {
        kind: names.kind,
        count,
    })
}
