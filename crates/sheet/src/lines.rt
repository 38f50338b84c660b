// The lines of the tank sheet: where a line ends, and whether its text is a given one. Every function takes every input. The sheet and a place in it stay two
// parameters, here and in all that reads it by lines: a part of the sheet would lose the place that a report names. The clauses of the stages name the byte at
// which each begins; of a cursor, lent to be moved, each would name it before and after.

ghost use Rattle.std.specs.Prelude.{◌≡◌, ◌<◌, ◌==◌, length, position};
ghost use Rattle.meanings.specs.Bytes.{line_feed};
ghost use Rattle.meanings.specs.Sheet.{same};
ghost use Rattle.sheet.specs.Lines.{line_at, feed_from, text_before};

use crate::words::{feed_bits, word_at};
use meanings::LINE_FEED;

// A line with a line feed: the end of its text, and the start of the line behind it.
#[derive(Clone, Copy, Debug, PartialEq, Eq)]
pub struct Line {
    pub end: usize,
    pub next: usize,
}

const CARRIAGE_RETURN: u8 = b'\r';

// Where the first line feed stands in these bytes.
fn first_feed(bytes: &[u8]) -> Option<usize>
    ensures { result ≡ position (λ b. b == line_feed) bytes.now }
{
    bytes.iter().position(|b| *b == LINE_FEED)
}

// The first line feed from byte `from` on. It looks at eight bytes as one word; the last ones, fewer than eight, are looked at byte by byte.
#[tactic(auto, using(crate::proofs::WordSearch::step_shortens, crate::proofs::WordSearch::word_within, crate::proofs::WordSearch::hit_within, crate::proofs::WordSearch::feed_in_word, crate::proofs::WordSearch::no_feed_in_word, crate::proofs::WordSearch::no_feed_behind_end, crate::proofs::WordSearch::no_feed_in_rest, crate::proofs::WordSearch::feed_in_rest))]
pub(crate) fn find_feed(sheet: &[u8], from: usize) -> Option<usize>
    ensures { result ≡ feed_from sheet.now from }
{
    let mut at = from;
    while let Some(word) = word_at(sheet, at) {
        let bits = feed_bits(word);
        if bits != 0 {
            return Some(at + (bits.trailing_zeros() / 8) as usize);
        }
        at += 8;
    }
    let place = first_feed(sheet.get(at..)?)?;
    Some(at + place)
}

// Where the text ends of the line that begins at byte `from` and has its line feed at byte `feed`.
#[tactic(auto, using(crate::proofs::LineEnds::text_to_feed, crate::proofs::LineEnds::text_to_return, crate::proofs::LineEnds::text_without_return))]
pub(crate) fn text_end(sheet: &[u8], from: usize, feed: usize) -> usize
    requires { feed < length sheet.now }
    ensures { result ≡ text_before sheet.now from feed }
{
    if feed <= from {
        return feed;
    }
    if sheet[feed - 1] == CARRIAGE_RETURN {
        return feed - 1;
    }
    feed
}

// The line that begins at byte `from`, if a line feed ends it.
#[tactic(auto, using(crate::proofs::LineEnds::feed_inside, crate::proofs::LineEnds::line_ended, crate::proofs::LineEnds::line_unended))]
pub(crate) fn find_line(sheet: &[u8], from: usize) -> Option<Line>
    ensures { result ≡ line_at sheet.now from }
{
    let feed = find_feed(sheet, from)?;
    let end = text_end(sheet, from, feed);
    Some(Line {
        end,
        next: feed + 1,
    })
}

// Whether two texts are the same.
pub(crate) fn same_text(text: &[u8], names: &[u8]) -> bool
    ensures { result ≡ same text.now names.now }
{
    text == names
}
