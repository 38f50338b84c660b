// Eight bytes as one word, and where a line feed stands in one. Every function takes every input.

ghost use Rattle.std.specs.Prelude.{◌≡◌};
ghost use Rattle.meanings.specs.Bytes.{line_feed};
ghost use Rattle.sheet.specs.Words.{byte, word_at, Marks};

// Eight times one byte.
const ONES: u64 = 0x0101010101010101;

const LINE_FEEDS: u64 = 0x0a0a0a0a0a0a0a0a;

const HIGH_BITS: u64 = 0x8080808080808080;

// The eight bytes from byte `at` on as one number, the first lowest, if as many follow. The length less 7 is the same for each word of a list, so
// a word takes one comparison, where get and first_chunk take two.
#[tactic(auto, using(crate::proofs::Joining::eight_follow, crate::proofs::Joining::fewer_follow))]
pub(crate) fn word_at(s: &[u8], at: usize) -> Option<u64>
    ensures { result ≡ word_at s.now at }
{
    if s.len().saturating_sub(7) <= at {
        return None;
    }
    Some(u64::from_le_bytes([
        s[at],
        s[at + 1],
        s[at + 2],
        s[at + 3],
        s[at + 4],
        s[at + 5],
        s[at + 6],
        s[at + 7],
    ]))
}

// Bits that tell whether a byte of the word is a line feed: 0 if none is, and otherwise the lowest set bit stands in the first such byte.
// A byte that is one is 0 in x, and only there does the subtraction, up to its first borrow, set a high bit that x has not.
#[tactic(auto, using(crate::proofs::Marking::marks_feed_bits))]
pub(crate) fn feed_bits(w: u64) -> u64
    ensures { Marks line_feed (byte w) 8 result }
{
    let x = w ^ LINE_FEEDS;
    x.wrapping_sub(ONES) & !x & HIGH_BITS
}
