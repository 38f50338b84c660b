// Texts and numbers in decimal, stored at the front of a lent list. Four digits at a time: they are made in one word, a byte each.
// No Display and no `write!`: std's takes twice the instructions (docs/FIGURES.md). A number's bound and its room stand in each contract here: a type of
// its own for numbers below 10,000 or lists with room would be made and taken apart at each call.

ghost use Rattle.std.specs.Prelude.{◌≡◌, ◌≤◌, ◌<◌, length};
ghost use Rattle.meanings.specs.Output.{decimal};
ghost use Rattle.text.specs.Written.{Stored, put_size, put_list};
ghost use Rattle.text.specs.Digits.{two_digits, four_digits, eight_digits, word};

// No number of 64 bits has more digits.
const MOST_DIGITS: usize = 20;

const ZERO: u32 = 48;

// Four times ZERO, a byte each.
const ZEROS: u32 = 808464432;

// The digits of a number as bytes of one word, the first lowest. Both pairs of digits stand in the word, 16 bits each, and are divided by 10
// at once: 103 / 1024 is near enough to a tenth below 100. The tenth t of a pair leaves 256 × (pair − 10 × t) + t.
fn digit_word(n: u32) -> u32
    requires { n < 10000 }
    ensures { result ≡ word (four_digits n) }
{
    let pairs = n / 100 + n % 100 * 65536;
    let tenths = pairs * 103 / 1024;
    let tens = tenths % 16 + tenths / 65536 % 16 * 65536;
    pairs * 256 + ZEROS - tens * 2559
}

// A text that fits.
fn put(out: &mut [u8], text: &[u8]) -> usize
    requires { length text.now ≤ length out.old }
    ensures { Stored out.old text.now out.new result }
{
    let size = text.len();
    out[..size].copy_from_slice(text);
    size
}

// Two digits.
#[tactic(auto, unfolding(crate::specs::Digits::two_digits))]
fn put_two(out: &mut [u8], n: u32) -> usize
    requires { (n < 100) × (length (two_digits n) ≤ length out.old) }
    ensures { Stored out.old (two_digits n) out.new result }
{
    put(out, &[(ZERO + n / 10) as u8, (ZERO + n % 10) as u8])
}

// Four digits.
fn put_four(out: &mut [u8], n: u32) -> usize
    requires { (n < 10000) × (length (four_digits n) ≤ length out.old) }
    ensures { Stored out.old (four_digits n) out.new result }
{
    put(out, &digit_word(n).to_le_bytes())
}

// Eight digits.
fn put_eight(out: &mut [u8], n: u32) -> usize
    requires { (n < 100000000) × (length (eight_digits n) ≤ length out.old) }
    ensures { Stored out.old (eight_digits n) out.new result }
{
    let middle = put_four(out, n / 10000);
    middle + put_four(&mut out[middle..], n % 10000)
}

// A number of at most four digits.
fn put_short(out: &mut [u8], n: u32) -> usize
    requires { (n < 10000) × (length (decimal n) ≤ length out.old) }
    ensures { Stored out.old (decimal n) out.new result }
{
    if n < 10 {
        return put(out, &[(ZERO + n) as u8]);
    }
    if n < 100 {
        return put_two(out, n);
    }
    if n < 1000 {
        let second = put(out, &[(ZERO + n / 100) as u8]);
        return second + put_two(&mut out[second..], n % 100);
    }
    put_four(out, n)
}

// A number of at most eight digits. Taken into put_decimal: 2 % fewer instructions a line.
#[inline(always)]
fn put_medium(out: &mut [u8], n: u32) -> usize
    requires { (n < 100000000) × (length (decimal n) ≤ length out.old) }
    ensures { Stored out.old (decimal n) out.new result }
{
    if n < 10000 {
        return put_short(out, n);
    }
    let last = put_short(out, n / 10000);
    last + put_four(&mut out[last..], n % 10000)
}

// A number in decimal: what stands before its last eight or sixteen digits, then these.
fn put_decimal(out: &mut [u8], n: u64) -> usize
    requires { length (decimal n) ≤ length out.old }
    ensures { Stored out.old (decimal n) out.new result }
{
    if n < 100000000 {
        return put_medium(out, n as u32);
    }
    if n < 10000000000000000 {
        let last = put_medium(out, (n / 100000000) as u32);
        return last + put_eight(&mut out[last..], (n % 100000000) as u32);
    }
    let middle = put_short(out, (n / 10000000000000000) as u32);
    let last = middle + put_eight(&mut out[middle..], (n / 100000000 % 100000000) as u32);
    last + put_eight(&mut out[last..], (n % 100000000) as u32)
}

// How many digits a number has. Few numbers ask for it, so it stays out of their way.
#[inline(never)]
pub(crate) fn decimal_size(n: u64) -> usize
    ensures value { result ≡ length (decimal n) }
    ensures at_most { result ≤ 20 }
{
    if n == 0 {
        return 1;
    }
    n.ilog10() as usize + 1
}

// Stores a text at the front of the list and answers how many bytes it has. Where there is no room for it the list stays as it was.
#[tactic(auto, using(crate::proofs::RoomLaws::size_put, crate::proofs::RoomLaws::list_put, crate::proofs::RoomLaws::none_put, crate::proofs::RoomLaws::list_stays))]
pub(crate) fn put_bytes(out: &mut [u8], text: &[u8]) -> Option<usize>
    ensures value { result ≡ put_size out.old text.now }
    ensures out_after { out.new ≡ put_list out.old text.now }
{
    if out.len() < text.len() {
        return None;
    }
    Some(put(out, text))
}

// The same of a number in decimal. Where 20 bytes are left any number fits, and only nearer to the end its digits are counted.
#[inline(always)]
#[tactic(auto, using(crate::proofs::RoomLaws::size_put, crate::proofs::RoomLaws::list_put, crate::proofs::RoomLaws::none_put, crate::proofs::RoomLaws::list_stays))]
pub(crate) fn put_number(out: &mut [u8], n: u64) -> Option<usize>
    ensures value { result ≡ put_size out.old (decimal n) }
    ensures out_after { out.new ≡ put_list out.old (decimal n) }
{
    if MOST_DIGITS <= out.len() || decimal_size(n) <= out.len() {
        return Some(put_decimal(out, n));
    }
    None
}
