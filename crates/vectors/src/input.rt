// A case, its numbers and its lists of numbers.
ghost use Rattle.std.specs.Prelude.{◌≡◌, ◌≤◌, IfSome, length, pos, take};
ghost use Rattle.io.specs.Counts.{IsPrefixLen};
ghost use Rattle.vectors.specs.Numbers.{after_number, number_onto};

use num_traits::{AsPrimitive, Integral};

const IN: i32 = 0;

// The most elements of a list of readings or of marks in a case.
pub const MOST_ELEMENTS: usize = 1100;

// What is not read yet of a case.
#[derive(Drop)]
pub struct Case<'a> {
    pub rest: &'a [u8],
}

impl<'a> Case<'a> {
    // The next number, modulo 2^64; a byte below '0' ends it. `parse` takes no text that is longer than its number.
    #[tactic(auto, unfolding(crate::specs::Numbers::number_onto, crate::specs::Numbers::after_number))]
    pub fn number(&mut self) -> u64
        ensures value { result ≡ number_onto 0 self.old.rest.now }
        ensures rest { self.new.rest.now ≡ after_number self.old.rest.now }
        ensures no_longer { length self.new.rest.now ≤ length self.old.rest.now }
    {
        let mut value = 0u64;
        while let Some((byte, rest)) = self.rest.split_first() {
            self.rest = rest;
            if *byte < b'0' {
                break;
            }
            value = value.wrapping_mul(10).wrapping_add(u64::from(*byte - b'0'));
        }
        value
    }

    // The next number, as much of it as its type holds.
    pub fn narrow<T: Integral>(&mut self) -> T
    where
        u64: AsPrimitive<T>,
        ensures value { T.value result ≡ T.wrap (pos (number_onto 0 self.old.rest.now)) }
        ensures rest { self.new.rest.now ≡ after_number self.old.rest.now }
        ensures no_longer { length self.new.rest.now ≤ length self.old.rest.now }
    {
        self.number().as_()
    }

    // The front of a lent list, whose length the case states.
    pub fn lent<'b, T>(&mut self, list: &'b mut [T]) -> &'b mut [T]
        ensures front { result.now ≡ take (length result.now) list.old }
        ensures no_longer { length self.new.rest.now ≤ length self.old.rest.now }
    {
        let n = usize::min(self.narrow(), list.len());
        &mut list[..n]
    }

    // A list of the case, its length and then its numbers, in the front of `list`: memory of the caller, since nothing is allocated.
    pub fn list<'b, T: Integral>(&mut self, list: &'b mut [T]) -> &'b mut [T]
    where
        u64: AsPrimitive<T>,
        ensures front { length result.now ≤ length list.old }
        ensures no_longer { length self.new.rest.now ≤ length self.old.rest.now }
    {
        let front = self.lent(list);
        for x in front.iter_mut() {
            *x = self.narrow();
        }
        front
    }
}

// Reads the next case into the front of the buffer and gives its size, none behind the last case. The size stands before the case, five digits
// and a line feed.
pub fn next_case(buf: &mut [u8]) -> Option<usize>
    ensures { IfSome result (λ n. IsPrefixLen n buf.new) }
{
    let mut head = [0u8; 6];
    let read = io::read_full(IN, &mut head);
    let mut size = Case {
        rest: &head[..read],
    };
    let n = usize::min(size.narrow(), buf.len());
    match io::read_full(IN, &mut buf[..n]) {
        0 => None,
        size => Some(size),
    }
}
