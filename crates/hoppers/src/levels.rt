// The levels of up to eight hoppers.
ghost use Rattle.std.specs.Prelude.{◌≡◌, true, slice_index};
ghost use Rattle.hoppers.specs.Levels.{level, listed, padded, put, within};

use std::array;

// The levels of hoppers 0 to 7; those that there are not are 0.
#[derive(Clone, Copy, PartialEq, Eq, Debug)]
pub struct Levels {
    pub a: u8,
    pub b: u8,
    pub c: u8,
    pub d: u8,
    pub e: u8,
    pub f: u8,
    pub g: u8,
    pub h: u8,
}

impl Levels {
    // The first eight numbers of a slice, with 0 for those that it lacks.
    pub fn padded(numbers: &[u8]) -> Levels
        ensures { result ≡ padded numbers.now }
    {
        let [a, b, c, d, e, f, g, h]: [u8; 8] = array::from_fn(|i| number_at(numbers, i));
        Levels {
            a,
            b,
            c,
            d,
            e,
            f,
            g,
            h,
        }
    }

    // The levels in order.
    fn listed(self) -> [u8; 8]
        ensures { result ≡ listed self }
    {
        [
            self.a, self.b, self.c, self.d, self.e, self.f, self.g, self.h,
        ]
    }

    // The level of a hopper, or 0 where there is none of that number.
    pub fn level(self, i: usize) -> u8
        ensures { result ≡ level self i }
    {
        number_at(&self.listed(), i)
    }

    // The levels with that of one hopper changed.
    pub fn put(self, i: usize, to: u8) -> Levels
        ensures { result ≡ put self i to }
    {
        let mut levels = self.listed();
        if i < levels.len() {
            levels[i] = to;
        }
        Levels::padded(&levels)
    }

    // Whether no level is above that of the same hopper in the other.
    pub fn within(self, other: Levels) -> bool
        ensures { result ≡ within self other }
    {
        self.listed()
            .iter()
            .zip(&other.listed())
            .all(|(level, most)| level <= most)
    }

    // Whether all levels are the same.
    pub fn same(self, other: Levels) -> bool
        ensures { (result ≡ true → self ≡ other) × (self ≡ other → result ≡ true) }
    {
        self == other
    }
}

// The number in a place of a slice, or 0 past its end.
fn number_at(numbers: &[u8], i: usize) -> u8
    ensures { result ≡ slice_index numbers.now i }
{
    numbers.get(i).copied().unwrap_or(0)
}
