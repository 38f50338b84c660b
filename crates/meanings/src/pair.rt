// The types that the comparison of two tanks gives. What each value has to be is defined in specs/.

ghost use Rattle.std.specs.Prelude.{◌≡◌};
ghost use Rattle.meanings.specs.pair.Comparison.{of_tank};

// One of the two tanks.
#[derive(Clone, Copy, Debug, PartialEq, Eq)]
pub enum Tank {
    First,
    Second,
}

impl Tank {
    // What is the first tank's where that is meant, else what is the second's.
    pub fn of<T: Drop>(self, first: T, second: T) -> T
        ensures { result ≡ of_tank self first second }
    {
        match self {
            Tank::First => first,
            Tank::Second => second,
        }
    }
}

// Where two tanks part: a position among the marks and the tank that is higher there.
#[derive(Clone, Copy, Debug, PartialEq, Eq)]
pub struct Parting {
    pub position: usize,
    pub higher: Tank,
}

// A parting with the run of the higher tank there: positions left up to but without right of its own lists.
#[derive(Clone, Copy, Debug, PartialEq, Eq)]
pub struct Bounded {
    pub parting: Parting,
    pub left: usize,
    pub right: usize,
}
