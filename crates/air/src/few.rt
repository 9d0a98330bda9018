// A few things in a row, in fixed memory.
ghost use Rattle.std.specs.Prelude.{◌≡◌, [], ◌∷◌, ◌++◌, take};
ghost use Rattle.std.specs.Iterator.{YieldsFirst, item_count};
ghost use Rattle.air.specs.Few.{listed};

// At most three of something, in order.
#[derive(Clone, Copy, PartialEq, Eq, Debug)]
pub enum UpToThree<T> {
    Empty,
    One(T),
    Two(T, T),
    Three(T, T, T),
}

impl<T: Copy> UpToThree<T> {
    // One more behind the others; a fourth is left out.
    pub fn and(self, last: T) -> UpToThree<T>
        ensures { listed result ≡ take 3 (listed self ++ (last ∷ [])) }
    {
        match self {
            UpToThree::Empty => UpToThree::One(last),
            UpToThree::One(a) => UpToThree::Two(a, last),
            UpToThree::Two(a, b) => UpToThree::Three(a, b, last),
            UpToThree::Three(a, b, c) => UpToThree::Three(a, b, c),
        }
    }
}

// The first comes first, and those behind it are left.
impl<T: Copy> Iterator for UpToThree<T> {
    type Item = T;

    ghost next_gives = { YieldsFirst listed };

    ghost remaining = { item_count listed };

    fn next(&mut self) -> Option<T> {
        let (first, others) = match *self {
            UpToThree::Empty => return None,
            UpToThree::One(a) => (a, UpToThree::Empty),
            UpToThree::Two(a, b) => (a, UpToThree::One(b)),
            UpToThree::Three(a, b, c) => (a, UpToThree::Two(b, c)),
        };
        *self = others;
        Some(first)
    }
}
