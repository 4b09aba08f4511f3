//! A block's counts of classes, and the numbers of combinations.
ghost use Rattle.std.specs.Prelude.{◌≡◌, ◌+◌, ◌-◌, ◌<◌, ◌≤◌, ◌^◌, min, length};
ghost use Rattle.fort_class_blocks.specs.Blocks.{product, AreClasses, cell_of};
ghost use Rattle.fort_class_blocks.specs.Shapes.{IsShape, counts_in};

/// How many classes each of up to 8 places has, and where the targets of their combinations start.
#[derive(Clone, Copy)]
pub(crate) struct Shape {
    pub(crate) start: usize,
    places: usize,
    counts: [u32; 8],
}

impl Shape {
    pub(crate) fn new(start: usize, counts: &[u32]) -> Shape
        requires { length counts.now ≤ 8 }
        ensures shape { IsShape result }
        ensures start { result.start ≡ start }
        ensures counts { counts_in result ≡ counts.now }
    {
        let mut all = [0u32; 8];
        let places = counts.len();
        all[..places].copy_from_slice(counts);
        Shape {
            start,
            places,
            counts: all,
        }
    }

    pub(crate) fn counts(&self) -> &[u32]
        requires { IsShape self.now }
        ensures { result.now ≡ counts_in self.now }
    {
        let counts = &self.counts;
        &counts[..self.places]
    }

    /// Where the target of a combination of classes stands.
    pub(crate) fn place(&self, classes: &[u32]) -> usize
        requires shape { IsShape self.now }
        requires classes { AreClasses (counts_in self.now) classes.now }
        requires few { self.now.start + product (counts_in self.now) < 2 ^ 64 }
        ensures { result ≡ self.now.start + cell_of (counts_in self.now) classes.now }
    {
        self.start + number(self.counts(), classes)
    }
}

/// How many combinations of classes there are; at most `usize::MAX` is told.
pub(crate) fn combinations(counts: &[u32]) -> usize
    ensures { result ≡ min (product counts.now) (2 ^ 64 - 1) }
{
    let mut combinations = 1usize;
    for count in counts {
        combinations = combinations.saturating_mul(*count as usize);
    }
    combinations
}

/// The number of a combination of classes, of which there are so many at each place.
pub(crate) fn number(counts: &[u32], classes: &[u32]) -> usize
    requires classes { AreClasses counts.now classes.now }
    requires few { product counts.now < 2 ^ 64 }
    ensures { result ≡ cell_of counts.now classes.now }
{
    let mut number = 0usize;
    for i in 0..classes.len() {
        number = number * counts[i] as usize + classes[i] as usize;
    }
    number
}
