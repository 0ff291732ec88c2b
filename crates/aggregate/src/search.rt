//! The search for a number by its place in rising order.

#![tactic(auto)]

ghost use Rattle.std.specs.Prelude.{◌≡◌, ◌+◌, ◌*◌, ◌<◌, ◌≤◌, ◌^◌, ℕ, ℤ, pos, ◌+ℤ◌, ◌-ℤ◌, ◌≤ℤ◌, List, [], ◌∷◌, ◌++◌, get_or, length, replicate, FitsSigned, MatchOption};
ghost use Rattle.std.specs.Int.{w64};
ghost use Rattle.aggregate.specs.Order.{below};
ghost use Rattle.aggregate.specs.Search.{IsInPart, IsOutside, IsCounted, Seeks, begins, part_width};

/// A search for the number at a place in rising order. The numbers that it may be lie in sixteen
/// parts. A pass counts the numbers in each part, and the next looks in one of them alone.
#[derive(Clone, Copy)]
pub struct Search {
    /// How many of the numbers from the least on come before it in rising order.
    pub place: u32,
    /// The least that it may be.
    pub lo: i64,
    /// How far the greatest that it may be lies above the least.
    pub span: u32,
    /// How many numbers of this pass so far lie in each part.
    pub counts: [u16; 16],
}

impl Search {
    // The width of a part.
    fn width(&self) -> u32
        ensures value { result ≡ part_width self.now }
        ensures few { result ≤ 2 ^ 28 }
    {
        self.span / 16 + 1
    }

    // The part in which a number lies.
    fn part_of(&self, number: i64) -> Option<usize>
        requires { FitsSigned w64 (number -ℤ self.now.lo) }
        ensures { MatchOption result (IsOutside self.now number) (λ part. IsInPart self.now part number) }
    {
        let width = self.width();
        let Ok(above) = u32::try_from(number - self.lo) else {
            return None;
        };
        let part = above / width;
        if part < 16 { Some(part as usize) } else { None }
    }

    /// Takes one more number of this pass.
    pub fn take(&mut self, number: i64)
        requires fits { FitsSigned w64 (number -ℤ self.old.lo) }
        requires sixteen { length self.old.counts ≡ 16 }
        requires few { (part : ℕ) → get_or self.old.counts part 0 + 1 < 2 ^ 16 }
        ensures lo { self.new.lo ≡ self.old.lo }
        ensures span { self.new.span ≡ self.old.span }
        ensures place { self.new.place ≡ self.old.place }
        ensures sixteen { length self.new.counts ≡ 16 }
        ensures few { (part : ℕ) → get_or self.new.counts part 0 ≤ get_or self.old.counts part 0 + 1 }
        ensures told { (all so_far : List ℤ) (place : ℕ)
            → Seeks all so_far place self.old
            → Seeks all (so_far ++ number ∷ []) place self.new }
    {
        if let Some(part) = self.part_of(number) {
            self.counts[part] += 1;
        }
    }

    // The part in which the number is, and how many numbers of this part come before it.
    fn chosen(&self) -> (u32, u32)
        requires sixteen { length self.now.counts ≡ 16 }
        ensures part { result.0 < 16 }
        ensures place { (all : List ℤ)
            → IsCounted all self.now
            → below (begins self.now result.0) all + result.1 ≡ below self.now.lo all + self.now.place }
        ensures inside { (all : List ℤ)
            → IsCounted all self.now
            → result.0 < 15
            → below self.now.lo all + self.now.place < below (begins self.now (result.0 + 1)) all }
    {
        let mut place = self.place;
        for part in 0..15u32 {
            let here = u32::from(self.counts[part as usize]);
            if place < here {
                return (part, place);
            }
            place -= here;
        }
        (15, place)
    }

    /// The search at the begin of the next pass.
    pub fn narrowed(&self) -> Search
        requires sixteen { length self.now.counts ≡ 16 }
        requires fits { FitsSigned w64 (self.now.lo +ℤ pos self.now.span) }
        ensures part { 16 * result.span ≤ self.now.span }
        ensures lowest { self.now.lo ≤ℤ result.lo }
        ensures highest { (result.lo +ℤ pos result.span) ≤ℤ (self.now.lo +ℤ pos self.now.span) }
        ensures counts { result.counts ≡ replicate 16 0 }
        ensures told { (all : List ℤ) (place : ℕ) → Seeks all all place self.now → Seeks all [] place result }
    {
        let (part, place) = self.chosen();
        let from = (part * self.width()).min(self.span);
        Search {
            place,
            lo: self.lo + i64::from(from),
            span: (self.span - from).min(self.span / 16),
            counts: [0; 16],
        }
    }
}
