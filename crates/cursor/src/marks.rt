//! Which rows of a block may have a number.

#![tactic(auto)]

ghost use Rattle.std.specs.Prelude.{◌≡◌, ◌<◌, ◌≤◌, ℕ, ℤ, get_or};
ghost use Rattle.cursor.specs.Marks.{MayHave, end_row, first_row, mark_of};

// Several rows, or one that is not before this.
const MANY: u8 = 255;

/// Each number has one of 512 marks, which other numbers have, too. Of each mark it is known which row has a
/// number with it, as long as it is one.
#[derive(Drop)]
pub struct Marks {
    // 0 for no row, the row and 1 for one, or `MANY`.
    rows: [u8; 512],
}

/// The mark of a number.
#[tactic(auto, unfolding(crate::specs::Marks::mark_of))]
pub(crate) fn mark_of(number: &i64) -> usize
    ensures mark { result ≡ mark_of number.now }
    ensures few { result < 512 }
{
    (number
        .cast_unsigned()
        .wrapping_mul(11_400_714_819_323_198_485)
        >> 55) as usize
}

impl Marks {
    /// No row has a number.
    pub(crate) fn none() -> Marks
        ensures { (mark : ℕ) → mark < 512 → get_or result.rows mark 0 ≡ 0 }
    {
        Marks { rows: [0; 512] }
    }

    /// A row has a number.
    pub(crate) fn set(&mut self, number: &i64, row: u8)
        ensures own { MayHave self.new row number.now }
        ensures others { (other : ℤ) (k : ℕ) → MayHave self.old k other → MayHave self.new k other }
    {
        let mark = mark_of(number);
        let is_first = self.rows[mark] == 0 && row < MANY - 1;
        self.rows[mark] = if is_first { row + 1 } else { MANY };
    }

    /// The first row that may have a number of a mark.
    pub(crate) fn first(&self, mark: usize) -> u16
        requires { mark < 512 }
        ensures { result ≡ first_row (get_or self.now.rows mark 0) }
    {
        let row = self.rows[mark];
        if row == MANY {
            return 0;
        }
        u16::from(row.saturating_sub(1))
    }

    /// The row behind the last that may have one.
    pub(crate) fn end(&self, mark: usize) -> u16
        requires { mark < 512 }
        ensures end { result ≡ end_row (get_or self.now.rows mark 0) }
        ensures few { result ≤ 256 }
    {
        let row = self.rows[mark];
        if row == MANY {
            return 256;
        }
        u16::from(row)
    }
}
