//! Slots that follow one another.

#![tactic(auto)]

ghost use Rattle.std.specs.Prelude.{◌≡◌};
ghost use Rattle.tuple_file.specs.Tuples.{is_in};

/// The slots from a first one to before an end.
#[derive(Clone, Copy)]
pub struct Span {
    pub first: u16,
    pub end: u16,
}

impl Span {
    // Whether a slot is one of them.
    pub(crate) fn has(&self, slot: u16) -> bool
        ensures { result ≡ is_in self.now slot }
    {
        self.first <= slot && slot < self.end
    }
}
