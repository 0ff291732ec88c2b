//! What is known of the rows: a plain list of their keys.

ghost use Rattle.std.specs.Prelude.{◌<◌, ◌≤◌, IfSome};
ghost use Rattle.database_tests.specs.Standing.{IsOurs};

use crate::asked::Asked;
use afl_base::SlotNo;
use db_model::{Text, Tuple, Value};

/// The rows that a relation has, each as its keys k, l and r. Of k there are four of each number, from
/// 0 on. Every fourth or so l is 3, and the others are many. Each r is one of five.
#[derive(Drop)]
pub struct Known {
    rows: [[i16; 3]; 600],
    count: u16,
    seed: u32,
}

impl Known {
    pub fn new() -> Known {
        Known {
            rows: [[0; 3]; 600],
            count: 0,
            seed: 14,
        }
    }

    /// The number of rows.
    pub fn count(&self) -> u16 {
        self.count
    }

    /// Makes up a row more, and answers its tuple. There are at most 600.
    pub fn add(&mut self) -> Option<Tuple>
        ensures { IfSome result (λ tuple. IsOurs tuple) }
    {
        let slot = self.count;
        if slot >= 600 {
            return None;
        }
        self.seed = self
            .seed
            .wrapping_mul(1_664_525)
            .wrapping_add(1_013_904_223);
        self.rows[usize::from(slot)] = keys_for(slot, (self.seed >> 16) as u16);
        self.count = slot + 1;
        self.tuple(slot)
    }

    /// The tuple in a slot.
    pub fn tuple(&self, slot: u16) -> Option<Tuple>
        ensures { IfSome result (λ tuple. IsOurs tuple) }
    {
        if slot >= 600 {
            return None;
        }
        let [k, l, r] = self.rows[usize::from(slot)];
        let letters = [65 + (slot / 26) as u8, 65 + (slot % 26) as u8];
        let text = Text::new(&letters)?;
        let mut tuple = Tuple::new();
        tuple.push(Value::Number(i64::from(k)));
        tuple.push(Value::Number(i64::from(l)));
        tuple.push(Value::Number(i64::from(r)));
        tuple.push(Value::Text(text));
        Some(tuple)
    }

    /// Whether a slot has this tuple.
    pub fn has(&self, slot: u16, tuple: &Tuple) -> bool {
        match self.tuple(slot) {
            Some(known) => tuple.as_slice() == known.as_slice(),
            None => false,
        }
    }

    /// Whether the next slot that is asked for was answered with its tuple, or that there is none.
    pub fn is_next(
        &self,
        asked: Asked,
        from: u16,
        end: u16,
        found: Option<u16>,
        tuple: &Tuple,
    ) -> bool {
        if found != self.next(asked, from, end) {
            return false;
        }
        match found {
            Some(slot) => self.has(slot, tuple),
            None => true,
        }
    }

    /// The next slot that is asked for, from one on and below another.
    pub fn next(&self, asked: Asked, from: u16, end: u16) -> Option<u16>
        ensures { IfSome result (λ slot. slot < 600) }
    {
        for slot in from..end.min(600) {
            if asked.takes(&self.rows[usize::from(slot)]) {
                return Some(slot);
            }
        }
        None
    }

    /// The next pair of slots with the same key at a place, by left slot and then right slot: from one
    /// right slot on at the left slot `left`. All are below `end`.
    pub fn next_pair(&self, place: u8, left: u16, from: u16, end: u16) -> Option<(u16, u16)>
        ensures { IfSome result (λ pair. pair.1 < 600) }
    {
        let mut from = from;
        for at in left..end.min(600) {
            if let Some(slot) = self.next_partner(place, at, from, end) {
                return Some((at, slot));
            }
            from = 0;
        }
        None
    }

    // The next slot with the same key at a place as a left slot has.
    fn next_partner(&self, place: u8, left: u16, from: u16, end: u16) -> Option<u16>
        requires left { left < 600 }
        ensures { IfSome result (λ slot. slot < 600) }
    {
        if place > 2 {
            return None;
        }
        let key = self.rows[usize::from(left)][usize::from(place)];
        for slot in from..end.min(600) {
            if self.rows[usize::from(slot)][usize::from(place)] == key {
                return Some(slot);
            }
        }
        None
    }
}

/// The number of a slot that was answered.
pub fn number_of(slot: &Option<SlotNo>) -> Option<u16> {
    match slot {
        Some(slot) => Some(slot.number()),
        None => None,
    }
}

fn keys_for(slot: u16, random: u16) -> [i16; 3]
    requires { slot < 600 }
{
    let l = if random % 4 == 0 {
        3
    } else {
        (random / 4 % 97) as i16 - 48
    };
    [(slot / 4) as i16, l, (random / 256 % 5) as i16 - 3]
}
