//! What becomes of an image by commands, one after the other.

use crate::running::{Cut, Ended, NO_CUT, call, copied, dumped, nothing};
use std::alloc::{AllocError, Global};

/// What a run is asked for.
#[derive(Drop)]
pub enum Asked {
    /// Commands, each with its `;`.
    Script(Vec<u8>),
    /// Frames, each with its end.
    Frames(Vec<u8>),
    /// This many commands of a seed.
    Generated { seed: &'static str, count: usize },
}

/// Numbers of commands that are generated.
pub const COUNTS: &[&str] = &[
    "1", "2", "3", "4", "5", "6", "7", "8", "9", "10", "11", "12", "13", "14", "15", "16", "17",
    "18", "19", "20", "21", "22", "23", "24", "25", "26", "27", "28", "29", "30", "31", "32", "33",
    "34", "35", "36", "37", "38", "39", "40",
];

/// An image, what it is asked for, and what stands after each front part of that.
#[derive(Drop)]
pub struct Story {
    pub image: Vec<u8>,
    pub asked: Asked,
    pub marks: Vec<Mark>,
}

/// What stands after some commands in front.
#[derive(Drop)]
pub struct Mark {
    /// How many writes were done.
    pub writes: u64,
    /// How many bytes of replies were written.
    pub written: usize,
    /// The script of the database.
    pub database: Vec<u8>,
    /// Whether the command after removes rows.
    pub removes: bool,
}

impl Asked {
    // After which bytes the commands end.
    fn ends(&self, alloc: Global) -> Result<Vec<usize>, AllocError> {
        match self {
            Asked::Script(text) => ends_at(alloc, text.as_slice(), b';'),
            Asked::Frames(text) => ends_at(alloc, text.as_slice(), 0xc0),
            Asked::Generated { seed: _, count } => {
                let mut ends = Vec::new(alloc);
                for many in 1..=*count {
                    ends.push(many)?;
                }
                Ok(ends)
            }
        }
    }

    // Asks an image for what ends there.
    fn run_to(&self, alloc: Global, end: usize, image: &mut [u8], cut: Cut) -> Ended {
        match self {
            Asked::Script(text) => run_front(alloc, "run", text.as_slice(), end, image, cut),
            Asked::Frames(text) => run_front(alloc, "serve", text.as_slice(), end, image, cut),
            Asked::Generated { seed, count: _ } => match COUNTS.get(end.wrapping_sub(1)) {
                Some(count) => call(alloc, &["gen", "image", *seed, *count], b"", image, cut),
                None => nothing(alloc),
            },
        }
    }

    // Whether what begins there removes rows.
    fn removes_at(&self, place: usize) -> bool {
        match self {
            Asked::Script(text) => match text.as_slice().get(place..) {
                Some(rest) => rest.starts_with(b"REMOVE FROM"),
                None => false,
            },
            _ => false,
        }
    }
}

fn ends_at(alloc: Global, text: &[u8], last: u8) -> Result<Vec<usize>, AllocError> {
    let mut ends = Vec::new(alloc);
    for at in 0..text.len() {
        if text[at] == last {
            ends.push(at + 1)?;
        }
    }
    Ok(ends)
}

fn run_front(
    alloc: Global,
    form: &str,
    text: &[u8],
    end: usize,
    image: &mut [u8],
    cut: Cut,
) -> Ended {
    match text.get(..end) {
        Some(front) => call(alloc, &[form, "image", "input"], front, image, cut),
        None => nothing(alloc),
    }
}

impl Story {
    /// Asks for all, on a copy of the image, which is handed back.
    pub fn cut(&self, alloc: Global, cut: Cut) -> (Ended, Vec<u8>) {
        let mut image = copied(alloc, self.image.as_slice());
        let end = match &self.asked {
            Asked::Script(text) => text.len(),
            Asked::Frames(text) => text.len(),
            Asked::Generated { seed: _, count } => *count,
        };
        let ended = self.asked.run_to(alloc, end, image.as_mut_slice(), cut);
        (ended, image)
    }
}

// Whether what ends there is done within this many writes.
fn is_done(alloc: Global, image: &[u8], asked: &Asked, end: usize, writes: u64) -> bool {
    let mut image = copied(alloc, image);
    let cut = Cut { writes, front: 0 };
    asked.run_to(alloc, end, image.as_mut_slice(), cut).status == 0
}

// How many writes what ends there takes, of which this many are done before.
fn writes_to(alloc: Global, image: &[u8], asked: &Asked, end: usize, least: u64) -> u64 {
    let mut low = least;
    for step in [
        4_096u64, 2_048, 1_024, 512, 256, 128, 64, 32, 16, 8, 4, 2, 1,
    ] {
        if !is_done(
            alloc,
            image,
            asked,
            end,
            low.saturating_add(step).saturating_sub(1),
        ) {
            low = low.saturating_add(step);
        }
    }
    low
}

// What stands after what ends there.
fn mark_behind(alloc: Global, image: &[u8], asked: &Asked, end: usize, least: u64) -> Mark {
    let writes = writes_to(alloc, image, asked, end, least);
    let mut image = copied(alloc, image);
    let ended = asked.run_to(alloc, end, image.as_mut_slice(), NO_CUT);
    let written = match asked {
        Asked::Generated { seed: _, count: _ } => 0,
        _ => ended.written.len(),
    };
    Mark {
        writes,
        written,
        database: dumped(alloc, image.as_mut_slice()),
        removes: asked.removes_at(end),
    }
}

/// What becomes of an image by what it is asked for.
pub fn tell(alloc: Global, image: &[u8], asked: Asked) -> Result<Story, AllocError> {
    let mut marks = Vec::new(alloc);
    let mut first = copied(alloc, image);
    marks.push(Mark {
        writes: 0,
        written: 0,
        database: dumped(alloc, first.as_mut_slice()),
        removes: asked.removes_at(0),
    })?;
    let mut least = 0;
    for end in asked.ends(alloc)?.iter() {
        let mark = mark_behind(alloc, image, &asked, *end, least);
        least = mark.writes;
        marks.push(mark)?;
    }
    Ok(Story {
        image: first,
        asked,
        marks,
    })
}
