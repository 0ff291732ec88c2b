use space_plan::FurtherRows;

/// What the words of the program ask for. IMAGE, SCRIPT and INPUT are any words.
#[derive(Drop)]
pub enum Form {
    /// `run IMAGE SCRIPT`: to carry out a script on an image.
    Run,
    /// `gen IMAGE SEED COUNT`: to carry out this many generated commands. SEED has 1 to 10 digits and a
    /// value from 0 to 4,294,967,295, COUNT 1 to 6 digits and a value from 1 to 100,000.
    Gen { seed: u32, count: u32 },
    /// `plan IMAGE ROWS`: writes how many sectors are enough for this many more rows in each relation.
    /// ROWS has 1 to 5 digits and a value from 0 to 32,767. Or `plan IMAGE NAME=ROWS ..`, with 1 to 8
    /// such words: this many in each relation that is named, once, and none in the others.
    Plan { rows: FurtherRows },
    /// `serve IMAGE INPUT`: to answer the frames of up to four clients on one line.
    Serve,
    /// `dump IMAGE`: to write the database as a script.
    Dump,
    /// `look IMAGE`: writes what is on the image.
    Look,
}
