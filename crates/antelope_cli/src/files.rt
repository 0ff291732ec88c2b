use program_run::Failure;
use std::env::{Env, FillError};
use std::fs::{File, Files};
use std::io;
use std::os::unix::fs::FileExt;

// Where it is set and not empty, writes wait for the disk.
const SYNC: &str = "ANTELOPE_SYNC";

/// The file of an image. Where the environment asks for it, a write is on the disk before its call returns.
#[derive(Drop)]
pub struct ImageFile {
    file: File,
    is_synced: bool,
}

impl ImageFile {
    /// The open file of an image. What was written into it before is on the disk first, where that is asked for.
    pub fn new<R: Env>(rt: &R, file: File) -> Result<ImageFile, Failure> {
        let is_synced = is_synced(rt);
        if is_synced && file.sync_all().is_err() {
            return Err(Failure::Open);
        }
        Ok(ImageFile { file, is_synced })
    }
}

impl FileExt for ImageFile {
    ghost use Rattle.std.specs.Io.{ReadsAtMost, WritesAtMost};

    fn read_at(&self, buf: &mut [u8], offset: u64) -> io::Result<usize>
        ensures bound { ReadsAtMost result buf.new }
    {
        self.file.read_at(buf, offset)
    }

    fn write_at(&self, buf: &[u8], offset: u64) -> io::Result<usize>
        ensures bound { WritesAtMost result buf.now }
    {
        let written = self.file.write_at(buf, offset)?;
        if self.is_synced {
            self.file.sync_data()?;
        }
        Ok(written)
    }
}

/// Whether the environment asks that each write be on the disk before the next.
pub fn is_synced<R: Env>(rt: &R) -> bool {
    match rt.var(SYNC, &mut [0; 1]) {
        Ok(length) => length > 0,
        Err(FillError::TooLong) => true,
        Err(FillError::NotPresent) => false,
    }
}

/// The same file under a number of its own. Where the caller has closed a standard stream, a file
/// that is opened takes its number, and replies would be written into the image.
pub fn apart(file: File) -> Result<File, Failure> {
    let Ok(other) = file.try_clone() else {
        return Err(Failure::Open);
    };
    Ok(other)
}

/// The script in the file `path`.
pub fn open_script<R: Files<File = File>>(rt: &R, path: &str) -> Result<File, Failure> {
    let Ok(file) = File::open(rt, path) else {
        return Err(Failure::Open);
    };
    apart(file)
}
