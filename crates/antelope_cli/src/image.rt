use crate::files::{ImageFile, apart, is_synced};
use afl_sim::FileFlash;
use program_run::Failure;
use std::env::Env;
use std::fs;
use std::fs::{File, Files, OpenOptions};
use std::io::ErrorKind;
use std::os::unix::fs::{FileExt, MetadataExt};

const SECTOR: u64 = 4096;

const ERASED: [u8; 4096] = [0; 4096];

const NEW_SECTORS: u64 = 256;

// How many names are tried for a file that gets its own later.
const NAMES: u32 = 1000;

/// A flash in a file that is locked as long as the flash is kept, so that no other run has it.
#[derive(Drop)]
pub struct Image {
    pub flash: FileFlash<ImageFile>,
    /// Whether this run made the file.
    pub is_new: bool,
}

/// The image in the file `path`, which is made with 256 erased sectors where there is none. Where writes wait for the
/// disk, the file as it is found or made, and its name, are there before the first.
///
/// # Errors
///
/// `Open` comes where the file cannot be opened or made, and where another run has it; `Length` where
/// it is not 4 to 4,095 sectors long. A file that was made is removed again.
pub fn open_image<R>(rt: &R, path: &str) -> Result<Image, Failure>
where
    R: Env + Files<File = File> + AllocGlobal,
{
    let image = match OpenOptions::new().read(true).write(true).open(rt, path) {
        Ok(file) => Image {
            flash: take_found(rt, path, file)?,
            is_new: false,
        },
        Err(error) if error.kind() == ErrorKind::NotFound => Image {
            flash: make(rt, path)?,
            is_new: true,
        },
        Err(_) => return Err(Failure::Open),
    };
    if is_synced(rt) && keep_name(rt, path).is_err() {
        remove_new(rt, path, image);
        return Err(Failure::Open);
    }
    Ok(image)
}

// Waits until the name of a file is on the disk.
fn keep_name<R>(rt: &R, path: &str) -> Result<(), Failure>
where
    R: Files<File = File> + AllocGlobal,
{
    let folder = folder_of(path);
    let Ok(folder) = format!(in rt.alloc(); "{folder}/.") else {
        return Err(Failure::Open);
    };
    let Ok(folder) = File::open(rt, folder.as_str()) else {
        return Err(Failure::Open);
    };
    folder.sync_all().map_err(|_| Failure::Open)
}

// The folder that a file is in.
fn folder_of(path: &str) -> &str {
    match path.rsplit_once('/') {
        Some((folder, _)) => folder,
        None => ".",
    }
}

/// Lets go of an image for which the rest could not be opened. A file that this run made is removed.
pub fn remove_new<R: Files<File = File>>(rt: &R, path: &str, image: Image) {
    if image.is_new {
        let _ = fs::remove_file(rt, path);
    }
}

fn take_found<R>(rt: &R, path: &str, file: File) -> Result<FileFlash<ImageFile>, Failure>
where
    R: Env + Files<File = File>,
{
    let file = lock(file)?;
    let Ok(known) = file.metadata() else {
        return Err(Failure::Open);
    };
    // the run that had it may have made it and removed it again, and another may have made one since
    match fs::metadata(rt, path) {
        Ok(named) if named.dev() == known.dev() && named.ino() == known.ino() => {}
        _ => return Err(Failure::Open),
    }
    FileFlash::new(ImageFile::new(rt, file)?, known.len()).ok_or(Failure::Length)
}

// A file takes its name when it is whole and locked, so that no other run finds it before that. Where
// the file system has no second names, it is made under its own.
fn make<R>(rt: &R, path: &str) -> Result<FileFlash<ImageFile>, Failure>
where
    R: Env + Files<File = File> + AllocGlobal,
{
    let Some((draft, file)) = begin_draft(rt, path) else {
        return make_in_place(rt, path);
    };
    let made = match erased(rt, file) {
        Ok(flash) => give_name(rt, draft.as_str(), path, flash),
        Err(failure) => Err(failure),
    };
    let _ = fs::remove_file(rt, draft.as_str());
    made
}

fn give_name<R>(
    rt: &R,
    draft: &str,
    path: &str,
    flash: FileFlash<ImageFile>,
) -> Result<FileFlash<ImageFile>, Failure>
where
    R: Env + Files<File = File>,
{
    match fs::hard_link(rt, draft, path) {
        Ok(()) => Ok(flash),
        Err(error) if error.kind() == ErrorKind::AlreadyExists => Err(Failure::Open),
        Err(_) => make_in_place(rt, path),
    }
}

// A new file beside `path` and its name, which is that of no other.
fn begin_draft<R>(rt: &R, path: &str) -> Option<(String, File)>
where
    R: Files<File = File> + AllocGlobal,
{
    let folder = folder_of(path);
    for number in 0..NAMES {
        let name = format!(in rt.alloc(); "{folder}/.antelope-{number}").ok()?;
        match File::create_new(rt, name.as_str()) {
            Ok(file) => return Some((name, file)),
            Err(error) if error.kind() == ErrorKind::AlreadyExists => {}
            Err(_) => return None,
        }
    }
    None
}

fn make_in_place<R>(rt: &R, path: &str) -> Result<FileFlash<ImageFile>, Failure>
where
    R: Env + Files<File = File>,
{
    let Ok(file) = File::create_new(rt, path) else {
        return Err(Failure::Open);
    };
    let made = erased(rt, file);
    if made.is_err() {
        let _ = fs::remove_file(rt, path);
    }
    made
}

// A new flash of zeros in an empty file. They are written, so that a disk without room for them is
// met now and not in the middle of a command.
fn erased<R: Env>(rt: &R, file: File) -> Result<FileFlash<ImageFile>, Failure> {
    let file = lock(file)?;
    for sector in 0..NEW_SECTORS {
        if file.write_all_at(&ERASED, SECTOR * sector).is_err() {
            return Err(Failure::Open);
        }
    }
    FileFlash::new(ImageFile::new(rt, file)?, SECTOR * NEW_SECTORS).ok_or(Failure::Length)
}

fn lock(file: File) -> Result<File, Failure> {
    let file = apart(file)?;
    match file.try_lock() {
        Ok(()) => Ok(file),
        Err(_) => Err(Failure::Open),
    }
}
