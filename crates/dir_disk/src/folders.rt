// The four files of a folder, as the system has them.
use aria_base::Memory;
use std::alloc::Global;
use std::fs::{Files, OpenFile, OpenOptions, create_dir};
use std::io;
use std::io::{ErrorKind, Read, Seek, SeekFrom, Write};

/// The names of the files by their numbers.
const NAMES: [&str; 4] = ["ckpt0", "ckpt1", "log0", "log1"];

/// What an error of the system was at.
#[derive(Clone, Copy)]
pub enum Place {
    /// The folder that the folder of the files lies in.
    Parent,
    /// The folder of the files.
    Folder,
    /// The file of this number.
    File(usize),
}

/// An error of the system, and what it was at.
#[derive(Clone, Copy)]
pub struct Fault {
    pub place: Place,
    pub error: io::Error,
}

/// A folder and its four files, which are opened by the first call that needs one.
#[derive(Drop)]
pub struct Folder<R: Files> {
    system: R,
    folder: String,
    paths: Vec<String>,
    files: Vec<R::File>,
}

impl<R: Files + Drop> Folder<R> {
    /// The folder of this name. Nothing is opened yet.
    pub fn new(alloc: Global, system: R, folder: &str) -> Result<Self, Memory> {
        let mut paths = Vec::new(alloc);
        for name in NAMES {
            paths.push(path_of(alloc, folder, name)?)?;
        }
        Ok(Folder {
            system,
            folder: String::from_str(alloc, folder)?,
            paths,
            files: Vec::with_capacity(alloc, NAMES.len())?,
        })
    }

    /// The path of a place. Of a number that no file has it is the folder's.
    pub fn path(&self, place: Place) -> &str {
        match place {
            Place::Parent => parent_of(&self.folder),
            Place::Folder => &self.folder,
            Place::File(number) => match self.paths.get(number) {
                Some(path) => path,
                None => &self.folder,
            },
        }
    }

    /// The length of a file.
    pub fn len(&mut self, number: u8) -> Result<u64, Fault> {
        let file = self.file(number)?;
        placed(file.seek(SeekFrom::End(0)), file_of(number))
    }

    /// Fills the buffer from an offset of a file on. It is an error where the file ends before.
    pub fn read_at(&mut self, number: u8, at: u64, buf: &mut [u8]) -> Result<(), Fault> {
        let file = self.file(number)?;
        placed(file.seek(SeekFrom::Start(at)), file_of(number))?;
        placed(file.read_exact(buf), file_of(number))
    }

    /// Writes all the bytes from an offset of a file on.
    pub fn write_at(&mut self, number: u8, at: u64, bytes: &[u8]) -> Result<(), Fault> {
        let file = self.file(number)?;
        placed(file.seek(SeekFrom::Start(at)), file_of(number))?;
        placed(file.write_all(bytes), file_of(number))
    }

    /// Has what was written to a file, and its length, reach the disk.
    pub fn sync(&mut self, number: u8) -> Result<(), Fault> {
        let file = self.file(number)?;
        placed(file.sync_all(), file_of(number))
    }

    /// The file of this number. The first call opens all of them, so that an error may be at another one, or
    /// at a folder.
    fn file(&mut self, number: u8) -> Result<&mut R::File, Fault> {
        if self.files.is_empty() {
            self.open()?;
        }
        match self.files.get_mut(usize::from(number)) {
            Some(file) => Ok(file),
            None => placed(Err(io::Error::from(ErrorKind::NotFound)), Place::Folder),
        }
    }

    /// Opens the files. Where that fails none of them is open, and the next call tries again.
    fn open(&mut self) -> Result<(), Fault> {
        let opened = open_all(&self.system, &self.folder, &self.paths, &mut self.files);
        if opened.is_err() {
            self.files.clear();
        }
        opened
    }
}

/// Makes the folder and the files, where they are not there, and opens the files. Their entries reach the
/// disk before a byte of theirs does, so that no stop loses a file that was synced.
fn open_all<R: Files>(
    system: &R,
    folder: &str,
    paths: &[String],
    files: &mut Vec<R::File>,
) -> Result<(), Fault> {
    make_folder(system, folder)?;
    for (number, path) in paths.iter().enumerate() {
        placed(add_file(system, path, files), Place::File(number))?;
    }
    placed(sync_folder(system, folder), Place::Folder)
}

/// Opens a file, and adds it to those that are open.
fn add_file<R: Files>(system: &R, path: &str, files: &mut Vec<R::File>) -> io::Result<()> {
    files.push(open_file(system, path)?)?;
    Ok(())
}

/// Opens a file for reading and writing, and makes it where it is not there.
fn open_file<R: Files>(system: &R, path: &str) -> io::Result<R::File> {
    OpenOptions::new()
        .read(true)
        .write(true)
        .create(true)
        .open(system, path)
}

/// The path of a file in a folder.
fn path_of(alloc: Global, folder: &str, name: &str) -> Result<String, Memory> {
    let mut path = String::from_str(alloc, folder)?;
    path.push_str("/")?;
    path.push_str(name)?;
    Ok(path)
}

/// Makes the folder, where it is not there, and has its entry reach the disk: also of a folder that is
/// there, since whoever made it may have stopped before its entry did.
fn make_folder<R: Files>(system: &R, folder: &str) -> Result<(), Fault> {
    match create_dir(system, folder) {
        Err(error) if error.kind() != ErrorKind::AlreadyExists => {
            placed(Err(error), Place::Folder)
        }
        _ => placed(sync_folder(system, parent_of(folder)), Place::Parent),
    }
}

/// The folder that a folder lies in.
fn parent_of(folder: &str) -> &str {
    match folder.rsplit_once('/') {
        Some(("", _)) => "/",
        Some((parent, _)) => parent,
        None => ".",
    }
}

/// Has the entries of a folder reach the disk.
fn sync_folder<R: Files>(system: &R, folder: &str) -> io::Result<()> {
    OpenOptions::new()
        .read(true)
        .open(system, folder)?
        .sync_all()
}

/// The place of the file of this number.
fn file_of(number: u8) -> Place {
    Place::File(usize::from(number))
}

/// The answer of the system to a call at this place.
fn placed<T>(answer: io::Result<T>, place: Place) -> Result<T, Fault> {
    answer.map_err(|error| Fault { place, error })
}
