// Bytes come back from a real folder, by another disk too. A fault tells the path that it was at.
ghost use Rattle.std.specs.Prelude.{◌<◌};

use crate::DirDisk;
use disk_model::Disk;
use std::alloc::Global;
use std::fs;
use std::fs::Files;
use std::test::Fail;

/// A folder of this test alone.
const FOLDER: &str = "dir-disk-test";

/// What a file of a disk holds.
fn bytes<R: Files + Drop>(alloc: Global, disk: &mut DirDisk<R>, file: u8) -> Result<Vec<u8>, Fail>
    requires { file < 4 }
{
    let Ok(len) = disk.len(file) else {
        return Err(Fail::new("a length is answered"));
    };
    let mut bytes = Vec::from_elem(alloc, 0, len as usize)?;
    match disk.read_at(file, 0, &mut bytes) {
        Ok(()) => Ok(bytes),
        Err(_) => Err(Fail::new("a file is read")),
    }
}

/// Writes to a disk that nothing was written to, over a part of what was written, and past its end.
fn write_some<R: Files + Drop>(disk: &mut DirDisk<R>) -> bool {
    disk.write_at(0, 0, b"checkpoint").is_ok()
        && disk.write_at(0, 5, b"-p").is_ok()
        && disk.write_at(3, 0, b"log").is_ok()
        && disk.write_at(3, 3, b" of calls").is_ok()
        && disk.sync(0).is_ok()
        && disk.sync(3).is_ok()
}

#[test]
fn bytes_come_back(rt: HostRuntime) -> Result<(), Fail> {
    let alloc = rt.alloc();
    let mut disk = DirDisk::new(alloc, &rt, FOLDER)?;
    assert_eq!(&rt; fs::exists(&rt, FOLDER)?, false, "nothing is touched yet");
    assert!(&rt; write_some(&mut disk), "all is written");
    let past = disk.read_at(3, 10, &mut [0; 3]).is_err();
    assert_eq!(&rt;
        (past, disk.faults()),
        (true, 1),
        "a read past the end is a fault"
    );
    let mut again = DirDisk::new(alloc, &rt, FOLDER)?;
    let found = [
        bytes(alloc, &mut again, 0)?,
        bytes(alloc, &mut again, 1)?,
        bytes(alloc, &mut again, 3)?,
    ];
    fs::remove_dir_all(&rt, FOLDER)?;
    let texts = found
        .each_ref()
        .map(|file| str::from_utf8(file).unwrap_or("?"));
    assert_eq!(&rt;
        texts,
        ["check-pint", "", "log of calls"],
        "what was written is there"
    );
    Ok(())
}

/// The path that the fault of a disk's first call is at. The call is on the first file.
fn faulty_path<R: Files + Drop>(alloc: Global, disk: &mut DirDisk<R>) -> Result<String, Fail> {
    let failed = disk.len(0).is_err();
    match disk.last_fault() {
        Some((path, _)) if failed => Ok(String::from_str(alloc, path)?),
        _ => Err(Fail::new("the first call has a fault")),
    }
}

#[test]
fn a_folder_that_cannot_be_made_is_told(rt: HostRuntime) -> Result<(), Fail> {
    let alloc = rt.alloc();
    let mut disk = DirDisk::new(alloc, &rt, "dir-disk-none/store")?;
    let path = faulty_path(alloc, &mut disk)?;
    assert_eq!(&rt;
        path.as_str(),
        "dir-disk-none/store",
        "the folder's own path"
    );
    Ok(())
}

#[test]
fn a_file_that_cannot_be_opened_is_told(rt: HostRuntime) -> Result<(), Fail> {
    let alloc = rt.alloc();
    fs::create_dir_all(&rt, "dir-disk-other/log1")?;
    let mut disk = DirDisk::new(alloc, &rt, "dir-disk-other")?;
    let path = faulty_path(alloc, &mut disk)?;
    fs::remove_dir_all(&rt, "dir-disk-other")?;
    assert_eq!(&rt;
        path.as_str(),
        "dir-disk-other/log1",
        "a folder stands there"
    );
    Ok(())
}
