// What stands at a descriptor that the program was started with, by the name that the system gives it.
use std::fs::{File, OpenOptions};
use std::os::unix::fs::{FileTypeExt, MetadataExt};
use std::rt::Files;
use std::{fs, io};

// The name of what stands at a descriptor from 3 to 9.
fn path_of(fd: u8) -> &'static str {
    match fd {
        3 => "/dev/fd/3",
        4 => "/dev/fd/4",
        5 => "/dev/fd/5",
        6 => "/dev/fd/6",
        7 => "/dev/fd/7",
        8 => "/dev/fd/8",
        _ => "/dev/fd/9",
    }
}

// Whether the descriptor itself is open for writing: its owner's bits, as the system shows them, say how it was opened.
fn is_open_for_writing<R: Files>(files: &R, path: &str) -> bool {
    fs::symlink_metadata(files, path).is_ok_and(|metadata| metadata.mode() & 0o200 != 0)
}

fn is_pipe<R: Files>(files: &R, path: &str) -> bool {
    fs::metadata(files, path).is_ok_and(|metadata| metadata.file_type().is_fifo())
}

// Opens what stands there, to be written behind its end. A named pipe that nobody reads would keep the program waiting: so
// the program itself stands as a reader until the pipe is open, and what it then writes fails where there is no other.
fn open<R: Files>(files: &R, path: &str) -> io::Result<R::File> {
    if is_pipe(files, path) {
        let _reader = File::open(files, path)?;
        return OpenOptions::new().append(true).open(files, path);
    }
    OpenOptions::new().append(true).open(files, path)
}

// Writes the first bytes of a page behind what stands there, and nothing where that cannot be.
pub(crate) fn write_first<R: Files>(files: &R, fd: u8, page: &[u8], end: usize) {
    let path = path_of(fd);
    if !is_open_for_writing(files, path) {
        return;
    }
    if let Ok(mut file) = open(files, path) {
        // who asked for the word finds that it is not there
        let _ = streams::write_first(&mut file, page, end);
    }
}
