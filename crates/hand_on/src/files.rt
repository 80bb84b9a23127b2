// The 53 files of the folder by their numbers (`folder::put_name`), each open.
use std::array;
use std::fs::{File, OpenOptions};
use std::ops::Range;
use std::os::unix::fs::FileExt;
use streams::Errno;
use text::Pen;

// A file that failed.
#[derive(Clone, Copy, PartialEq, Eq, Debug)]
pub struct FileFault {
    pub file: u8,
    pub error: Errno,
}

// Does something with each of some files, in order, until one fails.
pub fn each<F: FnMut(u8) -> Result<(), Errno>>(
    files: Range<u8>,
    mut act: F,
) -> Result<(), FileFault>
    requires { F.IsAlwaysCallable act }
{
    for file in files {
        act(file).map_err(|error| FileFault { file, error })?;
    }
    Ok(())
}

// They are closed when they are let go.
#[derive(Drop)]
pub struct Opened {
    files: [File; 53],
}

fn create(rt: &HostRuntime, path: &str) -> Result<File, Errno> {
    let made = OpenOptions::new()
        .write(true)
        .create_new(true)
        .open(rt, path)?;
    Ok(made)
}

// Makes a file, where there is none by that name.
fn make(rt: &HostRuntime, file: u8) -> Result<File, Errno> {
    let mut name = [0u8; 32];
    let mut pen = Pen::new(&mut name, 0);
    folder::put_name(&mut pen, file);
    let end = pen.to;
    let letters = name.get(..end).ok_or(Errno::EIO)?;
    let path = str::from_utf8(letters).map_err(|_| Errno::EIO)?;
    create(rt, path)
}

// How many bytes a sample has in a file: two in one of sound, one in one of marks, and none where it has no samples.
pub fn sample_bytes(file: u8) -> Option<u16> {
    match file {
        0..=15 => Some(2),
        16..=31 => Some(1),
        _ => None,
    }
}

// The header of a file, for so many superframes; a file without samples has none.
fn put_header(pen: &mut Pen<'_>, file: u8, superframes: u32) {
    if let Some(bytes) = sample_bytes(file) {
        // a header has 44 bytes, and there is room for as many
        let _ = wav::put_header(pen, bytes, 64 * u64::from(superframes));
    }
}

fn start(made: &File, file: u8, superframes: u32) -> Result<(), Errno> {
    let mut to = made;
    let mut header = [0u8; 44];
    let mut pen = Pen::new(&mut header, 0);
    put_header(&mut pen, file, superframes);
    let end = pen.to;
    streams::write_first(&mut to, &header, end)
}

// A file with its header.
fn make_one(rt: &HostRuntime, file: u8, promised: u32) -> Result<File, Errno> {
    let made = make(rt, file)?;
    start(&made, file, promised)?;
    Ok(made)
}

// Writes over the first bytes of a file.
fn put_first(open: &File, header: &[u8]) -> Result<(), Errno> {
    if open.write_at(header, 0)? == header.len() {
        return Ok(());
    }
    Err(Errno::EIO)
}

fn settle(open: &File) -> Result<(), Errno> {
    open.sync_all()?;
    Ok(())
}

impl Opened {
    // Makes all files, those of sound and marks with a header for as many superframes as are promised.
    pub fn make_all(rt: HostRuntime, promised: u32) -> Result<Self, FileFault> {
        let files = array::try_from_fn(|number| {
            let file = number as u8;
            make_one(&rt, file, promised).map_err(|error| FileFault { file, error })
        })?;
        Ok(Opened { files })
    }

    fn at(&self, file: u8) -> Result<&File, Errno> {
        self.files.get(usize::from(file)).ok_or(Errno::EBADF)
    }

    // Writes at the end of a file the bytes of a page before a place, which is told apart as the pen is let go before its page is lent.
    pub fn put(&self, file: u8, page: &[u8], end: usize) -> Result<(), Errno> {
        let mut to = self.at(file)?;
        streams::write_first(&mut to, page, end)
    }

    pub fn write(&self, file: u8, page: &[u8], end: usize) -> Result<(), FileFault> {
        self.put(file, page, end)
            .map_err(|error| FileFault { file, error })
    }

    fn put_right_one(&self, file: u8, superframes: u32) -> Result<(), Errno> {
        let mut header = [0u8; 44];
        let mut pen = Pen::new(&mut header, 0);
        put_header(&mut pen, file, superframes);
        if pen.to == 0 {
            return Ok(());
        }
        put_first(self.at(file)?, &header)
    }

    // Puts the headers right, where there were other superframes than promised.
    pub fn put_right(&self, superframes: u32) -> Result<(), FileFault> {
        each(0..32, |file| self.put_right_one(file, superframes))
    }

    // Waits until every byte is on the disk.
    pub fn settle(&self) -> Result<(), FileFault> {
        each(0..53, |file| settle(self.at(file)?))
    }
}
