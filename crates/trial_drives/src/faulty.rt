//! A file system of which one call fails, of those that a drive over a folder makes.

use std::alloc::{AllocError, Allocator, Global};
use std::fs::{File, Metadata, OpenFile, OpenOptions};
use std::io::{self, ErrorKind, Read, Seek, SeekFrom, Write};
use std::rt::Files;
use std::sync::Arc;
use std::sync::atomic::{AtomicU64, Ordering};

/// How many calls pass before the one that fails, and as good as all where none is to fail.
#[derive(Drop)]
pub struct Fuse {
    left: Arc<AtomicU64>,
}

impl Fuse {
    pub fn new(alloc: Global) -> Result<Fuse, AllocError> {
        let left = Arc::new(alloc, AtomicU64::new(u64::MAX))?;
        Ok(Fuse { left })
    }

    pub fn again(&self) -> Result<Fuse, AllocError> {
        let left = Arc::try_clone(&self.left)?;
        Ok(Fuse { left })
    }

    /// Lets so many calls pass.
    pub fn set(&self, calls: u64) {
        self.left.store(calls, Ordering::SeqCst);
    }

    /// Counts a call, and fails it where it is due.
    fn meet(&self) -> io::Result<()> {
        if self.left.fetch_sub(1, Ordering::SeqCst) == 0 {
            return Err(ErrorKind::Other.into());
        }
        Ok(())
    }
}

/// The system's files, behind a fuse. What no drive calls doesn't meet it.
#[derive(Drop)]
pub struct Faulty {
    pub rt: HostRuntime,
    pub fuse: Fuse,
}

impl Clone for Faulty {
    fn clone(&self) -> Result<Faulty, AllocError> {
        Ok(Faulty {
            rt: self.rt,
            fuse: self.fuse.again()?,
        })
    }
}

impl Alloc for Faulty {
    type A = Global;

    fn alloc(&self) -> Global {
        self.rt.alloc()
    }
}

/// An open file, whose calls meet the fuse too.
#[derive(Drop)]
pub struct FaultyFile {
    file: File,
    fuse: Fuse,
}

impl Read for FaultyFile {
    fn read(&mut self, buf: &mut [u8]) -> io::Result<usize> {
        self.fuse.meet()?;
        self.file.read(buf)
    }
}

impl Write for FaultyFile {
    fn write(&mut self, buf: &[u8]) -> io::Result<usize> {
        self.fuse.meet()?;
        self.file.write(buf)
    }

    fn flush(&mut self) -> io::Result<()> {
        self.file.flush()
    }
}

impl Seek for FaultyFile {
    fn seek(&mut self, to: SeekFrom) -> io::Result<u64> {
        self.fuse.meet()?;
        self.file.seek(to)
    }
}

impl OpenFile for FaultyFile {
    fn metadata(&self) -> io::Result<Metadata> {
        self.file.metadata()
    }

    fn set_len(&self, size: u64) -> io::Result<()> {
        self.file.set_len(size)
    }

    fn sync_all(&self) -> io::Result<()> {
        self.fuse.meet()?;
        self.file.sync_all()
    }

    fn sync_data(&self) -> io::Result<()> {
        self.file.sync_data()
    }
}

impl Files for Faulty {
    type File = FaultyFile;

    type Dir = <HostRuntime as Files>::Dir;

    fn open_file(&self, how: &OpenOptions, path: &str) -> io::Result<FaultyFile> {
        self.fuse.meet()?;
        Ok(FaultyFile {
            file: self.rt.open_file(how, path)?,
            fuse: self.fuse.again()?,
        })
    }

    fn open_dir(&self, path: &str) -> io::Result<Self::Dir> {
        self.fuse.meet()?;
        self.rt.open_dir(path)
    }

    fn metadata(&self, path: &str) -> io::Result<Metadata> {
        self.fuse.meet()?;
        self.rt.metadata(path)
    }

    fn symlink_metadata(&self, path: &str) -> io::Result<Metadata> {
        self.fuse.meet()?;
        self.rt.symlink_metadata(path)
    }

    fn copy(&self, from: &str, to: &str) -> io::Result<u64> {
        self.rt.copy(from, to)
    }

    fn rename(&self, from: &str, to: &str) -> io::Result<()> {
        self.fuse.meet()?;
        self.rt.rename(from, to)
    }

    fn remove_file(&self, path: &str) -> io::Result<()> {
        self.fuse.meet()?;
        self.rt.remove_file(path)
    }

    fn create_dir(&self, path: &str) -> io::Result<()> {
        self.fuse.meet()?;
        self.rt.create_dir(path)
    }

    fn remove_dir(&self, path: &str) -> io::Result<()> {
        self.fuse.meet()?;
        self.rt.remove_dir(path)
    }

    fn remove_dir_all<B: Allocator>(&self, alloc: B, path: &str) -> io::Result<()> {
        self.fuse.meet()?;
        self.rt.remove_dir_all(alloc, path)
    }
}
