//! The two files of an office in memory, whose disks stop after so many calls.
use crate::failures::failure;
use office_life::Fuses;
use sqlite::Files;
use sqlite_disk::{Disk, Fuse, Memory};
use std::alloc::Global;
use std::test::Fail;

/// The bytes of an office's two files.
#[derive(Drop)]
pub(crate) struct Image {
    log: Vec<u8>,
    db: Vec<u8>,
}

/// The two files on disks that stop.
pub(crate) type Disks = Files<Fuse<Memory>>;

/// The two files on disks that stop in each of several stints.
pub(crate) type LastingDisks = Files<Fuses<Memory>>;

/// After how many calls each disk stops.
#[derive(Clone, Copy)]
pub(crate) struct Stop {
    pub(crate) log: u64,
    pub(crate) db: u64,
}

/// So many calls are never made.
const NEVER: u64 = 1_000_000_000;

impl Stop {
    /// No stop.
    pub(crate) fn never() -> Stop {
        Stop {
            log: NEVER,
            db: NEVER,
        }
    }

    /// A stop of the log alone, of the database file alone, or of both.
    pub(crate) fn of(disk: &str, calls: u64) -> Result<Stop, Fail> {
        match disk {
            "both" => Ok(Stop {
                log: calls,
                db: calls,
            }),
            "log" => Ok(Stop {
                log: calls,
                db: NEVER,
            }),
            "db" => Ok(Stop {
                log: NEVER,
                db: calls,
            }),
            _ => Err(failure("no such disk", disk)),
        }
    }
}

/// Makes a file of these bytes in memory.
fn memory(alloc: Global, bytes: &[u8]) -> Result<Memory, Fail> {
    let mut memory = Memory::new(alloc);
    memory.write_at(0, bytes)?;
    memory.sync()?;
    Ok(memory)
}

/// A disk of these bytes that stops after so many calls.
fn disk(alloc: Global, bytes: &[u8], calls: u64) -> Result<Fuse<Memory>, Fail> {
    Ok(Fuse::new(memory(alloc, bytes)?, calls))
}

/// Makes the fuses of all stints but the first.
fn later_fuses(alloc: Global, calls: u64, stints: usize) -> Result<Vec<u64>, Fail> {
    let mut later = Vec::new(alloc);
    for _ in 1..stints {
        later.push(calls)?;
    }
    Ok(later)
}

/// Makes a disk of these bytes that stops in each of so many stints after so many calls.
fn lasting_disk(
    alloc: Global,
    bytes: &[u8],
    calls: u64,
    stints: usize,
) -> Result<Fuses<Memory>, Fail> {
    let later = later_fuses(alloc, calls, stints)?;
    Ok(Fuses::new(memory(alloc, bytes)?, calls, later))
}

impl Image {
    /// The files of no office.
    pub(crate) fn new(alloc: Global) -> Image {
        Image {
            log: Vec::new(alloc),
            db: Vec::new(alloc),
        }
    }

    /// Tells whether there are no files yet.
    pub(crate) fn is_none(&self) -> bool {
        self.log.is_empty() && self.db.is_empty()
    }

    /// Tells whether both files have the same bytes.
    pub(crate) fn is_same(&self, other: &Image) -> bool {
        self.log.as_slice() == other.log.as_slice() && self.db.as_slice() == other.db.as_slice()
    }

    /// The same bytes again.
    pub(crate) fn copy(&self, alloc: Global) -> Result<Image, Fail> {
        let log = Vec::from_slice(alloc, self.log.as_slice())?;
        let db = Vec::from_slice(alloc, self.db.as_slice())?;
        Ok(Image { log, db })
    }

    /// The bytes of these files.
    pub(crate) fn of(alloc: Global, files: &Disks) -> Result<Image, Fail> {
        let log = Vec::from_slice(alloc, files.log.inner().bytes())?;
        let db = Vec::from_slice(alloc, files.db.inner().bytes())?;
        Ok(Image { log, db })
    }

    /// The bytes of the database file.
    pub(crate) fn db(&self) -> &[u8] {
        self.db.as_slice()
    }

    /// Puts bytes at a place of the database file.
    pub(crate) fn put(&mut self, alloc: Global, at: usize, bytes: &[u8]) -> Result<(), Fail> {
        let mut memory = Memory::new(alloc);
        memory.write_at(0, self.db.as_slice())?;
        memory.write_at(at, bytes)?;
        self.db = Vec::from_slice(alloc, memory.bytes())?;
        Ok(())
    }

    /// Files of these bytes on disks that stop.
    pub(crate) fn files(&self, alloc: Global, stop: Stop) -> Result<Disks, Fail> {
        let log = disk(alloc, self.log.as_slice(), stop.log)?;
        let db = disk(alloc, self.db.as_slice(), stop.db)?;
        Ok(Files { log, db })
    }

    /// Reads the bytes of files after stints.
    pub(crate) fn left(alloc: Global, files: &LastingDisks) -> Result<Image, Fail> {
        let log = Vec::from_slice(alloc, files.log.inner().bytes())?;
        let db = Vec::from_slice(alloc, files.db.inner().bytes())?;
        Ok(Image { log, db })
    }

    /// Makes files of these bytes on disks that stop in each of so many stints.
    pub(crate) fn lasting(
        &self,
        alloc: Global,
        stop: Stop,
        stints: usize,
    ) -> Result<LastingDisks, Fail> {
        let log = lasting_disk(alloc, self.log.as_slice(), stop.log, stints)?;
        let db = lasting_disk(alloc, self.db.as_slice(), stop.db, stints)?;
        Ok(Files { log, db })
    }
}
