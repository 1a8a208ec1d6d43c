use chip_port::{Bench, Chip, Failed, NoMemory, Tear};
use std::fs::{self, OpenFile, OpenOptions};
use std::io::{self, ErrorKind, Read, Seek, SeekFrom, Write};
use std::path::Path;
use std::rt::Files;

/// A chip whose octets are those of a file, which counts as filled up with zeros.
///
/// It takes no memory once it is made. Where the file can't be had each call fails and is counted.
#[derive(Drop)]
pub struct FileChip<F> {
    file: Option<F>,
    faults: u64,
    calls: u64,
    octets: u64,
}

// Syncs the folder of a path, so that a file that was made there is found after a power cut.
fn sync_folder<R: Files>(rt: &R, path: &str) -> io::Result<()> {
    match Path::new(path).parent() {
        Some(folder) if !folder.as_str().is_empty() => fs::open(rt, folder)?.sync_all(),
        _ => fs::open(rt, ".")?.sync_all(),
    }
}

// Makes a file.
fn make<R: Files>(rt: &R, path: &str) -> io::Result<R::File> {
    let file = OpenOptions::new()
        .read(true)
        .write(true)
        .create(true)
        .open(rt, path)?;
    sync_folder(rt, path)?;
    Ok(file)
}

// Opens a file, or makes it where it isn't there.
fn open_or_make<R: Files>(rt: &R, path: &str) -> io::Result<R::File> {
    match OpenOptions::new().read(true).write(true).open(rt, path) {
        Err(error) if error.kind() == ErrorKind::NotFound => make(rt, path),
        opened => opened,
    }
}

// Fills a buffer with the octets of a file from a place on, and with zeros behind its end.
fn read_at<F: Read + Seek>(file: &mut F, at: u64, out: &mut [u8]) -> io::Result<()> {
    file.seek(SeekFrom::Start(at))?;
    let mut done = 0;
    for _ in 0..u64::MAX {
        match file.read(&mut out[done..]) {
            Ok(0) => break,
            Ok(count) => done += count,
            Err(error) if error.kind() == ErrorKind::Interrupted => {}
            Err(error) => return Err(error),
        }
    }
    out[done..].fill(0);
    Ok(())
}

// Writes octets into a file from a place on.
fn write_at<F: Write + Seek>(file: &mut F, at: u64, bytes: &[u8]) -> io::Result<()> {
    file.seek(SeekFrom::Start(at))?;
    file.write_all(bytes)
}

impl<F> FileChip<F> {
    ghost use Rattle.std.specs.Prelude.{◌≡◌, true};
    ghost use Rattle.file_chip.specs.Files.{IsFresh, has_file, IsServed};

    /// The chip in the file at a path, which is made where it isn't there. Nothing is read yet.
    pub fn at<R: Files<File = F>>(rt: &R, path: &str) -> FileChip<F>
        ensures fresh { IsFresh result }
    {
        FileChip {
            file: open_or_make(rt, path).ok(),
            faults: 0,
            calls: 0,
            octets: 0,
        }
    }

    // The answer of a call that did its work or not; a failure is counted.
    fn answered(&mut self, done: bool) -> Result<(), Failed>
        requires { done ≡ true → has_file self.old ≡ true }
        ensures served { IsServed (has_file self.old) self.old.faults self.new.faults result }
        ensures rest { self.new ≡ record self.old { faults = self.new.faults } }
    {
        if done {
            return Ok(());
        }
        self.faults = self.faults.saturating_add(1);
        Err(Failed)
    }
}

impl<F: Read + Write + Seek + OpenFile> Chip for FileChip<F> {
    ghost use Rattle.std.specs.Prelude.{◌≡◌, ◌+◌, ◌≤◌, length, IsOk};
    ghost use Rattle.chip_port.specs.declared.chip.TheConstants.{CHIP_SIZE};
    ghost use Rattle.chip_port.specs.Rules.{HasCause, Takes, Prepared, Sound};
    ghost use Rattle.file_chip.specs.Files.{sees_of, untold, nothing_told, Serves};

    ghost sees = { λ c. untold c.faults c.calls c.octets };

    ghost sound = { λ c. nothing_told c.faults c.calls c.octets
        (Sound CHIP_SIZE (untold c.faults c.calls c.octets)) };

    /// It always succeeds: a file needs no memory.
    fn prepare(&mut self, calls: u64, bytes: u64) -> Result<(), NoMemory>
        ensures room { Prepared calls bytes (sees_of self.old) (sees_of self.new) result }
        ensures works { IsOk result }
    {
        self.calls = self.calls.max(calls);
        self.octets = self.octets.max(bytes);
        Ok(())
    }

    fn read(&mut self, at: u64, out: &mut [u8]) -> Result<(), Failed>
        requires { at + length out.old ≤ CHIP_SIZE }
        ensures cause { HasCause (sees_of self.old) (sees_of self.new) result }
        ensures spare { Takes 0 0 (sees_of self.old) (sees_of self.new) }
        ensures serves { Serves self.old self.new result }
    {
        let done = match &mut self.file {
            Some(file) => read_at(file, at, out).is_ok(),
            None => false,
        };
        self.answered(done)
    }

    fn write_at(&mut self, at: u64, bytes: &[u8]) -> Result<(), Failed>
        requires range { at + length bytes.now ≤ CHIP_SIZE }
        requires calls { 1 ≤ (sees_of self.old).spare.calls }
        requires octets { length bytes.now ≤ (sees_of self.old).spare.octets }
        ensures cause { HasCause (sees_of self.old) (sees_of self.new) result }
        ensures spare { Takes 1 (length bytes.now) (sees_of self.old) (sees_of self.new) }
        ensures serves { Serves self.old self.new result }
    {
        self.calls -= 1;
        self.octets -= bytes.len() as u64;
        let done = match &mut self.file {
            Some(file) => write_at(file, at, bytes).is_ok(),
            None => false,
        };
        self.answered(done)
    }

    /// The octets of the file reach the disk. Its times need not.
    fn sync(&mut self) -> Result<(), Failed>
        requires { 1 ≤ (sees_of self.old).spare.calls }
        ensures cause { HasCause (sees_of self.old) (sees_of self.new) result }
        ensures spare { Takes 1 0 (sees_of self.old) (sees_of self.new) }
        ensures serves { Serves self.old self.new result }
    {
        self.calls -= 1;
        let done = match &self.file {
            Some(file) => file.sync_data().is_ok(),
            None => false,
        };
        self.answered(done)
    }

    fn answer(&mut self) -> Result<(), Failed>
        requires { 1 ≤ (sees_of self.old).spare.calls }
        ensures cause { HasCause (sees_of self.old) (sees_of self.new) result }
        ensures spare { Takes 1 0 (sees_of self.old) (sees_of self.new) }
        ensures serves { Serves self.old self.new result }
    {
        self.calls -= 1;
        let done = self.file.is_some();
        self.answered(done)
    }
}

/// A file is no bench: its power isn't cut by a plan, and plans are left out.
impl<F: Read + Write + Seek + OpenFile> Bench for FileChip<F> {
    ghost use Rattle.chip_port.specs.Rules.{HasCause, Takes};
    ghost use Rattle.file_chip.specs.Files.{sees_of, Serves};

    fn plan_cut(&mut self, _calls: u32, _tear: Tear) -> Result<(), NoMemory> {
        Ok(())
    }

    fn drop_plan(&mut self) {}

    /// The file stays open.
    fn power_on(&mut self) -> Result<(), Failed>
        ensures cause { HasCause (sees_of self.old) (sees_of self.new) result }
        ensures spare { Takes 0 0 (sees_of self.old) (sees_of self.new) }
        ensures serves { Serves self.old self.new result }
    {
        let done = self.file.is_some();
        self.answered(done)
    }
}
