//! Files of the system as books.

ghost use Rattle.std.specs.Prelude.{◌≡◌, ◌≤◌, ◌-◌, ◌^◌, ℕ, None, is_some};

use crate::fault_count::FaultCount;
use crate::shelf::Shelf;
use crate::source::Failed;
use crate::system::read_from;
use std::fs::File;
use std::io::ErrorKind;
use std::rt::Files;

/// A shelf of files. A book's name is a path, from the current folder on. It tells no books.
#[derive(Drop)]
pub struct Folder<'files, R: Files> {
    files: &'files R,
    file: Option<R::File>,
    faults: FaultCount,
}

impl<'files, R: Files> Folder<'files, R> {
    /// No file is open.
    pub fn new(files: &'files R) -> Folder<'files, R>
        ensures { result.faults.count ≡ 0 }
    {
        Folder {
            files,
            file: None,
            faults: FaultCount::new(),
        }
    }
}

impl<R: Files> Shelf for Folder<'_, R> {
    ghost books = { λ _. None };

    ghost is_open = { λ folder. is_some folder.file };

    ghost left = { λ _. None };

    ghost faults = { λ folder. folder.faults.count };

    ghost most_faults = { λ folder. folder.faults.within };

    fn open(&mut self, name: &str) -> Result<(), Failed> {
        'tries: for _ in 0..u64::MAX {
            match File::open(self.files, name) {
                Ok(file) => {
                    self.file = Some(file);
                    return Ok(());
                }
                Err(error) if error.kind() == ErrorKind::Interrupted => {}
                Err(_) => return Err(self.faults.add()),
            }
        }
        Err(self.faults.add())
    }

    fn take(&mut self, into: &mut [u8]) -> Result<usize, Failed> {
        match &mut self.file {
            Some(file) => read_from(file, into, &mut self.faults),
            None => Err(self.faults.add()),
        }
    }
}
