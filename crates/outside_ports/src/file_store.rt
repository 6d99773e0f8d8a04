ghost use Rattle.std.specs.Prelude.{◌≡◌, ◌≢◌, ◌⊎◌, ◌≤◌, ℕ, None, Some, Err, IfOk, OnOk, OnErr, IsErrOf, length};
ghost use Rattle.outside_ports.specs.Fakes.{next_number};
ghost use Rattle.outside_ports.specs.Ports.{Files, Lacks, PassesLimit, Rose, SameButIn, SavedIn};

use crate::ports::{SaveErr, Store, StoreErr};
use crate::replacing::save_file;
use std::alloc::Global;
use std::fs;
use std::io::{ErrorKind, Read};
use std::marker::Model;
use std::rt::Files;

/// The files of the system, by their paths. It is seen as its counts of faults and of failed saves.
#[derive(Drop)]
pub struct FileStore<'a, R: Files> {
    rt: &'a R,
    faults: u64,
    failed_saves: u64,
}

impl<'a, R: Files> Model for FileStore<'a, R> {
    ghost use Rattle.outside_ports.specs.Ports.{StoreCounts};

    ghost Value = { StoreCounts };

    ghost view = { λ s. record { faults = s.faults; failed_saves = s.failed_saves } };
}

impl<'a, R: Files> FileStore<'a, R> {
    /// The files that this runtime reaches, where no fault was met.
    pub fn new(rt: &'a R) -> FileStore<'a, R>
        ensures { result ≡ record { faults = 0; failed_saves = 0 } }
    {
        FileStore {
            rt,
            faults: 0,
            failed_saves: 0,
        }
    }
}

impl<R: Files> Store for FileStore<'_, R> {
    ghost files = { λ _. None };

    ghost faults = { λ s. s.faults };

    ghost failed_saves = { λ s. s.failed_saves };

    /// Reads the file to its end, and no more than one byte past `limit`. A file that is missing or
    /// cannot be read, and a folder, are faults.
    fn load(&mut self, alloc: Global, name: &str, limit: u64) -> Result<Vec<u8>, StoreErr>
        ensures fault { result ≡ Err StoreErr.Failed
            → self.new ≡ record self.old { faults = next_number self.old.faults } }
        ensures no_fault { result ≢ Err StoreErr.Failed → self.new ≡ self.old }

        ensures content { IfOk result (λ v. (m : Files) → None ≡ Some m → m name.now ≡ Some v.items) }
        ensures within { IfOk result (λ v. length v.items ≤ limit) }
        ensures too_long { IsErrOf result StoreErr.TooLong → (m : Files) → None ≡ Some m
            → PassesLimit (m name.now) limit }
        ensures failed { IsErrOf result StoreErr.Failed
            → Rose self.old.faults self.new.faults ⊎ Lacks None name.now }
        ensures no_save { self.new.failed_saves ≡ self.old.failed_saves }
        ensures never_falls { self.old.faults ≤ self.new.faults }
    {
        let answer = read_file(self.rt, alloc, name, limit);
        if let Err(StoreErr::Failed) = &answer {
            self.faults = self.faults.saturating_add(1);
        }
        answer
    }

    /// Makes the file or replaces what is in it, as a whole: the bytes are written to a file beside it,
    /// which then takes its name, so that after a fault the old file is as it was and nothing else is
    /// left. A file that is replaced keeps its mode, and its owner where that may be kept; where it may
    /// not, the mode loses its set-user-ID and set-group-ID bits. A symbolic link is followed. What is no
    /// regular file, as a device or a pipe, is written as it is.
    fn save(&mut self, alloc: Global, name: &str, bytes: &[u8]) -> Result<(), SaveErr>
        ensures fault { result ≡ Err SaveErr.Failed → self.new ≡ record {
          faults = next_number self.old.faults;
          failed_saves = next_number self.old.failed_saves;
        } }
        ensures no_fault { result ≢ Err SaveErr.Failed → self.new ≡ self.old }

        ensures saved { OnOk result ((m : Files) → None ≡ Some m → SavedIn m None name.now bytes.now) }
        ensures failed { IsErrOf result SaveErr.Failed → Rose self.old.faults self.new.faults }
        ensures failed_save { IsErrOf result SaveErr.Failed → Rose self.old.failed_saves self.new.failed_saves }
        ensures no_failed_save { result ≢ Err SaveErr.Failed → self.new.failed_saves ≡ self.old.failed_saves }
        ensures others { IsErrOf result SaveErr.Failed → (m : Files) → None ≡ Some m
            → SameButIn m None name.now }
        ensures never_falls { self.old.faults ≤ self.new.faults }
        ensures failed_saves_never_fall { self.old.failed_saves ≤ self.new.failed_saves }
    {
        let answer = save_file(self.rt, alloc, name, bytes);
        if let Err(SaveErr::Failed) = &answer {
            self.faults = self.faults.saturating_add(1);
            self.failed_saves = self.failed_saves.saturating_add(1);
        }
        answer
    }
}

// All bytes of a file, of which there are at most `limit`.
fn read_file<R: Files>(rt: &R, alloc: Global, name: &str, limit: u64) -> Result<Vec<u8>, StoreErr>
    ensures within { IfOk result (λ v. length v.items ≤ limit) }
{
    let Ok(file) = fs::open(rt, name) else {
        return Err(StoreErr::Failed);
    };
    let mut bytes = Vec::new(alloc);
    match file.take(limit.saturating_add(1)).read_to_end(&mut bytes) {
        Ok(_) if bytes.len() as u64 <= limit => Ok(bytes),
        Ok(_) => Err(StoreErr::TooLong),
        Err(error) if error.kind() == ErrorKind::OutOfMemory => Err(StoreErr::OutOfMemory),
        Err(_) => Err(StoreErr::Failed),
    }
}
