ghost use Rattle.std.specs.Prelude.{◌≡◌, ◌≢◌, ◌↔◌, ◌⊎◌, ◌<◌, ◌≤◌, [], None, Some, Err, Contains, IfOk, IfSome, IsNone, IsErrOf, OnErr, OnOk, length};
ghost use Rattle.outside_ports.specs.Fakes.{files_of, next_number, with_file};
ghost use Rattle.outside_ports.specs.Ports.{Lacks, PassesLimit, Rose, SameButIn, SavedIn};

use crate::calls::Calls;
use crate::entry::{Entry, find, set};
use crate::ports::{SaveErr, Store, StoreErr};
use std::alloc::{AllocError, Global};
use std::marker::Model;

/// Files in memory, where some calls of `load` and `save` fail. These calls are numbered together,
/// from 0; their number and the counts of faults and of failed saves stand still at 2 ^ 64 - 1.
#[derive(Drop)]
pub struct MemStore {
    alloc: Global,
    entries: Vec<Entry>,
    calls: Calls,
    failed_saves: u64,
}

impl Model for MemStore {
    ghost use Rattle.outside_ports.specs.Fakes.{StoreState};

    ghost Value = { StoreState };

    ghost view = { λ s. record {
      entries = s.entries.items;
      fails = s.calls.fails.items;
      calls = s.calls.number;
      faults = s.calls.faults;
      failed_saves = s.failed_saves;
    } };
}

impl MemStore {
    /// A store without files. The calls whose numbers are in `fails` fail.
    pub fn new(alloc: Global, fails: Vec<u64>) -> MemStore
        ensures { result ≡ record {
          entries = [];
          fails = fails.items;
          calls = 0;
          faults = 0;
          failed_saves = 0;
        } }
    {
        MemStore {
            alloc,
            entries: Vec::new(alloc),
            calls: Calls::new(fails),
            failed_saves: 0,
        }
    }

    /// The bytes under a name.
    pub fn get(&self, name: &str) -> Option<&[u8]>
        ensures missing { IsNone result ↔ (files_of self.now.entries name.now ≡ None) }
        ensures found { IfSome result (λ bytes. files_of self.now.entries name.now ≡ Some bytes.now) }
    {
        find(self.entries.as_slice(), name)
    }

    /// Sets a name to these bytes, as the world outside may do between two calls: it has no number
    /// among the calls. Where there is no memory nothing is changed.
    pub fn put(&mut self, name: &str, bytes: &[u8]) -> Result<(), AllocError>
        ensures ok { OnOk result (self.new ≡ record self.old {
          entries = with_file self.old.entries name.now bytes.now;
        }) }
        ensures err { OnErr result (self.new ≡ self.old) }
        ensures saved { OnOk result (SavedIn (files_of self.old.entries) (Some (files_of self.new.entries))
            name.now bytes.now) }
    {
        set(&mut self.entries, self.alloc, name, bytes)
    }
}

impl Store for MemStore {
    ghost files = { λ s. Some (files_of s.entries) };

    ghost faults = { λ s. s.faults };

    ghost failed_saves = { λ s. s.failed_saves };

    /// A load changes nothing but the number of calls and, where its number is among those that
    /// fail, the count of faults. A missing name raises no count.
    fn load(&mut self, alloc: Global, name: &str, limit: u64) -> Result<Vec<u8>, StoreErr>
        ensures fails { IsErrOf result StoreErr.Failed ↔ (Contains self.old.fails self.old.calls
            ⊎ (files_of self.old.entries name.now ≡ None)) }
        ensures passes { IsErrOf result StoreErr.TooLong ↔ ((¬ Contains self.old.fails self.old.calls)
            × PassesLimit (files_of self.old.entries name.now) limit) }
        ensures after_fault { Contains self.old.fails self.old.calls → self.new ≡ record self.old {
          calls = next_number self.old.calls;
          faults = next_number self.old.faults;
        } }
        ensures after { ¬ Contains self.old.fails self.old.calls
            → self.new ≡ record self.old { calls = next_number self.old.calls } }

        ensures content { IfOk result (λ v. files_of self.old.entries name.now ≡ Some v.items) }
        ensures within { IfOk result (λ v. length v.items ≤ limit) }
        ensures too_long { IsErrOf result StoreErr.TooLong → PassesLimit (files_of self.old.entries name.now) limit }
        ensures failed { IsErrOf result StoreErr.Failed
            → Rose self.old.faults self.new.faults ⊎ Lacks (Some (files_of self.old.entries)) name.now }
        ensures same { Some (files_of self.new.entries) ≡ Some (files_of self.old.entries) }
        ensures no_save { self.new.failed_saves ≡ self.old.failed_saves }
        ensures never_falls { self.old.faults ≤ self.new.faults }
    {
        if self.calls.begin().is_err() {
            return Err(StoreErr::Failed);
        }
        let Some(bytes) = self.get(name) else {
            return Err(StoreErr::Failed);
        };
        if bytes.len() as u64 > limit {
            return Err(StoreErr::TooLong);
        }
        match Vec::from_slice(alloc, bytes) {
            Ok(copy) => Ok(copy),
            Err(_) => Err(StoreErr::OutOfMemory),
        }
    }

    /// A save that fails, or has no memory, changes no file.
    fn save(&mut self, alloc: Global, name: &str, bytes: &[u8]) -> Result<(), SaveErr>
        ensures fails { IsErrOf result SaveErr.Failed ↔ Contains self.old.fails self.old.calls }
        ensures ok { OnOk result (self.new ≡ record self.old {
          entries = with_file self.old.entries name.now bytes.now;
          calls = next_number self.old.calls;
        }) }
        ensures after_fault { IsErrOf result SaveErr.Failed → self.new ≡ record self.old {
          calls = next_number self.old.calls;
          faults = next_number self.old.faults;
          failed_saves = next_number self.old.failed_saves;
        } }
        ensures no_memory { IsErrOf result SaveErr.OutOfMemory
            → self.new ≡ record self.old { calls = next_number self.old.calls } }

        ensures saved { OnOk result (SavedIn (files_of self.old.entries) (Some (files_of self.new.entries))
            name.now bytes.now) }
        ensures failed { IsErrOf result SaveErr.Failed → Rose self.old.faults self.new.faults }
        ensures failed_save { IsErrOf result SaveErr.Failed → Rose self.old.failed_saves self.new.failed_saves }
        ensures no_failed_save { result ≢ Err SaveErr.Failed → self.new.failed_saves ≡ self.old.failed_saves }
        ensures others { IsErrOf result SaveErr.Failed
            → SameButIn (files_of self.old.entries) (Some (files_of self.new.entries)) name.now }
        ensures out_of_memory { IsErrOf result SaveErr.OutOfMemory
            → Some (files_of self.new.entries) ≡ Some (files_of self.old.entries) }
        ensures never_falls { self.old.faults ≤ self.new.faults }
        ensures failed_saves_never_fall { self.old.failed_saves ≤ self.new.failed_saves }
    {
        if self.calls.begin().is_err() {
            self.failed_saves = self.failed_saves.saturating_add(1);
            return Err(SaveErr::Failed);
        }
        match set(&mut self.entries, alloc, name, bytes) {
            Ok(()) => Ok(()),
            Err(_) => Err(SaveErr::OutOfMemory),
        }
    }
}
