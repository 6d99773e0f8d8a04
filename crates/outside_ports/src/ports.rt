ghost use Rattle.std.specs.Prelude.{◌≡◌, ◌≢◌, ◌+◌, ◌<◌, ◌≤◌, ◌++◌, ◌⊎◌, ℕ, List, Option, Some, Err, length, take, IfOk, OnOk, OnErr, IsErrOf};
ghost use Rattle.outside_ports.specs.Ports.{Files, Rose, Moved, Lacks, PassesLimit, SavedIn, SameButIn};

use std::alloc::Global;

/// A source or a sink met a fault.
#[derive(Clone, Copy, Debug, PartialEq, Eq)]
pub struct Failed;

/// Why a store gives no bytes.
#[derive(Clone, Copy, Debug, PartialEq, Eq)]
pub enum StoreErr {
    /// The store met a fault, or it has no such name.
    Failed,
    /// The content is longer than the limit of the call.
    TooLong,
    /// There was no memory for the content.
    OutOfMemory,
}

/// Why a store has not saved.
#[derive(Clone, Copy, Debug, PartialEq, Eq)]
pub enum SaveErr {
    /// The store met a fault. Nothing is known of the name; other names stay.
    Failed,
    /// There was no memory. All names stay.
    OutOfMemory,
}

/// Bytes to be read, one after another.
pub trait Source {
    /// The bytes that are still to be read, where the source can tell them.
    ghost rest: { Self → Option (List ℕ) };

    /// How many faults it has met; the count stands still at 2 ^ 64 - 1.
    ghost faults: { Self → ℕ };

    /// Moves bytes from the front of the rest to the front of `buf`, and says how many. 0 for a
    /// buffer that has room is the end.
    fn read(&mut self, buf: &mut [u8]) -> Result<usize, Failed>
        ensures count { IfOk result (λ k. k ≤ length buf.new) }
        ensures moved { IfOk result (λ k. (xs : List ℕ) → rest self.old ≡ Some xs
            → Moved xs (rest self.new) k buf.new) }
        ensures failed { OnErr result (Rose (faults self.old) (faults self.new)) }
        ensures never_falls { faults self.old ≤ faults self.new };
}

/// A place that bytes are appended to.
pub trait Sink {
    /// The bytes written so far, where the sink can tell them.
    ghost written: { Self → Option (List ℕ) };

    /// How many faults it has met; the count stands still at 2 ^ 64 - 1.
    ghost faults: { Self → ℕ };

    /// Appends bytes from the front of `piece`, and says how many: at least one of a piece that has
    /// any. A device that takes nothing of such a piece is a fault.
    fn write(&mut self, piece: &[u8]) -> Result<usize, Failed>
        ensures count { IfOk result (λ k. k ≤ length piece.now) }
        ensures progress { IfOk result (λ k. 0 < length piece.now → 0 < k) }
        ensures appended { IfOk result (λ k. (xs : List ℕ) → written self.old ≡ Some xs
            → written self.new ≡ Some (xs ++ take k piece.now)) }
        // A prefix of the piece, which may be empty, and nothing else.
        ensures prefix { OnErr result ((xs : List ℕ) → written self.old ≡ Some xs
            → (k : ℕ) × (written self.new ≡ Some (xs ++ take k piece.now))) }
        ensures failed { OnErr result (Rose (faults self.old) (faults self.new)) }
        ensures never_falls { faults self.old ≤ faults self.new };
}

/// Files by name.
pub trait Store {
    /// The bytes under each name, where the store can tell them. A store that cannot tell counts a
    /// missing name as a fault.
    ghost files: { Self → Option Files };

    /// How many faults it has met; the count stands still at 2 ^ 64 - 1.
    ghost faults: { Self → ℕ };

    /// How many of its faults were saves that failed; this count stands still there too.
    ghost failed_saves: { Self → ℕ };

    /// All bytes under `name`, of which there are at most `limit`.
    fn load(&mut self, alloc: Global, name: &str, limit: u64) -> Result<Vec<u8>, StoreErr>
        ensures content { IfOk result (λ v. (m : Files) → files self.old ≡ Some m
            → m name.now ≡ Some v.items) }
        ensures within { IfOk result (λ v. length v.items ≤ limit) }
        ensures too_long { IsErrOf result StoreErr.TooLong → (m : Files) → files self.old ≡ Some m
            → PassesLimit (m name.now) limit }
        ensures failed { IsErrOf result StoreErr.Failed
            → Rose (faults self.old) (faults self.new) ⊎ Lacks (files self.old) name.now }
        ensures same { files self.new ≡ files self.old }
        ensures no_save { failed_saves self.new ≡ failed_saves self.old }
        ensures never_falls { faults self.old ≤ faults self.new };

    /// Sets `name` to these bytes.
    fn save(&mut self, alloc: Global, name: &str, bytes: &[u8]) -> Result<(), SaveErr>
        ensures saved { OnOk result ((m : Files) → files self.old ≡ Some m
            → SavedIn m (files self.new) name.now bytes.now) }
        ensures failed { IsErrOf result SaveErr.Failed → Rose (faults self.old) (faults self.new) }
        ensures failed_save { IsErrOf result SaveErr.Failed
            → Rose (failed_saves self.old) (failed_saves self.new) }
        ensures no_failed_save { result ≢ Err SaveErr.Failed → failed_saves self.new ≡ failed_saves self.old }
        ensures others { IsErrOf result SaveErr.Failed → (m : Files) → files self.old ≡ Some m
            → SameButIn m (files self.new) name.now }
        ensures out_of_memory { IsErrOf result SaveErr.OutOfMemory → files self.new ≡ files self.old }
        ensures never_falls { faults self.old ≤ faults self.new }
        ensures failed_saves_never_fall { failed_saves self.old ≤ failed_saves self.new };
}

/// A place that each hart passes as it starts in a running region.
pub trait Gate: Sync {
    /// Called once as a drawn hart starts.
    fn enter(&self, hart: u32);
}
