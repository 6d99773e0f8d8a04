use crate::memory::MemFault;

/// Why an instruction, or the fetch of one, does not complete. A faulting instruction changes
/// nothing.
#[derive(Clone, Copy, PartialEq, Eq, Debug)]
pub enum Fault {
    /// The program counter lies in no executable area.
    Fetch,
    /// The word stands for no instruction.
    Illegal,
    /// `ebreak`.
    Break,
    /// A jump or a taken branch to an address that is no multiple of 4 (the manual's
    /// instruction-address-misaligned exception).
    Target,
    /// A load was refused.
    Load(MemFault),
    /// A store was refused.
    Store(MemFault),
}

/// Where an instruction leads.
#[derive(Clone, Copy, PartialEq, Eq, Debug)]
pub enum Next {
    /// The run goes on at this address.
    At(u64),
    /// `ecall`: the environment answers, and the run goes on after it.
    Call,
    /// The run stops here. `addr` is the target of a jump, the address of a refused access, or for
    /// any other fault what stands in the way: the program counter, or the word that is no
    /// instruction.
    Fault { kind: Fault, addr: u64 },
}
