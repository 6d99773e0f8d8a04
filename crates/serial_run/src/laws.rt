ghost use Rattle.std.specs.Prelude.{◌≡◌, ◌≤◌, ◌++◌, ℕ, List, Some, IsSome, IsNone, ◌<◌, All};
ghost use Rattle.rv64_decode.specs.declared.outcome.Fault.{Fault};
ghost use Rattle.elf_image.specs.Layout.{IsLoadable};
ghost use Rattle.elf_image.specs.declared.image.Elf.{Elf};
ghost use Rattle.serial_run.specs.Sound.{HaveBytes, IsSound};
ghost use Rattle.serial_run.specs.Serial.{State, start_of, IsEnding, ended, with_ending, step, serial, executed_of};

use crate::machine::End;

/// A run that has ended within some number of instructions is at its first ending, and the counted
/// instructions are those up to it; a first ending is the state of every longer run.
pub fn first_ending()
    ensures found { (fuel : ℕ) (s : State) → IsSome (ended (serial fuel s))
        → IsEnding s (executed_of fuel s) (serial fuel s) }
    ensures only { (fuel n : ℕ) (s t : State) → IsEnding s n t → n ≤ fuel
        → (serial fuel s ≡ t) × (executed_of fuel s ≡ n) }
{}

/// An instruction that faults changes nothing but the ending, which tells the address that the
/// instruction stands at.
pub fn faults_change_nothing()
    ensures stays { (s : State) (kind : Fault) (pc addr : ℕ) → IsNone (ended s)
        → ended (step s) ≡ Some (End.Faulted kind pc addr) → step s ≡ with_ending s (End.Faulted kind pc addr) }
    ensures place { (s : State) (kind : Fault) (pc addr : ℕ) → IsNone (ended s)
        → ended (step s) ≡ Some (End.Faulted kind pc addr) → pc ≡ s.machine.pc }
{}

/// What some instructions leave of the input is what some more of them have taken and what they leave.
pub fn input_is_only_taken()
    ensures { (n m : ℕ) (s : State) → n ≤ m
        → (taken : List ℕ) × ((serial n s).rest ≡ taken ++ (serial m s).rest) }
{}

/// The output after some instructions is a first part of the output after more of them.
pub fn output_only_grows()
    ensures { (n m : ℕ) (s : State) → n ≤ m
        → (more : List ℕ) × ((serial m s).output ≡ (serial n s).output ++ more) }
{}

/// What is true of every state of an executable's run.
pub fn states_are_sound()
    ensures { (elf : Elf) (input : List ℕ) (n : ℕ) → IsLoadable elf → HaveBytes elf.segments
        → All (λ b. b < 256) input → IsSound elf (serial n (start_of elf input)) }
{}
