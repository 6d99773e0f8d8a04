ghost use Rattle.std.specs.Prelude.{◌≡◌, ◌%◌, ℕ, true};
ghost use Rattle.elf_image.specs.Layout.{IsLoadable, in_code};
ghost use Rattle.elf_image.specs.declared.image.Elf.{Elf};
ghost use Rattle.loop_data.specs.declared.graph.Graph.{Graph};
ghost use Rattle.loop_data.specs.Graphs.{IsGraph};
ghost use Rattle.loop_data.specs.Reaching.{Reached};
ghost use Rattle.loop_data.specs.Starts.{AreFromStarts};

/// Only aligned words of executable segments are reached, and the entry is one.
pub fn reached_words()
    ensures aligned { (elf : Elf) (a : ℕ) → Reached elf a → a % 4 ≡ 0 }
    ensures code { (elf : Elf) (a : ℕ) → Reached elf a → in_code elf.segments a ≡ true }
    ensures entry { (elf : Elf) → IsLoadable elf → Reached elf elf.entry }
{}

/// An executable has one graph.
pub fn one_graph()
    ensures { (elf : Elf) (g h : Graph) → IsGraph elf g → IsGraph elf h → g ≡ h }
{}

/// In the graph of an executable each word is reached by step edges from a start word.
pub fn starts()
    ensures { (elf : Elf) (G : Graph) → IsGraph elf G → AreFromStarts G }
{}
