ghost use Rattle.std.specs.Prelude.{◌≡◌};

use elf_image::Elf;
use std::marker::Model;

/// A place at which an image leaves its original for the added code.
#[derive(Clone, Copy)]
pub struct Entry {
    /// The address of the word at which it leaves: the header of a loop.
    pub header: u64,
    /// The address of the added word at which it goes on: the first of the loop's stub.
    pub stub: u64,
}

/// Entries, seen as a list.
#[derive(Drop)]
pub struct Entries {
    entries: Vec<Entry>,
}

impl Model for Entries {
    ghost use Rattle.std.specs.Prelude.{List};
    ghost use Rattle.image_writer.specs.declared.image.Entry.{Entry};

    ghost Value = { List Entry };

    ghost view = { λ e. e.entries.items };
}

impl Entries {
    /// These entries.
    pub fn new(entries: Vec<Entry>) -> Entries
        ensures { result ≡ entries.items }
    {
        Entries { entries }
    }

    pub fn as_slice(&self) -> &[Entry]
        ensures { result.now ≡ self.now }
    {
        self.entries.as_slice()
    }

    pub fn into_vec(self) -> Vec<Entry>
        ensures { result.items ≡ self }
    {
        let Entries { entries } = self;
        entries
    }
}

/// Instruction words, seen as a list.
#[derive(Drop)]
pub struct Code {
    words: Vec<u32>,
}

impl Model for Code {
    ghost use Rattle.std.specs.Prelude.{ℕ, List};

    ghost Value = { List ℕ };

    ghost view = { λ c. c.words.items };
}

impl Code {
    /// These words.
    pub fn new(words: Vec<u32>) -> Code
        ensures { result ≡ words.items }
    {
        Code { words }
    }

    pub fn as_slice(&self) -> &[u32]
        ensures { result.now ≡ self.now }
    {
        self.words.as_slice()
    }

    pub fn into_vec(self) -> Vec<u32>
        ensures { result.items ≡ self }
    {
        let Code { words } = self;
        words
    }
}

/// An executable with added code.
#[derive(Drop)]
pub struct Image {
    /// The original.
    pub elf: Elf,
    /// The entries, by header.
    pub entries: Entries,
    /// The added words. Word i has the address 0x60000000 + 4 * i.
    pub code: Code,
}
