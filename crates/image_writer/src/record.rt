/// What an image tells of its original and of its own parts.
#[derive(Clone, Copy)]
pub struct Record {
    /// The length of the original file in bytes.
    pub size: u64,
    /// Its `e_phoff`.
    pub phoff: u64,
    /// Its `e_phnum`.
    pub phnum: u64,
    /// The number of entries.
    pub entries: u64,
    /// The number of added words.
    pub words: u64,
}
