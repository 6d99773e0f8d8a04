ghost use Rattle.std.specs.Prelude.{◌≡◌, ◌↔◌, ◌<◌, None, Some, IfSome, IsNone, OnErr, OnOk, position};
ghost use Rattle.std.specs.Str.{bytes_eq};
ghost use Rattle.outside_ports.specs.Fakes.{File, files_of, with_file};
ghost use Rattle.outside_ports.specs.Ports.{SavedIn};

use std::alloc::{AllocError, Global};
use std::marker::Model;

// A file of a store in memory. It is seen as its name and its bytes.
#[derive(Drop)]
pub(crate) struct Entry {
    name: String,
    bytes: Vec<u8>,
}

impl Model for Entry {
    ghost use Rattle.std.specs.Prelude.{string_bytes};
    ghost use Rattle.outside_ports.specs.Fakes.{File};

    ghost Value = { File };

    ghost view = { λ e. (string_bytes e.name, e.bytes.items) };
}

impl Entry {
    fn has_name(&self, name: &str) -> bool
        ensures { result ≡ bytes_eq self.now.0 name.now }
    {
        self.name.as_str() == name
    }

    fn bytes(&self) -> &[u8]
        ensures { result.now ≡ self.now.1 }
    {
        self.bytes.as_slice()
    }

    fn set_bytes(&mut self, bytes: Vec<u8>)
        ensures { self.new ≡ (self.old.0, bytes.items) }
    {
        self.bytes = bytes;
    }
}

// The place of the first file of this name.
fn place_of(files: &[Entry], name: &str) -> Option<usize>
    ensures { result ≡ position (λ e. bytes_eq e.0 name.now) files.now }
{
    files.iter().position(|file| file.has_name(name))
}

// The bytes under a name.
pub(crate) fn find<'a>(files: &'a [Entry], name: &str) -> Option<&'a [u8]>
    ensures missing { IsNone result ↔ (files_of files.now name.now ≡ None) }
    ensures found { IfSome result (λ bytes. files_of files.now name.now ≡ Some bytes.now) }
{
    match place_of(files, name) {
        None => None,
        Some(place) => Some(files[place].bytes()),
    }
}

// Sets a name to these bytes.
pub(crate) fn set(
    files: &mut Vec<Entry>,
    alloc: Global,
    name: &str,
    bytes: &[u8],
) -> Result<(), AllocError>
    ensures ok { OnOk result (files.new.items ≡ with_file files.old.items name.now bytes.now) }
    ensures err { OnErr result (files.new.items ≡ files.old.items) }
    ensures saved { OnOk result (SavedIn (files_of files.old.items) (Some (files_of files.new.items))
        name.now bytes.now) }
{
    let bytes = Vec::from_slice(alloc, bytes)?;
    match place_of(files.as_slice(), name) {
        Some(place) => files[place].set_bytes(bytes),
        None => {
            let name = String::from_str(alloc, name)?;
            files.push(Entry { name, bytes })?;
        }
    }
    Ok(())
}
