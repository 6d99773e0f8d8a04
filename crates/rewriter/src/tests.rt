use crate::{AdmitErr, RewriteErr, admit, rewrite};
use elf_image::ElfErr;
use std::alloc::{AllocError, Global};
use std::process::Abort;
use std::test::Fail;

// An executable of 128 bytes: its headers, and the words of an exit with code 0.
const FILE: [u8; 128] = [
    0x7F, 0x45, 0x4C, 0x46, 2, 1, 1, 0, 0, 0, 0, 0, 0, 0, 0, 0, // e_ident
    2, 0, 243, 0, 1, 0, 0, 0, 0x78, 0, 1, 0, 0, 0, 0, 0, // type, machine, version, entry
    64, 0, 0, 0, 0, 0, 0, 0, 0, 0, 0, 0, 0, 0, 0, 0, // phoff, shoff
    0, 0, 0, 0, 64, 0, 56, 0, 1, 0, 0, 0, 0, 0, 0, 0, // flags, sizes and numbers
    1, 0, 0, 0, 5, 0, 0, 0, 0, 0, 0, 0, 0, 0, 0, 0, // type, flags, offset
    0, 0, 1, 0, 0, 0, 0, 0, 0, 0, 1, 0, 0, 0, 0, 0, // vaddr, paddr
    128, 0, 0, 0, 0, 0, 0, 0, 128, 0, 0, 0, 0, 0, 0, 0, // filesz, memsz
    0, 16, 0, 0, 0, 0, 0, 0, 0x93, 0x08, 0xD0, 0x05, 0x73, 0, 0, 0, // align, words
];

// The image of that executable, with one byte changed.
fn changed(alloc: Global, place: usize, byte: u8) -> Result<Vec<u8>, Fail> {
    let made = rewrite(alloc, &FILE)?;
    let mut bytes = made.bytes.into_vec();
    if place < bytes.len() {
        bytes[place] = byte;
    } else {
        bytes.push(byte)?;
    }
    Ok(bytes)
}

#[test]
fn an_image_without_entries_has_288_bytes(rt: HostRuntime) -> Result<(), Fail> {
    let made = rewrite(rt.alloc(), &FILE)?;
    assert!(rt; made.bytes.as_slice().len() == 288);
    assert!(rt; made.entries == 0 && made.words == 0);
    let image = admit(rt.alloc(), made.bytes.as_slice())?;
    assert!(rt; image.elf.entry == 0x10078);
    assert!(rt; image.entries.as_slice().is_empty() && image.code.as_slice().is_empty());
    Ok(())
}

#[test]
fn an_executable_without_a_mark_is_admitted(rt: HostRuntime) -> Result<(), Fail> {
    let image = admit(rt.alloc(), &FILE)?;
    assert!(rt; image.elf.entry == 0x10078);
    Ok(())
}

#[test]
fn other_files_are_not_admitted(rt: HostRuntime) -> Result<(), Fail> {
    let alloc = rt.alloc();
    let altered = changed(alloc, 188, 3)?;
    assert!(rt; admit(alloc, altered.as_slice()).err() == Some(AdmitErr::Altered { offset: 188 }));
    let longer = changed(alloc, 288, 0)?;
    assert!(rt; admit(alloc, longer.as_slice()).err() == Some(AdmitErr::Altered { offset: 288 }));
    let version = changed(alloc, 244, 3)?;
    assert!(rt; admit(alloc, version.as_slice()).err() == Some(AdmitErr::BadMark));
    let whole = changed(alloc, 0, 0x7F)?;
    let whole = whole.as_slice();
    assert!(rt; whole.len() == 288);
    let (_, cut) = whole.split_last().ok_or("an image has bytes")?;
    assert!(rt; admit(alloc, cut).err() == Some(AdmitErr::BadMark));
    let marked = Some(RewriteErr::Elf(ElfErr::Marked { index: 1 }));
    assert!(rt; rewrite(alloc, whole).err() == marked);
    assert!(rt;
        admit(alloc, b"").err() == Some(AdmitErr::Original(RewriteErr::Elf(ElfErr::NotElf)))
    );
    Ok(())
}

// More than a megabyte behind the words, which no segment holds.
#[test]
fn long_files_are_rewritten_and_admitted(rt: HostRuntime) -> Result<(), Fail> {
    let mut file = FILE.to_vec(rt.alloc())?;
    file.resize(1_100_001, 0x5A)?;
    assert!(rt; admit(rt.alloc(), file.as_slice())?.elf.entry == 0x10078);
    let made = rewrite(rt.alloc(), file.as_slice())?;
    assert!(rt; made.bytes.as_slice().len() == 1_100_008 + 112 + 48);
    let image = admit(rt.alloc(), made.bytes.as_slice())?;
    assert!(rt; image.elf.entry == 0x10078 && image.entries.as_slice().is_empty());
    Ok(())
}

// The same with a loop of two words before the exit: `addi a0,a0,1` and `bne a0,a1,-4`.
const LOOPING: [u8; 136] = [
    0x7F, 0x45, 0x4C, 0x46, 2, 1, 1, 0, 0, 0, 0, 0, 0, 0, 0, 0, // e_ident
    2, 0, 243, 0, 1, 0, 0, 0, 0x78, 0, 1, 0, 0, 0, 0, 0, // type, machine, version, entry
    64, 0, 0, 0, 0, 0, 0, 0, 0, 0, 0, 0, 0, 0, 0, 0, // phoff, shoff
    0, 0, 0, 0, 64, 0, 56, 0, 1, 0, 0, 0, 0, 0, 0, 0, // flags, sizes and numbers
    1, 0, 0, 0, 5, 0, 0, 0, 0, 0, 0, 0, 0, 0, 0, 0, // type, flags, offset
    0, 0, 1, 0, 0, 0, 0, 0, 0, 0, 1, 0, 0, 0, 0, 0, // vaddr, paddr
    136, 0, 0, 0, 0, 0, 0, 0, 136, 0, 0, 0, 0, 0, 0, 0, // filesz, memsz
    0, 16, 0, 0, 0, 0, 0, 0, 0x13, 0x05, 0x15, 0, 0xE3, 0x1E, 0xB5, 0xFE, // align, words
    0x93, 0x08, 0xD0, 0x05, 0x73, 0, 0, 0, // words
];

#[test]
fn a_loop_gets_an_entry_and_a_stub(rt: HostRuntime) -> Result<(), Fail> {
    let made = rewrite(rt.alloc(), &LOOPING)?;
    assert!(rt; made.entries == 1 && made.words == 88);
    assert!(rt; made.bytes.as_slice().len() == 136 + 112 + 48 + 16 + 352);
    let image = admit(rt.alloc(), made.bytes.as_slice())?;
    let entry = image.entries.as_slice().first().ok_or("no entry")?;
    assert!(rt; entry.header == 0x10078 && entry.stub == 0x6000_0000);
    assert!(rt; image.code.as_slice().len() == 88);
    let mut bytes = made.bytes.into_vec();
    if let Some(byte) = bytes.get_mut(312) {
        *byte = byte.wrapping_add(1);
    }
    let altered = Some(AdmitErr::Altered { offset: 312 });
    assert!(rt; admit(rt.alloc(), bytes.as_slice()).err() == altered);
    Ok(())
}
