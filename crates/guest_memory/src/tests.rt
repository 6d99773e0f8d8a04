ghost use Rattle.std.specs.Prelude.{◌≡◌, length, IfOk};
ghost use Rattle.elf_image.specs.Layout.{IsLoadable};

use crate::{Memory, build};
use elf_image::{Bytes, Elf, Segment, Segments};
use rv64_decode::{MemFault, Width, Words};
use std::alloc::{AllocError, Global};
use std::test::Fail;

// A segment whose file bytes are 0, 1, 2 and so on.
fn segment(
    alloc: Global,
    vaddr: u64,
    file: u8,
    memsz: u64,
    flags: u32,
) -> Result<Segment, AllocError>
    ensures vaddr { IfOk result (λ s. s.vaddr ≡ vaddr) }
    ensures memsz { IfOk result (λ s. s.memsz ≡ memsz) }
    ensures flags { IfOk result (λ s. s.flags ≡ flags) }
    ensures file { IfOk result (λ s. length s.bytes ≡ file) }
{
    let mut bytes = Vec::new(alloc);
    for i in 0..file {
        bytes.push(i)?;
    }
    Ok(Segment {
        index: 0,
        vaddr,
        memsz,
        flags,
        bytes: Bytes::new(bytes),
    })
}

// One segment of code: 162 bytes in the file and in memory.
fn code(alloc: Global) -> Result<Elf, AllocError>
    ensures { IfOk result (λ elf. IsLoadable elf) }
{
    let mut segments = Vec::new(alloc);
    segments.push(segment(alloc, 0x10000, 162, 162, 5)?)?;
    Ok(Elf {
        entry: 0x10000,
        segments: Segments::new(segments),
    })
}

// Two segments of data that touch, at 0x10010, and code behind them.
fn two(alloc: Global) -> Result<Elf, AllocError>
    ensures { IfOk result (λ elf. IsLoadable elf) }
{
    let mut segments = Vec::new(alloc);
    segments.push(segment(alloc, 0x10000, 16, 16, 6)?)?;
    segments.push(segment(alloc, 0x10010, 5, 7, 6)?)?;
    segments.push(segment(alloc, 0x10018, 8, 8, 5)?)?;
    Ok(Elf {
        entry: 0x10018,
        segments: Segments::new(segments),
    })
}

// Sets a word where that is allowed.
fn set_word(memory: &mut Memory, addr: u64, value: u64) -> bool {
    if memory.word(addr).is_none() || !memory.can_write(addr, 1) {
        return false;
    }
    memory.set_word(addr, value);
    true
}

// Sets bytes where that is allowed.
fn set_bytes(memory: &mut Memory, addr: u64, bytes: &[u8]) -> bool {
    if !memory.can_write(addr, bytes.len() as u64) {
        return false;
    }
    memory.set_bytes(addr, bytes);
    true
}

// Whether these are the bytes of the piece at an address.
fn is_piece(memory: &Memory, addr: u64, most: u64, want: &[u8]) -> bool {
    if most == 0 || !memory.can_read(addr, 1) {
        return false;
    }
    memory.piece(addr, most) == want
}

#[test]
fn areas_of_an_executable(rt: HostRuntime) -> Result<(), Fail> {
    let elf = code(rt.alloc())?;
    let memory = build(rt.alloc(), &elf)?;
    let rows = [
        (0x10000, Width::Eight, Ok(0x0706_0504_0302_0100)),
        (0x100A0, Width::Eight, Ok(0xA1A0)),
        (0x100A7, Width::One, Ok(0)),
        (0x100A8, Width::One, Err(MemFault::Unmapped)),
        (0xFFFF, Width::One, Err(MemFault::Unmapped)),
        (0x10004, Width::Eight, Err(MemFault::Misaligned)),
        (0x6000_0001, Width::Two, Err(MemFault::Misaligned)),
        (0x6000_0000, Width::Two, Err(MemFault::Unmapped)),
        (0x10FF8, Width::Eight, Err(MemFault::Unmapped)),
        (0x11000, Width::Eight, Ok(0)),
        (0x1010FF8, Width::Eight, Ok(0)),
        (0x1011000, Width::Eight, Err(MemFault::Unmapped)),
        (0x7EFF_FFF8, Width::Eight, Err(MemFault::Unmapped)),
        (0x7F00_0000, Width::Eight, Ok(0)),
        (0x7F7F_FFF8, Width::Eight, Ok(0)),
        (0x7F80_0000, Width::Eight, Err(MemFault::Unmapped)),
    ];
    for (addr, width, want) in rows {
        assert_eq!(rt; memory.peek(addr, width), want, "at {addr:#x}");
    }
    Ok(())
}

#[test]
fn loads_stores_and_fetches(rt: HostRuntime) -> Result<(), Fail> {
    let elf = code(rt.alloc())?;
    let mut memory = build(rt.alloc(), &elf)?;
    assert_eq!(rt; memory.fetch(0x10004), Ok(0x0706_0504));
    assert_eq!(rt; memory.fetch(0x100A4), Ok(0));
    assert_eq!(rt; memory.fetch(0x10002), Err(MemFault::Misaligned));
    assert_eq!(rt; memory.fetch(0x6000_0000), Err(MemFault::Unmapped));
    assert_eq!(rt; memory.fetch(0x11000), Err(MemFault::Denied));
    assert_eq!(rt; memory.store(0x10000, Width::One, 1), Err(MemFault::Denied));
    assert_eq!(rt;
        memory.store(0x6000_0000, Width::One, 1),
        Err(MemFault::Unmapped)
    );
    assert_eq!(rt;
        memory.store(0x11002, Width::Four, 1),
        Err(MemFault::Misaligned)
    );
    assert_eq!(rt;
        memory.store(0x11008, Width::Eight, 0x1122_3344_5566_7788),
        Ok(())
    );
    assert_eq!(rt; memory.store(0x1100A, Width::Two, 0xFFFF_ABCD), Ok(()));
    assert_eq!(rt;
        memory.load(0x11008, Width::Eight),
        Ok(0x1122_3344_ABCD_7788)
    );
    assert_eq!(rt; memory.load(0x1100F, Width::One), Ok(0x11));
    assert_eq!(rt; memory.load(0x10001, Width::One), Ok(1));
    Ok(())
}

#[test]
fn words_and_dump(rt: HostRuntime) -> Result<(), Fail> {
    let elf = code(rt.alloc())?;
    let mut memory = build(rt.alloc(), &elf)?;
    assert!(rt; !set_word(&mut memory, 0x10000, 1));
    assert!(rt; !set_word(&mut memory, 0x7F00_0004, 1));
    assert!(rt; set_word(&mut memory, 0x7F7F_FFF8, 0x0908_0706_0504_0302));
    assert_eq!(rt; memory.word(0x100A0), Some(0xA1A0));
    assert_eq!(rt; memory.word(0x100A4), None);
    assert_eq!(rt; memory.word(0x100A8), None);
    let dump = memory.dump(rt.alloc())?;
    assert_eq!(rt; dump.len(), 25_165_992);
    assert_eq!(rt; dump.get(161).copied(), Some(0xA1));
    assert_eq!(rt; dump.get(162).copied(), Some(0));
    assert_eq!(rt; dump.last().copied(), Some(9));
    let words = memory.words(rt.alloc())?;
    assert_eq!(rt; words.len(), 3_145_749);
    assert_eq!(rt; words.get(20).copied(), Some((0x100A0, 0xA1A0)));
    assert_eq!(rt; words.get(21).copied(), Some((0x11000, 0)));
    assert_eq!(rt;
        words.last().copied(),
        Some((0x7F7F_FFF8, 0x0908_0706_0504_0302))
    );
    Ok(())
}

#[test]
fn buffers_span_areas(rt: HostRuntime) -> Result<(), Fail> {
    let elf = two(rt.alloc())?;
    let mut memory = build(rt.alloc(), &elf)?;
    assert!(rt; memory.can_read(0x10008, 24));
    assert!(rt; !memory.can_read(0x10008, 25));
    assert!(rt; memory.can_write(0x10008, 16));
    assert!(rt; !memory.can_write(0x10008, 17));
    assert!(rt; memory.can_read(0x6000_0000, 0));
    assert!(rt; !memory.can_read(0x10000, u64::MAX));
    assert!(rt; !memory.can_write(u64::MAX, u64::MAX));
    assert_eq!(rt;
        memory.peek(0x1000C, Width::Eight),
        Err(MemFault::Misaligned)
    );
    assert!(rt; is_piece(&memory, 0x1000E, 100, &[14, 15]));
    assert!(rt; is_piece(&memory, 0x10010, 3, &[0, 1, 2]));
    assert!(rt; set_bytes(&mut memory, 0x1000E, &[9, 8, 7]));
    assert!(rt; !set_bytes(&mut memory, 0x10017, &[6, 6]));
    assert_eq!(rt; memory.word(0x10008), Some(0x0809_0D0C_0B0A_0908));
    assert_eq!(rt; memory.word(0x10010), Some(0x04_0302_0107));
    Ok(())
}

// Data from 0x10003 on, of seven bytes of which the file has five, and code behind it.
fn uneven(alloc: Global) -> Result<Elf, AllocError>
    ensures { IfOk result (λ elf. IsLoadable elf) }
{
    let mut segments = Vec::new(alloc);
    segments.push(segment(alloc, 0x10003, 5, 7, 6)?)?;
    segments.push(segment(alloc, 0x10018, 8, 8, 5)?)?;
    Ok(Elf {
        entry: 0x10018,
        segments: Segments::new(segments),
    })
}

#[test]
fn bytes_round_a_segment_are_zero(rt: HostRuntime) -> Result<(), Fail> {
    let elf = uneven(rt.alloc())?;
    let mut memory = build(rt.alloc(), &elf)?;
    for (addr, width, want) in [
        (0xFFFF, Width::One, Err(MemFault::Unmapped)),
        (0x10000, Width::Eight, Ok(0x0403_0201_0000_0000)),
        (0x10002, Width::One, Ok(0)),
        (0x10007, Width::One, Ok(4)),
        (0x10008, Width::Eight, Ok(0)),
        (0x1000F, Width::One, Ok(0)),
        (0x10010, Width::One, Err(MemFault::Unmapped)),
    ] {
        assert_eq!(rt; memory.peek(addr, width), want, "at {addr:#x}");
    }
    assert!(rt; memory.can_read(0x10000, 16) && memory.can_write(0x10000, 16));
    assert!(rt; !memory.can_read(0xFFFF, 17) && !memory.can_write(0x10000, 17));
    assert!(rt; set_bytes(&mut memory, 0x10001, &[9, 8, 7]));
    assert_eq!(rt; memory.word(0x10000), Some(0x0403_0201_0708_0900));
    Ok(())
}
