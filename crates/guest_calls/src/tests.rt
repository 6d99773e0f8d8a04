ghost use Rattle.std.specs.Prelude.{◌≡◌, length, IfOk};
ghost use Rattle.elf_image.specs.Layout.{IsLoadable};

use crate::{Brk, Going, PortFault, call};
use elf_image::{Bytes, Elf, Segment, Segments};
use guest_memory::{Memory, build};
use outside_ports::{MemSink, MemSource};
use rv64_decode::{Reg, Regs, Width, Words};
use std::alloc::{AllocError, Global};
use std::test::Fail;

// The negated numbers of errors, as 64-bit words.
const EBADF: u64 = 0xFFFF_FFFF_FFFF_FFF7;

const EFAULT: u64 = 0xFFFF_FFFF_FFFF_FFF2;

const ENOSYS: u64 = 0xFFFF_FFFF_FFFF_FFDA;

// A heap of 16,777,216 bytes from 0x11000 on.
const HEAP: Brk = Brk {
    at: 0x11000,
    low: 0x11000,
    high: 0x101_1000,
};

// A segment of the bytes 0 to 7.
fn segment(alloc: Global, vaddr: u64, flags: u32) -> Result<Segment, AllocError>
    ensures vaddr { IfOk result (λ s. s.vaddr ≡ vaddr) }
    ensures memsz { IfOk result (λ s. s.memsz ≡ 8) }
    ensures flags { IfOk result (λ s. s.flags ≡ flags) }
    ensures file { IfOk result (λ s. length s.bytes ≡ 8) }
{
    Ok(Segment {
        index: 0,
        vaddr,
        memsz: 8,
        flags,
        bytes: Bytes::new(vec![in alloc; 0, 1, 2, 3, 4, 5, 6, 7]?),
    })
}

// Three segments of 8 bytes that touch: one to execute alone, at 0x10000, then one to read and write,
// then one to read alone.
fn executable(alloc: Global) -> Result<Elf, AllocError>
    ensures { IfOk result (λ elf. IsLoadable elf) }
{
    let mut segments = Vec::new(alloc);
    segments.push(segment(alloc, 0x10000, 1)?)?;
    segments.push(segment(alloc, 0x10008, 6)?)?;
    segments.push(segment(alloc, 0x10010, 4)?)?;
    Ok(Elf {
        entry: 0x10000,
        segments: Segments::new(segments),
    })
}

// The registers of a call with this number and these arguments.
fn registers(number: u64, first: u64, addr: u64, len: u64) -> Regs {
    let mut regs = Regs::new();
    regs.set(Reg::new(17), number);
    regs.set(Reg::new(10), first);
    regs.set(Reg::new(11), addr);
    regs.set(Reg::new(12), len);
    regs
}

// What a call that is neither a read nor a write gives: where the run goes on, a0, and the break.
fn other(
    memory: &mut Memory,
    input: &mut MemSource,
    out: &mut MemSink,
    (number, first, mut brk): (u64, u64, Brk),
) -> (Result<Going, PortFault>, u64, u64) {
    let mut regs = registers(number, first, 0, 0);
    let going = call(&mut regs, memory, &mut brk, input, out);
    (going, regs.get(Reg::new(10)), brk.at)
}

// a0 after a read, or the fault.
fn read(
    memory: &mut Memory,
    input: &mut MemSource,
    out: &mut MemSink,
    [fd, addr, len]: [u64; 3],
) -> Result<u64, PortFault> {
    let mut brk = HEAP;
    let mut regs = registers(63, fd, addr, len);
    call(&mut regs, memory, &mut brk, input, out)?;
    Ok(regs.get(Reg::new(10)))
}

// a0 after a write, or the fault.
fn write(
    memory: &mut Memory,
    input: &mut MemSource,
    out: &mut MemSink,
    [fd, addr, len]: [u64; 3],
) -> Result<u64, PortFault> {
    let mut brk = HEAP;
    let mut regs = registers(64, fd, addr, len);
    call(&mut regs, memory, &mut brk, input, out)?;
    Ok(regs.get(Reg::new(10)))
}

#[test]
fn reads(rt: HostRuntime) -> Result<(), Fail> {
    let elf = executable(rt.alloc())?;
    let mut memory = build(rt.alloc(), &elf)?;
    let bytes = b"hello world".to_vec(rt.alloc())?;
    let mut input = MemSource::new(bytes, 1, vec![in rt.alloc(); 13]?);
    let mut out = MemSink::new(rt.alloc(), 0, Vec::new(rt.alloc()))?;
    for (words, want, left) in [
        ([3, 0x10008, 8], Ok(EBADF), 11),
        ([1, 0, 8], Ok(EBADF), 11),
        ([0, 0x10000, 8], Ok(EFAULT), 11),
        ([0, 0x10010, 1], Ok(EFAULT), 11),
        ([0, 0x1000C, 5], Ok(EFAULT), 11),
        ([0, 0x10008, u64::MAX], Ok(EFAULT), 11),
        ([0, 0x6000_0000, 0], Ok(0), 11),
        ([0, 0x1000B, 5], Ok(5), 6),
        ([0, 0x11000, 4096], Ok(6), 0),
        ([0, 0x10008, 8], Ok(0), 0),
        ([0, 0x10008, 8], Err(PortFault::Read), 0),
    ] {
        let told = read(&mut memory, &mut input, &mut out, words);
        assert_eq!(rt; told, want, "{words:?}");
        assert_eq!(rt; input.rest().len(), left, "{words:?}");
    }
    for (addr, want) in [
        (0x10008, 0x6F6C_6C65_6802_0100),
        (0x11000, 0x646C_726F_7720),
    ] {
        assert_eq!(rt; memory.load(addr, Width::Eight), Ok(want), "{addr:#x}");
    }
    Ok(())
}

#[test]
fn writes(rt: HostRuntime) -> Result<(), Fail> {
    let elf = executable(rt.alloc())?;
    let mut memory = build(rt.alloc(), &elf)?;
    let mut input = MemSource::new(Vec::new(rt.alloc()), 1, Vec::new(rt.alloc()));
    let mut out = MemSink::new(rt.alloc(), 100, vec![in rt.alloc(); 4]?)?;
    for (words, want, sent) in [
        ([1, 0x1000A, 3], Ok(3), 3),
        ([2, 0x1000E, 4], Ok(4), 7),
        ([0, 0x10008, 1], Ok(EBADF), 7),
        ([3, 0x10000, 1], Ok(EBADF), 7),
        ([1, 0x10000, 1], Ok(EFAULT), 7),
        ([1, 0x10007, 2], Ok(EFAULT), 7),
        ([1, 0x10016, 3], Ok(EFAULT), 7),
        ([2, u64::MAX, u64::MAX], Ok(EFAULT), 7),
        ([1, 0x6000_0000, 0], Ok(0), 7),
        ([1, 0x1000F, 2], Err(PortFault::Write), 8),
    ] {
        let told = write(&mut memory, &mut input, &mut out, words);
        assert_eq!(rt; told, want, "{words:?}");
        assert_eq!(rt; out.bytes().len(), sent, "{words:?}");
    }
    assert!(rt; out.bytes() == [2, 3, 4, 6, 7, 0, 1, 7].as_slice());
    Ok(())
}

#[test]
fn exits_breaks_and_unknown_numbers(rt: HostRuntime) -> Result<(), Fail> {
    let elf = executable(rt.alloc())?;
    let mut memory = build(rt.alloc(), &elf)?;
    let mut input = MemSource::new(Vec::new(rt.alloc()), 1, Vec::new(rt.alloc()));
    let mut out = MemSink::new(rt.alloc(), 0, Vec::new(rt.alloc()))?;
    let full = Brk {
        at: 0x101_1000,
        ..HEAP
    };
    for (asked, going, answer, at) in [
        ((93, 0, HEAP), Going::Exit(0), 0, 0x11000),
        ((93, 300, HEAP), Going::Exit(44), 300, 0x11000),
        ((94, u64::MAX, HEAP), Going::Exit(255), u64::MAX, 0x11000),
        ((214, 0, HEAP), Going::On, 0x11000, 0x11000),
        ((214, 0x10FFF, HEAP), Going::On, 0x11000, 0x11000),
        ((214, 0x11001, HEAP), Going::On, 0x11001, 0x11001),
        ((214, 0x101_1000, HEAP), Going::On, 0x101_1000, 0x101_1000),
        ((214, 0x101_1001, HEAP), Going::On, 0x11000, 0x11000),
        ((214, 0x11000, full), Going::On, 0x11000, 0x11000),
        ((1000, 5, HEAP), Going::On, ENOSYS, 0x11000),
        ((0, 5, HEAP), Going::On, ENOSYS, 0x11000),
    ] {
        let told = other(&mut memory, &mut input, &mut out, asked);
        assert_eq!(rt; told, (Ok(going), answer, at), "{asked:?}");
    }
    Ok(())
}
