ghost use Rattle.std.specs.Prelude.{◌≤◌, length, IfOk};
ghost use Rattle.elf_image.specs.Layout.{IsLoadable};

use crate::{End, Machine, Ran, run_counted, run_serial, start, step_serial};
use elf_image::{Bytes, Elf, Segment, Segments};
use outside_ports::{MemSink, MemSource};
use rv64_decode::{Fault, MemFault, Reg};
use std::alloc::{AllocError, Global};
use std::test::Fail;

// li a0, 1; lui a1, 0x10; addi a1, a1, 0x9C; li a2, 6; li a7, 64; ecall; li a0, 0; li a7, 93; ecall;
// and the text.
const HELLO: [u8; 42] = [
    0x13, 0x05, 0x10, 0x00, 0xB7, 0x05, 0x01, 0x00, 0x93, 0x85, 0xC5, 0x09, 0x13, 0x06, 0x60, 0x00,
    0x93, 0x08, 0x00, 0x04, 0x73, 0x00, 0x00, 0x00, 0x13, 0x05, 0x00, 0x00, 0x93, 0x08, 0xD0, 0x05,
    0x73, 0x00, 0x00, 0x00, b'h', b'e', b'l', b'l', b'o', b'\n',
];

// A segment of 162 bytes at 0x10000, which has this code at 0x10078, where it starts.
fn executable(alloc: Global, code: &[u8]) -> Result<Elf, AllocError>
    requires { length code.now ≤ 42 }
    ensures { IfOk result (λ elf. IsLoadable elf) }
{
    let mut bytes = vec![in alloc; 0; 120]?;
    bytes.extend_from_slice(code)?;
    let mut segments = Vec::new(alloc);
    segments.push(Segment {
        index: 0,
        vaddr: 0x10000,
        memsz: 162,
        flags: 5,
        bytes: Bytes::new(bytes),
    })?;
    Ok(Elf {
        entry: 0x10078,
        segments: Segments::new(segments),
    })
}

fn machine(alloc: Global, code: &[u8]) -> Result<Machine, AllocError>
    requires { length code.now ≤ 42 }
{
    let elf = executable(alloc, code)?;
    start(alloc, &elf)
}

// How a run ends, where pc is then, and the output.
fn run(alloc: Global, code: &[u8], fuel: u64) -> Result<(Ran, u64, Vec<u8>), AllocError>
    requires { length code.now ≤ 42 }
{
    let mut m = machine(alloc, code)?;
    let mut input = MemSource::new(Vec::new(alloc), 1, Vec::new(alloc));
    let mut out = MemSink::new(alloc, 16, Vec::new(alloc))?;
    let ran = run_counted(&mut m, fuel, &mut input, &mut out);
    Ok((ran, m.pc, out.into_bytes()))
}

#[test]
fn hello_needs_nine_instructions(rt: HostRuntime) -> Result<(), Fail> {
    for (fuel, want, at, text) in [
        (
            9,
            Ran {
                end: End::Exited(0),
                steps: 9,
            },
            0x10098,
            "hello\n",
        ),
        (
            1000,
            Ran {
                end: End::Exited(0),
                steps: 9,
            },
            0x10098,
            "hello\n",
        ),
        (
            8,
            Ran {
                end: End::Spent,
                steps: 8,
            },
            0x10098,
            "hello\n",
        ),
        (
            5,
            Ran {
                end: End::Spent,
                steps: 5,
            },
            0x1008C,
            "",
        ),
    ] {
        let (ran, pc, written) = run(rt.alloc(), &HELLO, fuel)?;
        assert_eq!(rt; ran, want, "{fuel}");
        assert_eq!(rt; pc, at, "{fuel}");
        assert!(rt; written.as_slice() == text.as_bytes(), "{fuel}");
    }
    Ok(())
}

#[test]
fn jumps_to_itself_and_faults(rt: HostRuntime) -> Result<(), Fail> {
    let fault = |kind, addr| Ran {
        end: End::Faulted {
            kind,
            pc: 0x10078,
            addr,
        },
        steps: 1,
    };
    let spent = |steps| Ran {
        end: End::Spent,
        steps,
    };
    for (word, fuel, want) in [
        (0x0000_006F, 1000, spent(1000)),
        (0x0000_0053, 0, spent(0)),
        (0x0000_0053, 7, fault(Fault::Illegal, 0x53)),
        (0x0010_0073, 7, fault(Fault::Break, 0x10078)),
        (0x0020_006F, 7, fault(Fault::Target, 0x1007A)),
    ] {
        let code: u32 = word;
        let (ran, pc, written) = run(rt.alloc(), &code.to_le_bytes(), fuel)?;
        assert_eq!(rt; ran, want, "{word:#x}");
        assert_eq!(rt; pc, 0x10078, "{word:#x}");
        assert!(rt; written.is_empty(), "{word:#x}");
    }
    Ok(())
}

#[test]
fn nothing_follows_the_ending(rt: HostRuntime) -> Result<(), Fail> {
    let mut m = machine(rt.alloc(), &HELLO)?;
    let mut input = MemSource::new(b"rest".to_vec(rt.alloc())?, 1, Vec::new(rt.alloc()));
    let mut out = MemSink::new(rt.alloc(), 16, Vec::new(rt.alloc()))?;
    assert_eq!(rt; step_serial(&mut m, &mut input, &mut out), None);
    assert_eq!(rt; run_serial(&mut m, 7, &mut input, &mut out), End::Spent);
    let end = End::Exited(0);
    assert_eq!(rt; step_serial(&mut m, &mut input, &mut out), Some(end));
    assert_eq!(rt; step_serial(&mut m, &mut input, &mut out), Some(end));
    assert_eq!(rt; run_serial(&mut m, 7, &mut input, &mut out), end);
    let again = run_counted(&mut m, 7, &mut input, &mut out);
    assert_eq!(rt; again, Ran { end, steps: 0 });
    assert_eq!(rt; m.pc, 0x10098);
    assert_eq!(rt; input.rest().len(), 4);
    assert!(rt; out.bytes() == b"hello\n".as_slice());
    Ok(())
}

// Four words of code.
fn code_of(words: [u32; 4]) -> [u8; 16] {
    let mut code = [0; 16];
    code[0..4].copy_from_slice(&words[0].to_le_bytes());
    code[4..8].copy_from_slice(&words[1].to_le_bytes());
    code[8..12].copy_from_slice(&words[2].to_le_bytes());
    code[12..16].copy_from_slice(&words[3].to_le_bytes());
    code
}

// What x6 holds after four instructions, the first two of which set x5 to 0xFFFFFFFF8182F384: lui x5,
// 0x8182F and addi x5, x5, 0x384.
fn x6_after(alloc: Global, third: u32, fourth: u32) -> Result<u64, AllocError> {
    let mut m = machine(alloc, &code_of([0x8182_F2B7, 0x3842_8293, third, fourth]))?;
    let mut input = MemSource::new(Vec::new(alloc), 1, Vec::new(alloc));
    let mut out = MemSink::new(alloc, 0, Vec::new(alloc))?;
    let _ = run_serial(&mut m, 4, &mut input, &mut out);
    Ok(m.regs.get(Reg::new(6)))
}

// Loads from and stores to -64(x2), which is on the stack, in every width, by what the manual says of
// sign and zero extension.
#[test]
fn loads_and_stores_have_their_widths(rt: HostRuntime) -> Result<(), Fail> {
    let sd = 0xFC51_3023;
    for (load, want) in [
        (0xFC01_0303, 0xFFFF_FFFF_FFFF_FF84),
        (0xFC01_1303, 0xFFFF_FFFF_FFFF_F384),
        (0xFC01_2303, 0xFFFF_FFFF_8182_F384),
        (0xFC01_3303, 0xFFFF_FFFF_8182_F384),
        (0xFC01_4303, 0x84),
        (0xFC01_5303, 0xF384),
        (0xFC01_6303, 0x8182_F384),
    ] {
        assert_eq!(rt; x6_after(rt.alloc(), sd, load)?, want, "{load:#x}");
    }
    let ld = 0xFC01_3303;
    for (store, want) in [
        (0xFC51_0023, 0x84),
        (0xFC51_1023, 0xF384),
        (0xFC51_2023, 0x8182_F384),
        (0xFC51_3023, 0xFFFF_FFFF_8182_F384),
    ] {
        assert_eq!(rt; x6_after(rt.alloc(), store, ld)?, want, "{store:#x}");
    }
    Ok(())
}

// lui a1, 0x7F700; li a2, 4; li a7, 63; ecall, to a source that gives a byte and then fails: the machine
// stays at the call, and all else is as it was.
#[test]
fn ends_by_the_source(rt: HostRuntime) -> Result<(), Fail> {
    let code = code_of([0x7F70_05B7, 0x0040_0613, 0x03F0_0893, 0x0000_0073]);
    let mut m = machine(rt.alloc(), &code)?;
    let fails = vec![in rt.alloc(); 1]?;
    let mut input = MemSource::new(b"rest".to_vec(rt.alloc())?, 1, fails);
    let mut out = MemSink::new(rt.alloc(), 16, Vec::new(rt.alloc()))?;
    let want = Ran {
        end: End::ReadFault,
        steps: 4,
    };
    assert_eq!(rt; run_counted(&mut m, 9, &mut input, &mut out), want);
    assert_eq!(rt; m.pc, 0x10084);
    assert_eq!(rt; m.regs.get(Reg::new(10)), 0);
    assert_eq!(rt; m.regs.get(Reg::new(12)), 4);
    assert_eq!(rt; run_serial(&mut m, 9, &mut input, &mut out), End::ReadFault);
    assert_eq!(rt; input.rest().len(), 3);
    assert!(rt; out.bytes().is_empty());
    Ok(())
}

// auipc x5, 0; lw x6, 0(x5), in an area that may be executed alone.
#[test]
fn code_that_may_not_be_read(rt: HostRuntime) -> Result<(), Fail> {
    let code = code_of([0x0000_0297, 0x0002_A303, 0, 0]);
    let mut segments = Vec::new(rt.alloc());
    segments.push(Segment {
        index: 0,
        vaddr: 0x10000,
        memsz: 16,
        flags: 1,
        bytes: Bytes::new(code.to_vec(rt.alloc())?),
    })?;
    let elf = Elf {
        entry: 0x10000,
        segments: Segments::new(segments),
    };
    let mut m = start(rt.alloc(), &elf)?;
    let mut input = MemSource::new(Vec::new(rt.alloc()), 1, Vec::new(rt.alloc()));
    let mut out = MemSink::new(rt.alloc(), 0, Vec::new(rt.alloc()))?;
    let end = End::Faulted {
        kind: Fault::Load(MemFault::Denied),
        pc: 0x10004,
        addr: 0x10000,
    };
    assert_eq!(rt;
        run_counted(&mut m, 9, &mut input, &mut out),
        Ran { end, steps: 2 }
    );
    Ok(())
}

// Jumps past the area's end, and a write to a sink that fails.
#[test]
fn ends_outside_code_and_by_the_sink(rt: HostRuntime) -> Result<(), Fail> {
    // nothing at the first address that is no code, which jal x0, 0x30 reaches
    let (ran, pc, _) = run(rt.alloc(), &[0x6F, 0x00, 0x00, 0x03], 9)?;
    let end = End::Faulted {
        kind: Fault::Fetch,
        pc: 0x100A8,
        addr: 0x100A8,
    };
    assert_eq!(rt; ran, Ran { end, steps: 2 });
    assert_eq!(rt; pc, 0x100A8);
    let mut m = machine(rt.alloc(), &HELLO)?;
    let mut input = MemSource::new(Vec::new(rt.alloc()), 1, Vec::new(rt.alloc()));
    let mut out = MemSink::new(rt.alloc(), 3, Vec::new(rt.alloc()))?;
    let ran = run_counted(&mut m, 9, &mut input, &mut out);
    assert_eq!(rt;
        ran,
        Ran {
            end: End::WriteFault,
            steps: 6
        }
    );
    assert!(rt; out.bytes() == b"hel".as_slice());
    Ok(())
}

// lui x5, 0x20; ld x6, 0(x5); ld x7, 8(x5); ld x8, 16(x5), beside a segment of six bytes from 0x20005 on,
// of which the file has four.
#[test]
fn bytes_round_a_segment_are_read_as_zero(rt: HostRuntime) -> Result<(), Fail> {
    let code = code_of([0x0002_02B7, 0x0002_B303, 0x0082_B383, 0x0102_B403]);
    let mut segments = Vec::new(rt.alloc());
    segments.push(Segment {
        index: 0,
        vaddr: 0x10000,
        memsz: 16,
        flags: 5,
        bytes: Bytes::new(code.to_vec(rt.alloc())?),
    })?;
    segments.push(Segment {
        index: 1,
        vaddr: 0x20005,
        memsz: 6,
        flags: 6,
        bytes: Bytes::new(vec![in rt.alloc(); 0xA1, 0xA2, 0xA3, 0xA4]?),
    })?;
    let elf = Elf {
        entry: 0x10000,
        segments: Segments::new(segments),
    };
    let mut m = start(rt.alloc(), &elf)?;
    let mut input = MemSource::new(Vec::new(rt.alloc()), 1, Vec::new(rt.alloc()));
    let mut out = MemSink::new(rt.alloc(), 0, Vec::new(rt.alloc()))?;
    let end = End::Faulted {
        kind: Fault::Load(MemFault::Unmapped),
        pc: 0x1000C,
        addr: 0x20010,
    };
    assert_eq!(rt;
        run_counted(&mut m, 9, &mut input, &mut out),
        Ran { end, steps: 4 }
    );
    assert_eq!(rt; m.regs.get(Reg::new(6)), 0xA3A2_A100_0000_0000);
    assert_eq!(rt; m.regs.get(Reg::new(7)), 0xA4);
    Ok(())
}
