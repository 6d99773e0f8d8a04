use crate::{ElfErr, read_elf};
use std::alloc::{AllocError, Global};
use std::test::Fail;

// A program that writes `hello` and ends: an ELF header, one program header, nine words at 0x10078 and
// the text.
static HELLO: [u8; 162] = [
    0x7f, 0x45, 0x4c, 0x46, 0x02, 0x01, 0x01, 0x00, 0x00, 0x00, 0x00, 0x00, 0x00, 0x00, 0x00, 0x00,
    0x02, 0x00, 0xf3, 0x00, 0x01, 0x00, 0x00, 0x00, 0x78, 0x00, 0x01, 0x00, 0x00, 0x00, 0x00, 0x00,
    0x40, 0x00, 0x00, 0x00, 0x00, 0x00, 0x00, 0x00, 0x00, 0x00, 0x00, 0x00, 0x00, 0x00, 0x00, 0x00,
    0x00, 0x00, 0x00, 0x00, 0x40, 0x00, 0x38, 0x00, 0x01, 0x00, 0x00, 0x00, 0x00, 0x00, 0x00, 0x00,
    0x01, 0x00, 0x00, 0x00, 0x05, 0x00, 0x00, 0x00, 0x00, 0x00, 0x00, 0x00, 0x00, 0x00, 0x00, 0x00,
    0x00, 0x00, 0x01, 0x00, 0x00, 0x00, 0x00, 0x00, 0x00, 0x00, 0x01, 0x00, 0x00, 0x00, 0x00, 0x00,
    0xa2, 0x00, 0x00, 0x00, 0x00, 0x00, 0x00, 0x00, 0xa2, 0x00, 0x00, 0x00, 0x00, 0x00, 0x00, 0x00,
    0x00, 0x10, 0x00, 0x00, 0x00, 0x00, 0x00, 0x00, 0x13, 0x05, 0x10, 0x00, 0xb7, 0x05, 0x01, 0x00,
    0x93, 0x85, 0xc5, 0x09, 0x13, 0x06, 0x60, 0x00, 0x93, 0x08, 0x00, 0x04, 0x73, 0x00, 0x00, 0x00,
    0x13, 0x05, 0x00, 0x00, 0x93, 0x08, 0xd0, 0x05, 0x73, 0x00, 0x00, 0x00, 0x68, 0x65, 0x6c, 0x6c,
    0x6f, 0x0a,
];

// The words of an ELF header with six program headers behind it, of 400 bytes together: code at
// 0x10000, data at 0x20000, and four headers that are not read, the last of which lies too high.
static SIX_HEADERS: [u32; 100] = [
    // The ELF header.
    0x464c_457f,
    0x0001_0102,
    0,
    0,
    0x00f3_0002,
    0x0000_0001,
    0x0001_0190,
    0,
    0x0000_0040,
    0,
    0,
    0,
    0,
    0x0038_0040,
    0x0000_0006,
    0,
    // Code: 0x400 bytes, readable and executable.
    1,
    5,
    0,
    0,
    0x0001_0000,
    0,
    0x0001_0000,
    0,
    0x0000_0400,
    0,
    0x0000_0400,
    0,
    0x0000_1000,
    0,
    // Data: 0x18 zero bytes, readable and writable.
    1,
    6,
    0,
    0,
    0x0002_0000,
    0,
    0x0002_0000,
    0,
    0,
    0,
    0x0000_0018,
    0,
    0x0000_1000,
    0,
    // A type beside that of the mark.
    0x6550_5200,
    0,
    0,
    0,
    0,
    0,
    0,
    0,
    0,
    0,
    0,
    0,
    0,
    0,
    // No type.
    0,
    0,
    0,
    0,
    0,
    0,
    0,
    0,
    0,
    0,
    0,
    0,
    0,
    0,
    // No type.
    0,
    0,
    0,
    0,
    0,
    0,
    0,
    0,
    0,
    0,
    0,
    0,
    0,
    0,
    // No type, at 0x50000000.
    0,
    4,
    0,
    0,
    0x5000_0000,
    0,
    0x5000_0000,
    0,
    0,
    0,
    8,
    0,
    0x0000_1000,
    0,
];

// One byte of a file that is changed, and the rule that it breaks.
#[derive(Clone, Copy)]
struct Change {
    place: usize,
    value: u8,
    refusal: ElfErr,
}

// A change for each rule but those on the length, in the order of the rules.
static CHANGES: [Change; 19] = [
    Change {
        place: 0,
        value: 0x7e,
        refusal: ElfErr::NotElf,
    },
    Change {
        place: 4,
        value: 1,
        refusal: ElfErr::Class(1),
    },
    Change {
        place: 5,
        value: 2,
        refusal: ElfErr::ByteOrder(2),
    },
    Change {
        place: 6,
        value: 0,
        refusal: ElfErr::Version(0),
    },
    Change {
        place: 21,
        value: 1,
        refusal: ElfErr::Version(257),
    },
    Change {
        place: 16,
        value: 3,
        refusal: ElfErr::FileType(3),
    },
    Change {
        place: 18,
        value: 62,
        refusal: ElfErr::Machine(62),
    },
    Change {
        place: 48,
        value: 1,
        refusal: ElfErr::Flags(1),
    },
    Change {
        place: 54,
        value: 57,
        refusal: ElfErr::HeaderSize(57),
    },
    Change {
        place: 56,
        value: 65,
        refusal: ElfErr::TooManyHeaders { count: 65 },
    },
    Change {
        place: 176,
        value: 1,
        refusal: ElfErr::Marked { index: 2 },
    },
    Change {
        place: 105,
        value: 3,
        refusal: ElfErr::SegmentSize { index: 0 },
    },
    Change {
        place: 74,
        value: 1,
        refusal: ElfErr::SegmentCut { index: 0 },
    },
    Change {
        place: 232,
        value: 3,
        refusal: ElfErr::Dynamic { index: 3 },
    },
    Change {
        place: 68,
        value: 7,
        refusal: ElfErr::WritableCode { index: 0 },
    },
    Change {
        place: 344,
        value: 1,
        refusal: ElfErr::Range { index: 5 },
    },
    Change {
        place: 163,
        value: 0x10,
        refusal: ElfErr::TooMuchMemory { bytes: 0x1000_0418 },
    },
    Change {
        place: 138,
        value: 1,
        refusal: ElfErr::Overlap {
            first: 0,
            second: 1,
        },
    },
    Change {
        place: 24,
        value: 0x91,
        refusal: ElfErr::EntryOutside { entry: 0x10191 },
    },
];

// The file with six headers, with so many bytes in all.
fn six_headers(alloc: Global, size: usize) -> Result<Vec<u8>, AllocError> {
    let mut bytes = Vec::new(alloc);
    for word in SIX_HEADERS {
        bytes.extend_from_slice(&word.to_le_bytes())?;
    }
    bytes.resize(size, 0)?;
    Ok(bytes)
}

fn set_byte(bytes: &mut Vec<u8>, place: usize, value: u8) {
    if let Some(byte) = bytes.get_mut(place) {
        *byte = value;
    }
}

#[test]
fn reads_hello(rt: HostRuntime) -> Result<(), Fail> {
    let elf = read_elf(rt.alloc(), &HELLO)?;
    assert_eq!(rt; elf.entry, 0x10078);
    assert_eq!(rt; elf.segments.as_slice().len(), 1);
    for segment in elf.segments.as_slice() {
        assert_eq!(rt; segment.index, 0);
        assert_eq!(rt; segment.vaddr, 0x10000);
        assert_eq!(rt; segment.memsz, 162);
        assert_eq!(rt; segment.flags, 5);
        assert_eq!(rt; segment.bytes.as_slice(), HELLO.as_slice());
    }
    Ok(())
}

// Code lies above the data, though its header comes first.
#[test]
fn segments_come_in_address_order(rt: HostRuntime) -> Result<(), Fail> {
    let mut bytes = six_headers(rt.alloc(), 4096)?;
    set_byte(&mut bytes, 138, 0);
    set_byte(&mut bytes, 137, 0x80);
    let elf = read_elf(rt.alloc(), bytes.as_slice())?;
    let segments = elf.segments.as_slice();
    assert_eq!(rt; segments.len(), 2);
    for (segment, want) in segments
        .iter()
        .zip([(1, 0x8000, 0x18, 0), (0, 0x10000, 0x400, 0x400)])
    {
        let (index, vaddr, memsz, filesz) = want;
        assert_eq!(rt; segment.index, index);
        assert_eq!(rt; segment.vaddr, vaddr);
        assert_eq!(rt; segment.memsz, memsz);
        assert_eq!(rt; segment.bytes.as_slice().len(), filesz);
    }
    Ok(())
}

// Where two rules are broken, the answer is the earlier one.
#[test]
fn first_broken_rule_is_answered(rt: HostRuntime) -> Result<(), Fail> {
    assert!(rt; read_elf(rt.alloc(), six_headers(rt.alloc(), 4096)?.as_slice()).is_ok());
    for (i, first) in CHANGES.iter().enumerate() {
        for second in CHANGES.iter().skip(i) {
            let mut bytes = six_headers(rt.alloc(), 4096)?;
            set_byte(&mut bytes, second.place, second.value);
            set_byte(&mut bytes, first.place, first.value);
            let error = read_elf(rt.alloc(), bytes.as_slice()).err();
            assert_eq!(rt; error, Some(first.refusal));
        }
    }
    Ok(())
}

// The rules on the length, each beside every other rule.
#[test]
fn lengths_are_refused(rt: HostRuntime) -> Result<(), Fail> {
    let mut long = six_headers(rt.alloc(), 67_108_865)?;
    let too_long = Some(ElfErr::TooLong { length: 67_108_865 });
    assert_eq!(rt; read_elf(rt.alloc(), long.as_slice()).err(), too_long);
    for (i, second) in CHANGES.iter().enumerate() {
        set_byte(&mut long, second.place, second.value);
        assert_eq!(rt; read_elf(rt.alloc(), long.as_slice()).err(), too_long);

        let mut short = six_headers(rt.alloc(), 63)?;
        set_byte(&mut short, second.place, second.value);
        let error = read_elf(rt.alloc(), short.as_slice()).err();
        if i == 0 {
            assert_eq!(rt; error, Some(ElfErr::NotElf));
        } else {
            assert_eq!(rt; error, Some(ElfErr::HeaderCut { need: 64, have: 63 }));
        }
    }
    long.truncate(67_108_864);
    set_byte(&mut long, 0, 0x7f);
    assert_eq!(rt;
        read_elf(rt.alloc(), long.as_slice()).err(),
        Some(ElfErr::Class(1))
    );
    Ok(())
}

// The end of the program headers, for numbers that a sum of 64 bits does not hold; the headers' rules
// at their limits.
#[test]
fn limits_are_exact(rt: HostRuntime) -> Result<(), Fail> {
    let cut = |need| Some(ElfErr::HeaderCut { need, have: 4096 });
    for (changes, want) in [
        // e_phoff
        ([(33, 0x10), (33, 0x10), (33, 0x10)], cut(4160 + 336)),
        (
            [(39, 0x80), (39, 0x80), (39, 0x80)],
            cut(9_223_372_036_854_776_208),
        ),
        ([(33, 0x10), (56, 65), (56, 65)], cut(4160 + 3640)),
        // e_phnum
        ([(56, 64), (56, 64), (56, 64)], None),
        (
            [(56, 0), (56, 0), (56, 0)],
            Some(ElfErr::EntryOutside { entry: 0x10190 }),
        ),
        (
            [(56, 0), (54, 57), (39, 0x80)],
            Some(ElfErr::EntryOutside { entry: 0x10190 }),
        ),
        // p_filesz and p_offset of the code
        ([(97, 4), (105, 4), (72, 0)], None),
        ([(105, 3), (97, 3), (72, 0)], None),
        ([(73, 0x0c), (73, 0x0c), (73, 0x0c)], None),
        (
            [(73, 0x0c), (72, 1), (72, 1)],
            Some(ElfErr::SegmentCut { index: 0 }),
        ),
        (
            [(79, 0xff), (103, 0xff), (111, 0xff)],
            Some(ElfErr::SegmentCut { index: 0 }),
        ),
        // PT_DYNAMIC, PT_INTERP and PT_NOTE
        (
            [(288, 2), (288, 2), (288, 2)],
            Some(ElfErr::Dynamic { index: 4 }),
        ),
        (
            [(288, 2), (232, 3), (232, 3)],
            Some(ElfErr::Dynamic { index: 3 }),
        ),
        ([(288, 4), (232, 4), (232, 4)], None),
        // p_vaddr and p_memsz of the last header
        ([(344, 1), (363, 0x4f), (363, 0x4f)], None),
        ([(344, 1), (384, 0), (384, 0)], None),
        (
            [(344, 1), (367, 0xff), (391, 0xff)],
            Some(ElfErr::Range { index: 5 }),
        ),
        // e_entry
        ([(25, 3), (24, 0xfc), (24, 0xfc)], None),
        (
            [(25, 4), (24, 0), (24, 0)],
            Some(ElfErr::EntryOutside { entry: 0x10400 }),
        ),
        (
            [(26, 2), (25, 0), (24, 0)],
            Some(ElfErr::EntryOutside { entry: 0x20000 }),
        ),
    ] {
        let mut bytes = six_headers(rt.alloc(), 4096)?;
        for (place, value) in changes {
            set_byte(&mut bytes, place, value);
        }
        let error = read_elf(rt.alloc(), bytes.as_slice()).err();
        assert_eq!(rt; error, want);
    }
    Ok(())
}

// The end of the data at the end of loads; its memory together with that of the code, at the limit; and its
// range behind that of the code. Each is accepted where it just fits, and refused one byte or word later.
#[test]
fn ends_of_ranges_and_sums_are_exact(rt: HostRuntime) -> Result<(), Fail> {
    let overlap = Some(ElfErr::Overlap {
        first: 0,
        second: 1,
    });
    for (changes, want) in [
        // p_vaddr and p_memsz of the data: it ends at 0x50000000, or a byte later
        (
            [
                (136, 0xe8),
                (137, 0xff),
                (138, 0xff),
                (139, 0x4f),
                (160, 0x18),
            ],
            None,
        ),
        (
            [
                (136, 0xe8),
                (137, 0xff),
                (138, 0xff),
                (139, 0x4f),
                (160, 0x19),
            ],
            Some(ElfErr::Range { index: 1 }),
        ),
        // p_memsz of the data: with the 0x400 bytes of code 0x10000000 together, or 8 more
        (
            [(160, 0), (161, 0xfc), (162, 0xff), (163, 0x0f), (163, 0x0f)],
            None,
        ),
        (
            [(160, 1), (161, 0xfc), (162, 0xff), (163, 0x0f), (163, 0x0f)],
            Some(ElfErr::TooMuchMemory { bytes: 0x1000_0008 }),
        ),
        // p_vaddr of the data: the code ends at 0x10400, or with p_memsz 0x401, widened, at 0x10408
        ([(136, 0), (137, 4), (138, 1), (138, 1), (138, 1)], None),
        ([(136, 7), (137, 4), (138, 1), (138, 1), (138, 1)], None),
        (
            [(136, 0xff), (137, 3), (138, 1), (138, 1), (138, 1)],
            overlap,
        ),
        ([(136, 8), (137, 4), (138, 1), (104, 1), (138, 1)], None),
        ([(136, 7), (137, 4), (138, 1), (104, 1), (138, 1)], overlap),
    ] {
        let mut bytes = six_headers(rt.alloc(), 4096)?;
        for (place, value) in changes {
            set_byte(&mut bytes, place, value);
        }
        let error = read_elf(rt.alloc(), bytes.as_slice()).err();
        assert_eq!(rt; error, want);
    }
    Ok(())
}

// A file of 4096 bytes with so many load segments, of at most 64: the code, and behind it 8 bytes of data
// each.
fn load_headers(alloc: Global, count: u8) -> Result<Vec<u8>, AllocError> {
    let mut bytes = Vec::new(alloc);
    for word in &SIX_HEADERS[..30] {
        bytes.extend_from_slice(&word.to_le_bytes())?;
    }
    for i in 1..count {
        let low = 0x20000 + 16 * u32::from(i);
        for word in [1, 6, 0, 0, low, 0, low, 0, 0, 0, 8, 0, 8, 0] {
            bytes.extend_from_slice(&word.to_le_bytes())?;
        }
    }
    bytes.resize(4096, 0)?;
    set_byte(&mut bytes, 56, count);
    Ok(bytes)
}

#[test]
fn each_of_many_headers_is_read(rt: HostRuntime) -> Result<(), Fail> {
    for count in [1, 16, 17, 33, 64] {
        let bytes = load_headers(rt.alloc(), count)?;
        let elf = read_elf(rt.alloc(), bytes.as_slice())?;
        let segments = elf.segments.as_slice();
        assert_eq!(rt; segments.len(), usize::from(count));
        for (index, segment) in segments.iter().enumerate().skip(1) {
            assert_eq!(rt; segment.index as usize, index, "{count}");
            assert_eq!(rt;
                segment.vaddr,
                0x20000 + 16 * u64::from(segment.index),
                "{count}"
            );
            assert_eq!(rt; segment.memsz, 8, "{count}");
        }
    }
    Ok(())
}
