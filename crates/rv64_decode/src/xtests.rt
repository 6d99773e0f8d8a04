// Words by hand from the fields of their forms.

use crate::{Instr, Reg, XInstr, aim, decode, decode_x, encode_x};
use std::process::Abort;

fn reg(number: u8) -> Reg {
    Reg::new(number % 32)
}

#[test]
fn added_instructions(rt: HostRuntime) {
    for (word, i) in [
        (
            0x0102_800B,
            XInstr::Put {
                slot: 16,
                rs1: reg(5),
            },
        ),
        (
            0x0000_000B,
            XInstr::Put {
                slot: 0,
                rs1: reg(0),
            },
        ),
        (
            0x01FF_800B,
            XInstr::Put {
                slot: 31,
                rs1: reg(31),
            },
        ),
        (
            0x0100_128B,
            XInstr::Get {
                rd: reg(5),
                slot: 16,
            },
        ),
        (
            0x0000_100B,
            XInstr::Get {
                rd: reg(0),
                slot: 0,
            },
        ),
        (
            0x01F0_1F8B,
            XInstr::Get {
                rd: reg(31),
                slot: 31,
            },
        ),
        (0x0000_200B, XInstr::Par),
        (0x0000_300B, XInstr::Join),
        (0x0000_400B, XInstr::Back),
        (0x0000_528B, XInstr::Id { rd: reg(5) }),
        (0x0000_500B, XInstr::Id { rd: reg(0) }),
        (0x0000_5F8B, XInstr::Id { rd: reg(31) }),
        (0x0000_630B, XInstr::Harts { rd: reg(6) }),
        (0x0000_600B, XInstr::Harts { rd: reg(0) }),
        (0x0000_6F8B, XInstr::Harts { rd: reg(31) }),
    ] {
        assert_eq!(rt; decode_x(word), Some(i), "of {word:08x}");
        assert_eq!(rt; encode_x(i), Some(word), "of {i:?}");
        assert_eq!(rt; decode(word), None, "of {word:08x}");
    }
}

#[test]
fn slots_above_31_have_no_word(rt: HostRuntime) {
    for slot in [32, 33, 64, 255] {
        assert_eq!(rt;
            encode_x(XInstr::Put { slot, rs1: reg(5) }),
            None,
            "of {slot}"
        );
        assert_eq!(rt;
            encode_x(XInstr::Get { rd: reg(5), slot }),
            None,
            "of {slot}"
        );
    }
    let base = Instr::Jal { rd: reg(0), imm: 1 };
    assert_eq!(rt; encode_x(XInstr::Base(base)), None);
}

#[test]
fn words_of_neither_table(rt: HostRuntime) {
    for word in [
        // put with rd, get with rs1, and either with a bit above its fields
        0x0102_808B,
        0x0100_928B,
        0x0302_800B,
        0x8100_128B,
        // par, join and back with rd, rs1, rs2 and bit 25
        0x0000_208B,
        0x0000_A00B,
        0x0010_200B,
        0x0200_200B,
        0x0000_308B,
        0x000F_B00B,
        0x01F0_300B,
        0x4000_300B,
        0x0000_4F8B,
        0x0000_C00B,
        0x0100_400B,
        0x0200_400B,
        // id and harts with rs1, rs2 and bit 25
        0x0000_D28B,
        0x0010_528B,
        0x0200_528B,
        0x0000_E30B,
        0x0100_630B,
        0x0200_630B,
        // function number 7, and custom-1
        0x0000_700B,
        0x0102_802B,
        // words outside RV64IM
        0x0000_0000,
        0x0000_100F,
        0x0201_151B,
        0xFFFF_FFFF,
    ] {
        assert_eq!(rt; decode_x(word), None, "of {word:08x}");
    }
}

#[test]
fn open_jumps_get_their_target(rt: HostRuntime) {
    // addi, an open jump, jal to the next word, an open jump, jal on x1 with offset 0
    let mut code = [
        0x05D0_0893,
        0x0000_006F,
        0x0040_006F,
        0x0000_006F,
        0x0000_00EF,
    ];
    aim(&mut code, 6);
    assert_eq!(rt;
        code,
        [
            0x05D0_0893,
            0x0140_006F,
            0x0040_006F,
            0x00C0_006F,
            0x0000_00EF
        ]
    );
    let mut back = [0x0000_006F, 0x0000_006F];
    aim(&mut back, 0);
    assert_eq!(rt; back, [0x0000_006F, 0xFFDF_F06F]);
    let mut none: [u32; 2] = [0x0000_0013, 0x0000_00EF];
    aim(&mut none, u32::MAX);
    assert_eq!(rt; none, [0x0000_0013, 0x0000_00EF]);
}
