use std::alloc::{AllocError, Global};

// A program that is looked at.
pub enum Program {
    // Fills two arrays of 1,000 numbers, adds them into a third in the loop at 0x100f0, and sums that up in the
    // loop at 0x1011c.
    Adds,
    // Fills a square of 102 numbers a side, sets each inner one of another to the sum of its four neighbours in
    // the nest at 0x100ec, whose inner loop is at 0x10104, and sums that up.
    Neighbours,
    // Stores a counter at a pointer and 8 times the counter, with counter, pointer and bound in memory; the header
    // of the loop is its test, at 0x100a0.
    Counter,
    // These words at 0x10078, and behind them a call that ends the run.
    Code(&'static [u32]),
}

static COUNTER: [u32; 13] = [
    0x0280_006f, // 0x10078: jal x0,40
    0xfe84_3783, // 0x1007c: ld a5,-24(s0)
    0x0037_9793, // 0x10080: slli a5,a5,3
    0xfd84_3703, // 0x10084: ld a4,-40(s0)
    0x00f7_07b3, // 0x10088: add a5,a4,a5
    0xfe84_3703, // 0x1008c: ld a4,-24(s0)
    0x00e7_b023, // 0x10090: sd a4,0(a5)
    0xfe84_3783, // 0x10094: ld a5,-24(s0)
    0x0017_8793, // 0x10098: addi a5,a5,1
    0xfef4_3423, // 0x1009c: sd a5,-24(s0)
    0xfe84_3703, // 0x100a0: ld a4,-24(s0)
    0xfd04_3783, // 0x100a4: ld a5,-48(s0)
    0xfcf7_4ae3, // 0x100a8: blt a4,a5,-44
];

static ADDS: [u32; 84] = [
    0x464c_457f,
    0x0001_0102,
    0x0000_0000,
    0x0000_0000,
    0x00f3_0002,
    0x0000_0001,
    0x0001_00b0,
    0x0000_0000,
    0x0000_0040,
    0x0000_0000,
    0x0000_0000,
    0x0000_0000,
    0x0000_0000,
    0x0038_0040,
    0x0000_0002,
    0x0000_0000,
    0x0000_0001,
    0x0000_0005,
    0x0000_0000,
    0x0000_0000,
    0x0001_0000,
    0x0000_0000,
    0x0001_0000,
    0x0000_0000,
    0x0000_0150,
    0x0000_0000,
    0x0000_0150,
    0x0000_0000,
    0x0000_1000,
    0x0000_0000,
    0x0000_0001,
    0x0000_0006,
    0x0000_0000,
    0x0000_0000,
    0x0002_0000,
    0x0000_0000,
    0x0002_0000,
    0x0000_0000,
    0x0000_0000,
    0x0000_0000,
    0x0000_5dc0,
    0x0000_0000,
    0x0000_1000,
    0x0000_0000,
    0x0002_05b7, // 0x100b0: lui a1,0x20
    0x0000_24b7, // 0x100b4: lui s1,0x2
    0xf404_849b, // 0x100b8: addiw s1,s1,-192
    0x0095_8633, // 0x100bc: add a2,a1,s1
    0x0096_0533, // 0x100c0: add a0,a2,s1
    0x0006_0693, // 0x100c4: addi a3,a2,0
    0x0000_0293, // 0x100c8: addi t0,x0,0
    0x0055_b023, // 0x100cc: sd t0,0(a1)
    0x0052_8333, // 0x100d0: add t1,t0,t0
    0x0066_3023, // 0x100d4: sd t1,0(a2)
    0x0012_8293, // 0x100d8: addi t0,t0,1
    0x0085_8593, // 0x100dc: addi a1,a1,8
    0x0086_0613, // 0x100e0: addi a2,a2,8
    0xfed5_94e3, // 0x100e4: bne a1,a3,-24
    0x4095_85b3, // 0x100e8: sub a1,a1,s1
    0x4096_0633, // 0x100ec: sub a2,a2,s1
    0x0005_b703, // 0x100f0: ld a4,0(a1)
    0x0006_3783, // 0x100f4: ld a5,0(a2)
    0x00f7_0733, // 0x100f8: add a4,a4,a5
    0x00e5_3023, // 0x100fc: sd a4,0(a0)
    0x0085_8593, // 0x10100: addi a1,a1,8
    0x0086_0613, // 0x10104: addi a2,a2,8
    0x0085_0513, // 0x10108: addi a0,a0,8
    0xfed5_92e3, // 0x1010c: bne a1,a3,-28
    0x4095_0533, // 0x10110: sub a0,a0,s1
    0x0095_06b3, // 0x10114: add a3,a0,s1
    0x0000_0393, // 0x10118: addi t2,x0,0
    0x0005_3703, // 0x1011c: ld a4,0(a0)
    0x00e3_83b3, // 0x10120: add t2,t2,a4
    0x0085_0513, // 0x10124: addi a0,a0,8
    0xfed5_1ae3, // 0x10128: bne a0,a3,-12
    0xfe71_3c23, // 0x1012c: sd t2,-8(sp)
    0x0010_0513, // 0x10130: addi a0,x0,1
    0xff81_0593, // 0x10134: addi a1,sp,-8
    0x0080_0613, // 0x10138: addi a2,x0,8
    0x0400_0893, // 0x1013c: addi a7,x0,64
    0x0000_0073, // 0x10140: ecall
    0x0000_0513, // 0x10144: addi a0,x0,0
    0x05d0_0893, // 0x10148: addi a7,x0,93
    0x0000_0073, // 0x1014c: ecall
];

static NEIGHBOURS: [u32; 97] = [
    0x464c_457f,
    0x0001_0102,
    0x0000_0000,
    0x0000_0000,
    0x00f3_0002,
    0x0000_0001,
    0x0001_00b0,
    0x0000_0000,
    0x0000_0040,
    0x0000_0000,
    0x0000_0000,
    0x0000_0000,
    0x0000_0000,
    0x0038_0040,
    0x0000_0002,
    0x0000_0000,
    0x0000_0001,
    0x0000_0005,
    0x0000_0000,
    0x0000_0000,
    0x0001_0000,
    0x0000_0000,
    0x0001_0000,
    0x0000_0000,
    0x0000_0184,
    0x0000_0000,
    0x0000_0184,
    0x0000_0000,
    0x0000_1000,
    0x0000_0000,
    0x0000_0001,
    0x0000_0006,
    0x0000_0000,
    0x0000_0000,
    0x0002_0000,
    0x0000_0000,
    0x0002_0000,
    0x0000_0000,
    0x0000_0000,
    0x0000_0000,
    0x0002_8a40,
    0x0000_0000,
    0x0000_1000,
    0x0000_0000,
    0x0002_0537, // 0x100b0: lui a0,0x20
    0x0000_04b7, // 0x100b4: lui s1,0x0
    0x3304_849b, // 0x100b8: addiw s1,s1,816
    0x0001_4937, // 0x100bc: lui s2,0x14
    0x5209_091b, // 0x100c0: addiw s2,s2,1312
    0x0125_05b3, // 0x100c4: add a1,a0,s2
    0x0005_0793, // 0x100c8: addi a5,a0,0
    0x0000_0293, // 0x100cc: addi t0,x0,0
    0x0057_b023, // 0x100d0: sd t0,0(a5)
    0x0012_8293, // 0x100d4: addi t0,t0,1
    0x0087_8793, // 0x100d8: addi a5,a5,8
    0xfeb7_9ae3, // 0x100dc: bne a5,a1,-12
    0x0095_0633, // 0x100e0: add a2,a0,s1
    0x0095_86b3, // 0x100e4: add a3,a1,s1
    0x4095_8733, // 0x100e8: sub a4,a1,s1
    0x0000_0fb7, // 0x100ec: lui t6,0x0
    0x330f_8f9b, // 0x100f0: addiw t6,t6,816
    0x0086_0793, // 0x100f4: addi a5,a2,8
    0x0086_8813, // 0x100f8: addi a6,a3,8
    0x01f6_09b3, // 0x100fc: add s3,a2,t6
    0xff89_8993, // 0x10100: addi s3,s3,-8
    0x41f7_8e33, // 0x10104: sub t3,a5,t6
    0x01f7_8eb3, // 0x10108: add t4,a5,t6
    0x000e_3283, // 0x1010c: ld t0,0(t3)
    0x000e_b303, // 0x10110: ld t1,0(t4)
    0xff87_b383, // 0x10114: ld t2,-8(a5)
    0x0087_bf03, // 0x10118: ld t5,8(a5)
    0x0062_82b3, // 0x1011c: add t0,t0,t1
    0x01e3_83b3, // 0x10120: add t2,t2,t5
    0x0072_82b3, // 0x10124: add t0,t0,t2
    0x0058_3023, // 0x10128: sd t0,0(a6)
    0x0087_8793, // 0x1012c: addi a5,a5,8
    0x0088_0813, // 0x10130: addi a6,a6,8
    0xfd37_98e3, // 0x10134: bne a5,s3,-48
    0x01f6_0633, // 0x10138: add a2,a2,t6
    0x01f6_86b3, // 0x1013c: add a3,a3,t6
    0xfae6_16e3, // 0x10140: bne a2,a4,-84
    0x0005_8513, // 0x10144: addi a0,a1,0
    0x0125_86b3, // 0x10148: add a3,a1,s2
    0x0000_0393, // 0x1014c: addi t2,x0,0
    0x0005_3703, // 0x10150: ld a4,0(a0)
    0x00e3_83b3, // 0x10154: add t2,t2,a4
    0x0085_0513, // 0x10158: addi a0,a0,8
    0xfed5_1ae3, // 0x1015c: bne a0,a3,-12
    0xfe71_3c23, // 0x10160: sd t2,-8(sp)
    0x0010_0513, // 0x10164: addi a0,x0,1
    0xff81_0593, // 0x10168: addi a1,sp,-8
    0x0080_0613, // 0x1016c: addi a2,x0,8
    0x0400_0893, // 0x10170: addi a7,x0,64
    0x0000_0073, // 0x10174: ecall
    0x0000_0513, // 0x10178: addi a0,x0,0
    0x05d0_0893, // 0x1017c: addi a7,x0,93
    0x0000_0073, // 0x10180: ecall
];

static END: [u32; 2] = [
    0x05d0_0893, // addi a7,x0,93
    0x0000_0073, // ecall
];

// Adds words to bytes, each with its lowest byte first.
fn push_words(bytes: &mut Vec<u8>, words: &[u32]) -> Result<(), AllocError> {
    for word in words {
        bytes.extend_from_slice(&word.to_le_bytes())?;
    }
    Ok(())
}

// A file of one segment with this code and the call that ends the run.
pub fn push_file(bytes: &mut Vec<u8>, code: &[u32]) -> Result<(), AllocError> {
    let size = 128 + 4 * (code.len() % 64) as u32;
    let headers = [
        0x464c_457f,
        0x0001_0102,
        0,
        0,
        0x00f3_0002,
        1,
        0x0001_0078,
        0,
        64,
        0,
        0,
        0,
        0,
        0x0038_0040,
        1,
        0,
        1,
        5,
        0,
        0,
        0x0001_0000,
        0,
        0x0001_0000,
        0,
        size,
        0,
        size,
        0,
        4096,
        0,
    ];
    push_words(bytes, &headers)?;
    push_words(bytes, code)?;
    push_words(bytes, &END)
}

impl Program {
    // The bytes of its file.
    pub fn file(&self, alloc: Global) -> Result<Vec<u8>, AllocError> {
        let mut bytes = Vec::new(alloc);
        match self {
            Program::Adds => push_words(&mut bytes, &ADDS)?,
            Program::Neighbours => push_words(&mut bytes, &NEIGHBOURS)?,
            Program::Counter => push_file(&mut bytes, &COUNTER)?,
            Program::Code(code) => push_file(&mut bytes, code)?,
        }
        Ok(bytes)
    }
}
