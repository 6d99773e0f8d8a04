ghost use Rattle.std.specs.Prelude.{◌≤◌};

mod files;

use crate::{Kind, SampleErr, make_sample};
use files::{ADDS, BYTES, NEIGHBOURS};
use std::alloc::Global;
use std::test::Fail;

// The words that the bytes of a file are.
fn words_in(alloc: Global, bytes: &[u8]) -> Result<Vec<u32>, Fail> {
    let mut words = Vec::new(alloc);
    for part in bytes.chunks(4) {
        let mut word = 0;
        for byte in part.iter().rev() {
            word = word << 8 | *byte as u32;
        }
        words.push(word)?;
    }
    Ok(words)
}

fn sample_words(alloc: Global, kind: Kind, n: u64) -> Result<Vec<u32>, Fail>
    requires { 1 ≤ n }
{
    let bytes = make_sample(alloc, kind, n)?;
    words_in(alloc, bytes.as_slice())
}

#[test]
fn makes_whole_files(rt: HostRuntime) -> Result<(), Fail> {
    let words = sample_words(rt.alloc(), Kind::Vadd, 1000)?;
    assert_eq!(rt; words.as_slice(), ADDS.as_slice());
    let words = sample_words(rt.alloc(), Kind::Stencil, 100)?;
    assert_eq!(rt; words.as_slice(), NEIGHBOURS.as_slice());
    let words = sample_words(rt.alloc(), Kind::Bytemap, 1000)?;
    assert_eq!(rt; words.as_slice(), BYTES.as_slice());
    Ok(())
}

// The length of the file, how many bytes of data it has, and the words that set registers to sizes.
#[test]
fn sizes_stand_in_the_file(rt: HostRuntime) -> Result<(), Fail> {
    for (kind, n, size, data_bytes, numbers) in [
        (
            Kind::Vadd,
            1,
            336,
            24,
            [0x0000_04b7, 0x0084_849b, 0x0095_8633, 0x0096_0533],
        ),
        (
            Kind::Vadd,
            1000000,
            336,
            24000000,
            [0x007a_14b7, 0x2004_849b, 0x0095_8633, 0x0096_0533],
        ),
        (
            Kind::Stencil,
            1,
            388,
            144,
            [0x0000_04b7, 0x0184_849b, 0x0000_0937, 0x0489_091b],
        ),
        (
            Kind::Stencil,
            2000,
            388,
            64128064,
            [0x0000_44b7, 0xe904_849b, 0x01e9_4937, 0x2209_091b],
        ),
        (
            Kind::Bytemap,
            1,
            320,
            12,
            [0x0000_04b7, 0x00b4_849b, 0x0000_0937, 0x0019_091b],
        ),
        (
            Kind::Bytemap,
            8,
            320,
            19,
            [0x0000_04b7, 0x00b4_849b, 0x0000_0937, 0x0089_091b],
        ),
        (
            Kind::Bytemap,
            16000000,
            320,
            32000003,
            [0x00f4_24b7, 0x4034_849b, 0x00f4_2937, 0x4009_091b],
        ),
    ] {
        assert!(rt; n >= 1);
        let words = sample_words(rt.alloc(), kind, n)?;
        let words = words.as_slice();
        assert_eq!(rt; 4 * words.len(), size, "{kind:?} {n}");
        for place in [24, 26] {
            assert_eq!(rt; words.get(place), Some(&(size as u32)), "{kind:?} {n}");
        }
        assert_eq!(rt; words.get(40), Some(&data_bytes), "{kind:?} {n}");
        for (place, number) in (45..).zip(numbers) {
            assert_eq!(rt; words.get(place), Some(&number), "{kind:?} {n} at {place}");
        }
    }
    Ok(())
}

#[test]
fn refuses_larger_sizes(rt: HostRuntime) -> Result<(), Fail> {
    for (kind, n) in [
        (Kind::Vadd, 1_000_001),
        (Kind::Stencil, 2_001),
        (Kind::Stencil, 2_000_000),
        (Kind::Bytemap, 16_000_001),
        (Kind::Bytemap, u64::MAX),
    ] {
        assert!(rt; n >= 1);
        match make_sample(rt.alloc(), kind, n) {
            Err(SampleErr::TooLarge { n: told }) => assert_eq!(rt; told, n),
            _ => panic!(rt; "{kind:?} {n} is not refused"),
        }
    }
    Ok(())
}
