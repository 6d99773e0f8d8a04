ghost use Rattle.std.specs.Prelude.{◌≡◌, ◌+◌, ◌<◌, ◌≤◌, ◌^◌};
ghost use Rattle.elf_image.specs.Layout.{IsLoadable, load_end};
ghost use Rattle.elf_image.specs.Layout.{is_code_of};
ghost use Rattle.loop_data.specs.Code.{byte_in, word_in, word_at};

use elf_image::{Elf, Segment};

// The byte at an address of a segment's area.
fn byte_in(segment: &Segment, addr: u64) -> u8
    ensures { result ≡ byte_in segment.now addr }
{
    if addr < segment.vaddr {
        return 0;
    }
    let place = (addr - segment.vaddr) as usize;
    segment.bytes.as_slice().get(place).copied().unwrap_or(0)
}

// The word of four bytes at an address, the lowest first.
#[tactic(auto, unfolding(loop_data::specs::Code::word_in))]
fn word_in(segment: &Segment, addr: u64) -> u32
    requires { addr + 3 < 2 ^ 64 }
    ensures { result ≡ word_in segment.now addr }
{
    let low = u32::from(byte_in(segment, addr)) + 0x100 * u32::from(byte_in(segment, addr + 1));
    let high = u32::from(byte_in(segment, addr + 2))
        + 0x100 * u32::from(byte_in(segment, addr + 3));
    low + 0x1_0000 * high
}

// Whether an address lies in the area of an executable segment.
fn is_code_of(segment: &Segment, addr: u64) -> bool
    requires { segment.now.vaddr + segment.now.memsz ≤ load_end }
    ensures { result ≡ is_code_of segment.now addr }
{
    let low = segment.vaddr / 8 * 8;
    let end = (segment.vaddr + segment.memsz + 7) / 8 * 8;
    segment.flags % 2 == 1 && low <= addr && addr < end
}

/// The instruction word at an address: at a multiple of 4 in the widened byte range of an executable
/// segment. Bytes that the file does not have are 0.
#[tactic(auto, unfolding(loop_data::specs::Code::word_at))]
pub fn word_at(elf: &Elf, addr: u64) -> Option<u32>
    requires { IsLoadable elf.now }
    ensures { result ≡ word_at elf.now addr }
{
    if addr % 4 != 0 {
        return None;
    }
    let segments = elf.segments.as_slice();
    for segment in segments {
        if is_code_of(segment, addr) {
            return Some(word_in(segment, addr));
        }
    }
    None
}
