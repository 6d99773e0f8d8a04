ghost use Rattle.std.specs.Prelude.{◌≡◌, IfOk};
ghost use Rattle.hart_core.specs.Start.{IsRunnable};
ghost use Rattle.image_writer.specs.declared.splitting.Split.TheVariants.{Plain};
ghost use Rattle.image_writer.specs.Split.{split_of};
ghost use Rattle.serial_run.specs.Sound.{HaveBytes};
ghost use Rattle.rewriter.specs.Admission.{first_difference, not_made, IsAdmission, HasOriginal};

use crate::rewriting::{RewriteErr, division_of, image_with, read};
use elf_image::Bytes;
use image_writer::{Code, Entries, Image, Split, split_image};
use loop_division::Division;
use loop_division::laws::entries_are_in_order;
use std::alloc::Global;

/// Why a file is not admitted.
#[derive(Clone, Copy, Debug, PartialEq, Eq)]
pub enum AdmitErr {
    /// It is marked as an image, but not whole.
    BadMark,
    /// It holds no executable, or its original part has no image; never for want of memory.
    Original(RewriteErr),
    /// It is not the image of its original part: the first byte that differs, or the shorter length
    /// where one is the beginning of the other.
    Altered { offset: u64 },
    /// There was no memory.
    OutOfMemory,
}

// The first place at which these bytes differ.
fn difference(made: &[u8], given: &[u8]) -> Option<usize>
    ensures { result ≡ first_difference made.now given.now }
{
    let shorter = made.len().min(given.len());
    for i in 0..shorter {
        if made[i] != given[i] {
            return Some(i);
        }
    }
    if made.len() == given.len() {
        None
    } else {
        Some(shorter)
    }
}

// Why a file is not admitted whose executable is not rewritten.
fn refusal(why: RewriteErr) -> AdmitErr
    ensures { result ≡ not_made why }
{
    match why {
        RewriteErr::OutOfMemory => AdmitErr::OutOfMemory,
        e => AdmitErr::Original(e),
    }
}

// Admits a marked file with this original part, where it is the image of that.
fn admit_parts(alloc: Global, bytes: &[u8], original: Bytes) -> Result<Image, AdmitErr>
    requires { HasOriginal bytes.now original }
    ensures admission { IsAdmission bytes.now result }
    ensures runnable { IfOk result IsRunnable }
    ensures bytes { IfOk result (λ image. HaveBytes image.elf.segments) }
{
    entries_are_in_order();
    let original = original.as_slice();
    let elf = match read(alloc, original) {
        Ok(elf) => elf,
        Err(e) => return Err(refusal(e)),
    };
    let division = match division_of(alloc, &elf) {
        Ok(division) => division,
        Err(e) => return Err(refusal(e)),
    };
    let made = match image_with(alloc, original, &division) {
        Ok(made) => made,
        Err(e) => return Err(refusal(e)),
    };
    match difference(made.as_slice(), bytes) {
        Some(offset) => Err(AdmitErr::Altered {
            offset: offset as u64,
        }),
        None => {
            let Division { entries, code } = division;
            Ok(Image {
                elf,
                entries: Entries::new(entries),
                code: Code::new(code),
            })
        }
    }
}

// Admits a file without a mark.
fn admit_plain(alloc: Global, bytes: &[u8]) -> Result<Image, AdmitErr>
    requires { split_of bytes.now ≡ Plain }
    ensures admission { IsAdmission bytes.now result }
    ensures runnable { IfOk result IsRunnable }
    ensures bytes { IfOk result (λ image. HaveBytes image.elf.segments) }
{
    match read(alloc, bytes) {
        Ok(elf) => Ok(Image {
            elf,
            entries: Entries::new(Vec::new(alloc)),
            code: Code::new(Vec::new(alloc)),
        }),
        Err(e) => Err(refusal(e)),
    }
}

/// Admits a file to be run: an executable without a mark, as an image without entries, or an image
/// that is exactly that of its original part. An image that is admitted can be run.
pub fn admit(alloc: Global, bytes: &[u8]) -> Result<Image, AdmitErr>
    ensures admission { IsAdmission bytes.now result }
    ensures runnable { IfOk result IsRunnable }
    ensures bytes { IfOk result (λ image. HaveBytes image.elf.segments) }
{
    match split_image(alloc, bytes) {
        Ok(Split::Plain) => admit_plain(alloc, bytes),
        Ok(Split::BadMark) => Err(AdmitErr::BadMark),
        Ok(Split::Parts { original, .. }) => admit_parts(alloc, bytes, original),
        Err(_) => Err(AdmitErr::OutOfMemory),
    }
}
