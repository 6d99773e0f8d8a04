ghost use Rattle.std.specs.Prelude.{◌≡◌, ◌++◌, codes, string_bytes, IfOk, OnOk};
ghost use Rattle.report_text.specs.RunLines.{line};
ghost use Rattle.rewrite_cli.specs.Refusals.{refusal_of, reason_name, reason_fields, field_text, reason_text};

use crate::status::{Reason, Status};
use elf_image::ElfErr;
use std::alloc::{AllocError, Global};

/// The answer to a file that holds no executable.
pub fn refusal_from(e: ElfErr) -> Status
    ensures { result ≡ refusal_of e }
{
    Status::Refused(match e {
        ElfErr::TooLong { length } => Reason::TooLong { length },
        ElfErr::NotElf => Reason::NotElf,
        ElfErr::HeaderCut { need, have } => Reason::HeaderCut { need, have },
        ElfErr::Class(value) => Reason::Class(value),
        ElfErr::ByteOrder(value) => Reason::ByteOrder(value),
        ElfErr::Version(value) => Reason::Version(value),
        ElfErr::FileType(value) => Reason::FileType(value),
        ElfErr::Machine(value) => Reason::Machine(value),
        ElfErr::Flags(value) => Reason::Flags(value),
        ElfErr::HeaderSize(value) => Reason::HeaderSize(value),
        ElfErr::TooManyHeaders { count } => Reason::TooManyHeaders { count },
        ElfErr::Marked { index } => Reason::Marked { index },
        ElfErr::SegmentSize { index } => Reason::SegmentSize { index },
        ElfErr::SegmentCut { index } => Reason::SegmentCut { index },
        ElfErr::Dynamic { index } => Reason::Dynamic { index },
        ElfErr::WritableCode { index } => Reason::WritableCode { index },
        ElfErr::Range { index } => Reason::Range { index },
        ElfErr::TooMuchMemory { bytes } => Reason::TooMuchMemory { bytes },
        ElfErr::Overlap { first, second } => Reason::Overlap { first, second },
        ElfErr::EntryOutside { entry } => Reason::EntryOutside { entry },
        ElfErr::OutOfMemory => return Status::OutOfMemory,
    })
}

// The name of a refusal.
fn name_of(why: Reason) -> &'static str
    ensures { result.now ≡ reason_name why }
{
    match why {
        Reason::LoadTooLong { .. } => "load-too-long",
        Reason::TooLong { .. } => "too-long",
        Reason::NotElf => "not-elf",
        Reason::HeaderCut { .. } => "header-cut",
        Reason::Class(_) => "class",
        Reason::ByteOrder(_) => "byte-order",
        Reason::Version(_) => "version",
        Reason::FileType(_) => "file-type",
        Reason::Machine(_) => "machine",
        Reason::Flags(_) => "flags",
        Reason::HeaderSize(_) => "header-size",
        Reason::TooManyHeaders { .. } => "too-many-headers",
        Reason::Marked { .. } => "marked",
        Reason::SegmentSize { .. } => "segment-size",
        Reason::SegmentCut { .. } => "segment-cut",
        Reason::Dynamic { .. } => "dynamic",
        Reason::WritableCode { .. } => "writable-code",
        Reason::Range { .. } => "range",
        Reason::TooMuchMemory { .. } => "too-much-memory",
        Reason::Overlap { .. } => "overlap",
        Reason::EntryOutside { .. } => "entry-outside",
        Reason::TooManyWords { .. } => "too-many-words",
        Reason::TooManyLoops { .. } => "too-many-loops",
        Reason::CodeTooLong { .. } => "code-too-long",
        Reason::BadMark => "bad-mark",
        Reason::Altered { .. } => "altered",
        Reason::TooLarge { .. } => "too-large",
    }
}

// The fields of a refusal, of which there are two at most.
fn fields_of(why: Reason) -> (Option<u128>, Option<u128>)
    ensures { result ≡ reason_fields why }
{
    match why {
        Reason::NotElf | Reason::BadMark => (None, None),
        Reason::LoadTooLong { limit } => (Some(u128::from(limit)), None),
        Reason::TooLong { length } => (Some(u128::from(length)), None),
        Reason::HeaderCut { need, have } => (Some(need), Some(u128::from(have))),
        Reason::Class(value) => (Some(u128::from(value)), None),
        Reason::ByteOrder(value) => (Some(u128::from(value)), None),
        Reason::Version(value) => (Some(u128::from(value)), None),
        Reason::FileType(value) => (Some(u128::from(value)), None),
        Reason::Machine(value) => (Some(u128::from(value)), None),
        Reason::Flags(value) => (Some(u128::from(value)), None),
        Reason::HeaderSize(value) => (Some(u128::from(value)), None),
        Reason::TooManyHeaders { count } => (Some(u128::from(count)), None),
        Reason::Marked { index } => (Some(u128::from(index)), None),
        Reason::SegmentSize { index } => (Some(u128::from(index)), None),
        Reason::SegmentCut { index } => (Some(u128::from(index)), None),
        Reason::Dynamic { index } => (Some(u128::from(index)), None),
        Reason::WritableCode { index } => (Some(u128::from(index)), None),
        Reason::Range { index } => (Some(u128::from(index)), None),
        Reason::TooMuchMemory { bytes } => (Some(u128::from(bytes)), None),
        Reason::Overlap { first, second } => (Some(u128::from(first)), Some(u128::from(second))),
        Reason::EntryOutside { entry } => (Some(u128::from(entry)), None),
        Reason::TooManyWords { count } => (Some(u128::from(count)), None),
        Reason::TooManyLoops { count } => (Some(u128::from(count)), None),
        Reason::CodeTooLong { words } => (Some(u128::from(words)), None),
        Reason::Altered { offset } => (Some(u128::from(offset)), None),
        Reason::TooLarge { n } => (Some(u128::from(n)), None),
    }
}

// Appends a space and a field, where there is one.
fn push_field(alloc: Global, text: &mut String, field: Option<u128>) -> Result<(), AllocError>
    ensures { OnOk result (string_bytes text.new ≡ string_bytes text.old ++ field_text field) }
{
    if let Some(number) = field {
        let more = format!(in alloc; " {number}")?;
        text.push_str(more.as_str())?;
    }
    Ok(())
}

/// The line that reports a refusal.
pub fn refusal_line(alloc: Global, why: Reason) -> Result<String, AllocError>
    ensures { IfOk result (λ s. string_bytes s ≡ line (codes "refused " ++ reason_text why)) }
{
    let mut text = String::from_str(alloc, "refused ")?;
    text.push_str(name_of(why))?;
    let (first, second) = fields_of(why);
    push_field(alloc, &mut text, first)?;
    push_field(alloc, &mut text, second)?;
    text.push_str("\n")?;
    Ok(text)
}
