//! The line that refuses a file.

ghost use Rattle.std.specs.Prelude.{◌≡◌, ◌++◌, OnOk};
ghost use Rattle.run_base.specs.Worlds.{names_value};
ghost use Rattle.dse_run.specs.Refusing.{limit_text, place_text, reason_text, input_text, word_of};

use line_words::{FileTag, Refusal, Why, put_whole};
use run_base::Names;
use std::alloc::{AllocError, Global};

/// The word of a file, by its kind.
fn word_of<'a>(names: &Names<'a>, file: FileTag) -> &'a str
    ensures { result.now ≡ word_of (names_value names.now) file }
{
    match file {
        FileTag::Tgff => names.tgff,
        FileTag::Arch => names.arch,
        FileTag::Genotype | FileTag::Front | FileTag::Script | FileTag::Opb => names.third,
    }
}

/// Appends which limit a file passes, where it is refused for one.
fn put_limit(why: Why, out: &mut Vec<u8>) -> Result<(), AllocError>
    ensures { OnOk result (out.new.items ≡ out.old.items ++ limit_text why) }
{
    if let Why::Limit(what) = why {
        out.extend_from_slice(b" ")?;
        out.extend_from_slice(what.name().as_bytes())?;
    }
    Ok(())
}

/// Appends where a file is refused.
fn put_place(alloc: Global, name: &str, line: u64, out: &mut Vec<u8>) -> Result<(), AllocError>
    ensures { OnOk result (out.new.items ≡ out.old.items ++ place_text name.now line) }
{
    out.extend_from_slice(b"input ")?;
    out.extend_from_slice(name.as_bytes())?;
    out.extend_from_slice(b" ")?;
    put_whole(alloc, out, line)?;
    out.extend_from_slice(b" ")?;
    Ok(())
}

/// Appends what a file is refused for.
fn put_reason(alloc: Global, why: Why, out: &mut Vec<u8>) -> Result<(), AllocError>
    ensures { OnOk result (out.new.items ≡ out.old.items ++ reason_text why) }
{
    put_whole(alloc, out, why.number())?;
    out.extend_from_slice(b" ")?;
    out.extend_from_slice(why.name().as_bytes())?;
    put_limit(why, out)?;
    out.extend_from_slice(b"\n")?;
    Ok(())
}

/// Appends the line that refuses one of these files.
pub(crate) fn put_input(
    alloc: Global,
    names: &Names<'_>,
    refusal: Refusal,
    out: &mut Vec<u8>,
) -> Result<(), AllocError>
    ensures { OnOk result (out.new.items ≡ out.old.items ++ input_text (word_of (names_value names.now) refusal.file) refusal) }
{
    put_place(alloc, word_of(names, refusal.file), refusal.line, out)?;
    put_reason(alloc, refusal.why, out)?;
    Ok(())
}
