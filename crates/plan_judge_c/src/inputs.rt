//! What a caller hands in.
ghost use Rattle.std.specs.Prelude.{◌≡◌, All, IfOk, IfErr, map};
ghost use Rattle.std.specs.Str.{IsUtf8};
ghost use Rattle.plan_judge_c.specs.Inputs.{bundle_of, bundles_of, format_numbered, source_of};
ghost use Rattle.plan_judge_c.specs.declared.inputs.Untaken.TheVariants.{NoText};

use explanations::SourceText;
use judge_engine::Seed;
use judge_engine::bundle::Bundle;
use report_text::Format;
use std::alloc::{AllocError, AllocFailed, Global};
use std::hash::RandomState;
use std::random::RandomSource;
use std::sync::Arc;
use std::{io, str};

/// A file: its name, as reports and explanations show it, and its bytes. The caller keeps both, and leaves them as they are until the call returns.
#[repr(C)]
#[derive(Clone, Copy)]
pub struct NamedText<'a> {
    /// The name.
    pub name: &'a [u8],
    /// The bytes.
    pub bytes: &'a [u8],
}

/// What is judged or explained.
#[repr(C)]
#[derive(Clone, Copy)]
pub struct Texts<'a> {
    /// The domain.
    pub domain: NamedText<'a>,
    /// The problem.
    pub problem: NamedText<'a>,
    /// The files of plans, each of which holds one plan or more.
    pub plans: &'a [NamedText<'a>],
    /// A secret number that tables of names and atoms hash with. No answer depends on it, but whoever knows it can write texts that take long.
    pub seed: u64,
    /// The dialect of the domain and the problem: 0 for `strips`, 1 for `ipc`, 2 for `adl`.
    pub dialect: u32,
}

/// Why files are not taken.
#[derive(Clone, Copy, Drop)]
pub(crate) enum Untaken {
    /// A name is no UTF-8.
    NoText,
    /// Memory ran out.
    OutOfMemory,
}

impl From<AllocError> for Untaken {
    ghost use Rattle.std.specs.Prelude.{◌≡◌};
    ghost use Rattle.plan_judge_c.specs.declared.inputs.Untaken.TheVariants.{OutOfMemory};

    ghost from_gives = { λ _ fault. fault ≡ OutOfMemory };

    fn from(_error: AllocError) -> Self {
        Untaken::OutOfMemory
    }
}

impl<T: Drop> From<AllocFailed<T>> for Untaken {
    ghost use Rattle.std.specs.Prelude.{◌≡◌};
    ghost use Rattle.plan_judge_c.specs.declared.inputs.Untaken.TheVariants.{OutOfMemory};

    ghost from_gives = { λ _ fault. fault ≡ OutOfMemory };

    fn from(_error: AllocFailed<T>) -> Self {
        Untaken::OutOfMemory
    }
}

/// The format with a number.
pub(crate) fn format_numbered(number: u32) -> Option<Format>
    ensures { result ≡ format_numbered number }
{
    match number {
        0 => Some(Format::Lines),
        1 => Some(Format::Table),
        2 => Some(Format::Json),
        _ => None,
    }
}

/// The files of planners. Copies names and bytes.
pub(crate) fn bundles_from(alloc: Global, files: &[NamedText<'_>]) -> Result<Vec<Bundle>, Untaken>
    ensures bundles { IfOk result (λ bundles. bundles.items ≡ bundles_of files.now) }
    ensures names { IfErr result (λ fault. fault ≡ NoText → ¬ (All (λ file. IsUtf8 file.name.now) files.now)) }
{
    let mut bundles = Vec::with_capacity(alloc, files.len())?;
    for file in files {
        bundles.push(bundle_from(alloc, *file)?)?;
    }
    Ok(bundles)
}

/// The file of a planner.
fn bundle_from(alloc: Global, file: NamedText<'_>) -> Result<Bundle, Untaken>
    ensures bundle { IfOk result (λ bundle. bundle ≡ bundle_of file.entry) }
    ensures name { IfErr result (λ fault. fault ≡ NoText → ¬ (IsUtf8 file.entry.name.now)) }
{
    let Ok(name) = str::from_utf8(file.name) else {
        return Err(Untaken::NoText);
    };
    let bytes = Vec::from_slice(alloc, file.bytes)?;
    let name = String::from_str(alloc, name)?;
    let bytes = Arc::new(alloc, bytes)?;
    Ok(Bundle { name, bytes })
}

/// Files as an explanation takes them. Copies no text.
pub(crate) fn sources_from<'a>(
    alloc: Global,
    files: &[NamedText<'a>],
) -> Result<Vec<SourceText<'a>>, AllocError>
    ensures { IfOk result (λ sources. sources.items ≡ map source_of files.now) }
{
    let mut sources = Vec::with_capacity(alloc, files.len())?;
    for file in files {
        sources.push(source_from(*file))?;
    }
    Ok(sources)
}

/// A file as an explanation takes it.
pub(crate) fn source_from(file: NamedText<'_>) -> SourceText<'_>
    ensures { result ≡ source_of file.entry }
{
    SourceText {
        name: file.name,
        bytes: file.bytes,
    }
}

/// A number that the caller drew.
#[derive(Drop)]
struct Drawn {
    bytes: [u8; 8],
}

impl RandomSource for Drawn {
    fn fill_bytes(&self, buf: &mut [u8]) -> io::Result<()> {
        for (index, byte) in buf.iter_mut().enumerate() {
            *byte = self.bytes[index % 8];
        }
        Ok(())
    }
}

/// The seed that comes of a number.
pub(crate) fn seed_from(number: u64) -> Seed {
    let drawn = Drawn {
        bytes: number.to_le_bytes(),
    };
    match RandomState::new(&drawn) {
        Ok(keys) => Seed::new(&keys),
        Err(_) => Seed::fixed(),
    }
}
