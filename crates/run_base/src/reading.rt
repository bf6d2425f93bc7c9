//! What the files of a line read as: a file of task graphs and tables and an architecture file as a specification, and
//! a genotype file as a genotype.
//!
//! `read_spec` judges both of its files in this order, so that each refusal of the first one comes before all of the
//! second one, also where the second one is too long. What their bytes read as stands in `specs/Reading.antt`.

ghost use Rattle.std.specs.Prelude.{◌≡◌, ◌<◌, ◌≤◌, ℕ, List, length, Option, Some, IfOk, OnErr, IfErr};
ghost use Rattle.spec_model.specs.Spec.{design_variables};
ghost use Rattle.line_words.specs.Limits.{most_file_bytes};
ghost use Rattle.line_words.specs.declared.refusals.ReadFault.TheVariants as faults;
ghost use Rattle.line_words.specs.declared.refusals.FileTag.TheVariants as files;
ghost use Rattle.genotype.specs.Statements.{genotype_rules, genes_of};
ghost use Rattle.run_base.specs.Loading.{IsLoaded, IsLoadedIfNamed};
ghost use Rattle.run_base.specs.Reading.{ReadsFile, ReadsTgff, ReadsArch, ReadsSpec, ReadsGenotype, refused_as_long};

use crate::loading::Loaded;
use arch_reader::read_arch;
use genotype::{Genotype, read_genotype};
use line_words::{FileTag, MOST_FILE_BYTES, ReadFault, Refusal, What, Why};
use spec_graph::Spec;
use spec_join::join;
use std::alloc::Global;
use tgff_reader::{Tgff, read_tgff};

/// What a file is refused for that is too long.
fn too_long(file: FileTag) -> ReadFault
    ensures { result ≡ faults.Refused (refused_as_long file) }
{
    ReadFault::Refused(Refusal {
        file,
        line: 0,
        why: Why::Limit(What::FileBytes),
    })
}

/// The bytes of a loaded file, which is refused where it has more than 16,777,216 bytes, at line 0.
pub fn short_bytes(loaded: &Loaded, file: FileTag) -> Result<&[u8], ReadFault>
    ensures short { IfOk result (λ bytes. length bytes.now ≤ most_file_bytes) }
    ensures whole { IfOk result (λ bytes. (content : List ℕ) → IsLoaded loaded.entry.now content → content ≡ bytes.now) }
    ensures long { OnErr result ((content : List ℕ) → IsLoaded loaded.entry.now content → most_file_bytes < length content) }
    ensures refused { IfErr result (λ fault. fault ≡ faults.Refused (refused_as_long file)) }
{
    match loaded {
        Loaded::TooLong => Err(too_long(file)),
        Loaded::Bytes(bytes) => {
            if bytes.len() as u64 > MOST_FILE_BYTES {
                return Err(too_long(file));
            }
            Ok(bytes.as_slice())
        }
    }
}

/// The graphs and tables of a file.
fn read_named(alloc: Global, loaded: &Loaded) -> Result<Tgff, ReadFault>
    ensures { (bytes : List ℕ) → IsLoaded loaded.now bytes → ReadsTgff (Some bytes) result }
{
    let bytes = short_bytes(loaded, FileTag::Tgff)?;
    read_tgff(alloc, bytes)
}

/// The graphs and tables of a file, if one is named.
fn read_graphs(alloc: Global, loaded: &Option<Loaded>) -> Result<Tgff, ReadFault>
    ensures { (named : Option (List ℕ)) → IsLoadedIfNamed loaded.now named → ReadsTgff named result }
{
    match loaded {
        Some(loaded) => read_named(alloc, loaded),
        None => Ok(Tgff::none(alloc)),
    }
}

/// The specification of an architecture file with graphs and tables.
fn read_joined(alloc: Global, tgff: &Tgff, loaded: &Loaded) -> Result<Spec, ReadFault>
    ensures { (bytes : List ℕ) → IsLoaded loaded.now bytes → ReadsArch bytes tgff.now result }
{
    let bytes = short_bytes(loaded, FileTag::Arch)?;
    let file = read_arch(alloc, bytes)?;
    join(alloc, tgff, &file)
}

/// Reads a file of task graphs and tables, if one is named, and an architecture file, and joins both to a
/// specification.
///
/// The first file is refused where it has more than 16,777,216 bytes, at line 0, or else for the first of its rules
/// that it breaks. Where it isn't refused, the architecture file is refused likewise, and where that isn't either, for
/// the first that its statements break together with the graphs and tables.
pub fn read_spec(alloc: Global, tgff: &Option<Loaded>, arch: &Loaded) -> Result<Spec, ReadFault>
    ensures { (named : Option (List ℕ)) (bytes : List ℕ) → IsLoadedIfNamed tgff.now named → IsLoaded arch.now bytes → ReadsSpec named bytes result }
{
    let graphs = read_graphs(alloc, tgff)?;
    read_joined(alloc, &graphs, arch)
}

/// The genotype of a file for a specification.
fn read_named_genes(alloc: Global, spec: &Spec, loaded: &Loaded) -> Result<Genotype, ReadFault>
    ensures reads { (bytes : List ℕ) → IsLoaded loaded.now bytes → ReadsGenotype spec.now (Some bytes) result }
    ensures sized { IfOk result (λ genes. length genes ≡ design_variables spec.now) }
{
    let bytes = short_bytes(loaded, FileTag::Genotype)?;
    read_genotype(alloc, bytes, spec.design_variables())
}

/// The genotype of a file for a specification, or the natural one where no file is named.
pub fn read_genes(alloc: Global, spec: &Spec, geno: &Option<Loaded>) -> Result<Genotype, ReadFault>
    ensures reads { (named : Option (List ℕ)) → IsLoadedIfNamed geno.now named → ReadsGenotype spec.now named result }
    ensures sized { IfOk result (λ genes. length genes ≡ design_variables spec.now) }
{
    match geno {
        Some(loaded) => read_named_genes(alloc, spec, loaded),
        None => Ok(Genotype::natural(alloc, spec.design_variables())?),
    }
}
