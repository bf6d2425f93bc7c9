//! Decodes an architecture file along genotype files, and says how many lines the logs of the searches have, one for each
//! conflict: the program of `bench/meshes` and `bench/series`.
#![tactic(auto)]

ghost use Rattle.std.specs.Prelude.{◌≡◌, length, IfSome};
ghost use Rattle.spec_model.specs.Spec.{design_variables};

use desk_io::{Desk, RealDesk};
use genotype::Genotype;
use run_base::{load, read_genes, read_spec};
use sat_decoder::Decoder;
use spec_graph::Spec;
use std::alloc::{AllocError, Global};
use std::env;
use std::process::ExitCode;
use std::rt::Env;

/// The genotype of a file, or the natural one for `-`; `None` where the file is refused or can't be read, or memory is
/// wanted.
fn genotype_of<D: Desk>(alloc: Global, spec: &Spec, desk: &mut D, name: &str) -> Option<Genotype>
    ensures { IfSome result (λ g. length g ≡ design_variables spec.now) }
{
    if name == "-" {
        return read_genes(alloc, spec, &None).ok();
    }
    let Ok(loaded) = load(alloc, desk, name) else {
        return None;
    };
    read_genes(alloc, spec, &Some(loaded)).ok()
}

/// How many lines the log of a decoder has after a search for the first valid design.
fn log_lines(
    alloc: Global,
    decoder: &mut Decoder<'_>,
    genotype: &Genotype,
) -> Result<usize, AllocError>
    requires { length genotype.now ≡ design_variables decoder.old.spec }
    ensures { decoder.new.spec ≡ decoder.old.spec }
{
    let _decoded = decoder.decode(alloc, genotype, u64::MAX)?;
    Ok(decoder.log().steps())
}

/// How many lines the log of one decoder has after the searches along all genotypes, each of which begins with the clauses
/// that were kept.
fn of_one<D: Desk>(
    alloc: Global,
    spec: &Spec,
    desk: &mut D,
    genotypes: &[String],
) -> Option<usize> {
    let Ok(mut decoder) = Decoder::new(alloc, spec) else {
        return None;
    };
    let mut lines = 0;
    for name in genotypes {
        let genotype = genotype_of(alloc, spec, desk, name)?;
        let Ok(so_far) = log_lines(alloc, &mut decoder, &genotype) else {
            return None;
        };
        lines = so_far;
    }
    Some(lines)
}

/// How many lines the log of a new decoder has after the search along a genotype.
fn of_new<D: Desk>(alloc: Global, spec: &Spec, desk: &mut D, name: &str) -> Option<usize> {
    let genotype = genotype_of(alloc, spec, desk, name)?;
    let Ok(mut decoder) = Decoder::new(alloc, spec) else {
        return None;
    };
    log_lines(alloc, &mut decoder, &genotype).ok()
}

/// The same of a new decoder for each genotype, added up: no clause is kept.
fn of_each<D: Desk>(
    alloc: Global,
    spec: &Spec,
    desk: &mut D,
    genotypes: &[String],
) -> Option<usize> {
    let mut lines = 0usize;
    for name in genotypes {
        let more = of_new(alloc, spec, desk, name)?;
        lines = lines.saturating_add(more);
    }
    Some(lines)
}

/// The number of lines for a command line `[--anew] ARCH GENO..`: of one decoder, or of a new one for each genotype.
fn measure<D: Desk>(alloc: Global, words: &[String], desk: &mut D) -> Option<usize> {
    let (first, others) = words.split_first()?;
    let is_anew = first.as_str() == "--anew";
    let files = if is_anew { others } else { words };
    let (arch, genotypes) = files.split_first()?;
    let Ok(loaded) = load(alloc, desk, arch) else {
        return None;
    };
    let Ok(spec) = read_spec(alloc, &None, &loaded) else {
        return None;
    };
    if is_anew {
        return of_each(alloc, &spec, desk, genotypes);
    }
    of_one(alloc, &spec, desk, genotypes)
}

/// The words of the command line after the program's name.
fn words(rt: &(impl Env + AllocGlobal)) -> Option<Vec<String>> {
    let Ok(arguments) = env::args(rt) else {
        return None;
    };
    let mut words = Vec::new(rt.alloc());
    for word in arguments.skip(1) {
        if words.push(word).is_err() {
            return None;
        }
    }
    Some(words)
}

fn main(rt: HostRuntime) -> ExitCode {
    let Some(words) = words(&rt) else {
        return ExitCode::from(1);
    };
    let mut desk = RealDesk::new(&rt);
    let Some(lines) = measure(rt.alloc(), &words, &mut desk) else {
        return ExitCode::from(1);
    };
    match println!(rt; "{lines}") {
        Ok(()) => ExitCode::from(0),
        Err(_) => ExitCode::from(1),
    }
}
