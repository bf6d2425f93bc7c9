//! The run: rounds over one decoder, with the words, the tools and the archive.
//!
//! The decoder's log goes on from round to round. Where no design is valid the first round says so. The design of each
//! round is measured before it joins the history, and it joins the history before it is offered.

ghost use Rattle.std.specs.Prelude.{◌≡◌, ◌≢◌, ℕ, ◌+◌, ◌<◌, ◌++◌, [], ◌∷◌, ◌↔◌, All, List, false, length, vec_len, map, IfOk, OnOk};
ghost use Rattle.spec_model.specs.Spec.{SpecValue, Bits, bits_of, design_variables};
ghost use Rattle.spec_model.specs.Rules.{IsValid};
ghost use Rattle.spec_model.specs.Vectors.{vector_of};
ghost use Rattle.ordered_solver.specs.Answers.{GoesOnDerived};
ghost use Rattle.sat_decoder.specs.Decoder.{IsLogOf};
ghost use Rattle.sat_decoder.specs.Decoding.{DecodedSays, IsShown};
ghost use Rattle.front_archive.specs.Best.{best, offered};
ghost use Rattle.front_archive.specs.Members.{covers};
ghost use Rattle.front_archive.specs.declared.member.Member.{Member};
ghost use Rattle.evo_explore.specs.Breeding.{HasGenes};
ghost use Rattle.evo_explore.specs.Counts.{RoseBy, RoseAtMost, HasRoom, picked};
ghost use Rattle.evo_explore.specs.Objectives.{all_laid_out};
ghost use Rattle.evo_explore.specs.Run.{IsRunOf, FindsNone, whole_vector};
ghost use Rattle.evo_explore.specs.Steps.{answer_of, RoundSays, CountsSay};

use crate::breeding::next_genotype;
use crate::history::History;
use crate::measuring::measure_chosen;
use crate::objectives::LinearObjectives;
use evaluators::Evaluator;
use front_archive::{Archive, Member};
use genotype::{Genotype, Words};
use impl_rules::Design;
use proof_log::Log;
use result_text::Vector;
use sat_decoder::{Decoded, Decoder};
use spec_graph::Spec;
use std::alloc::{AllocError, Global};

/// How many rounds a run has, and at which places the tools stand that measure.
#[derive(Drop)]
pub struct Params {
    /// How many rounds there are; 0 is a run without a genotype.
    pub rounds: u64,
    /// The places of the tools that measure, from 0, in the order in which their numbers stand in a vector.
    pub chosen: Vec<usize>,
}

/// How a run ends.
#[derive(Clone, Copy, Debug, PartialEq, Eq)]
pub enum End {
    /// After all its rounds.
    Done,
    /// In its first round, since no design is valid.
    Infeasible,
}

/// What a run found: the vectors by round, the best members, and the log of all its decodings.
#[derive(Drop)]
pub struct Run {
    /// The vectors by round, none where no design is valid.
    pub history: History,
    /// The best members, with vectors of the objectives and of what is measured.
    pub archive: Archive,
    /// The derived lines of all decodings, in order, over the encoding; none where there were no rounds.
    pub log: Log,
    /// How it ended.
    pub end: End,
}

/// What was found so far.
#[derive(Drop)]
struct Found {
    history: History,
    archive: Archive,
}

/// The design of an answer, or that there is none; the answer isn't that a budget is used up.
fn design_in(decoded: Decoded) -> Option<Design>
    requires { decoded ≢ Decoded.Budget }
    ensures { decoded ≡ answer_of result }
{
    match decoded {
        Decoded::First(design) => Some(design),
        Decoded::Nothing => None,
        Decoded::Budget => unreachable!(),
    }
}

/// The first valid design in the genotype's order, or `None` exactly where none is valid. The greatest budget is given: a
/// log has fewer than 2^63 derived lines, so no search reaches it.
fn first_valid(
    alloc: Global,
    decoder: &mut Decoder<'_>,
    genotype: &Genotype,
) -> Result<Option<Design>, AllocError>
    requires { length genotype.now ≡ design_variables decoder.old.spec }
    ensures answer { IfOk result (λ found. DecodedSays decoder.old.spec genotype.now (answer_of found)) }
    ensures log { OnOk result (GoesOnDerived decoder.old.log decoder.new.log) }
    ensures shown { IfOk result (λ found. IsShown decoder.old.spec genotype.now decoder.old.log decoder.new.log (answer_of found)) }
    ensures same { OnOk result (decoder.new ≡ record decoder.old { log = decoder.new.log }) }
{
    let decoded = decoder.decode(alloc, genotype, u64::MAX)?;
    let _learned = decoder.log().learned();
    Ok(design_in(decoded))
}

/// The objectives of a design, and then what was measured of it.
fn vector_with(
    alloc: Global,
    spec: &Spec,
    objectives: &LinearObjectives,
    design: &Design,
    measured: &[u64],
) -> Result<Vector, AllocError>
    requires bits { length design.now ≡ design_variables spec.now }
    requires laid_out { objectives.now ≡ all_laid_out spec.now }
    ensures { IfOk result (λ v. v ≡ vector_of spec.now (bits_of design.now) ++ measured.now) }
{
    let mut numbers = objectives.numbers_of(alloc, spec, design)?;
    numbers.extend_from_slice(measured)?;
    let vector = Vector::of(alloc, &numbers)?;
    Ok(vector)
}

/// The vector of a valid design: its objectives, and what the chosen tools measure.
fn measured_vector(
    alloc: Global,
    spec: &Spec,
    objectives: &LinearObjectives,
    tools: &mut Vec<Box<dyn Evaluator>>,
    chosen: &[usize],
    design: &Design,
) -> Result<Vector, AllocError>
    requires laid_out { objectives.now ≡ all_laid_out spec.now }
    requires bits { length design.now ≡ design_variables spec.now }
    requires valid { IsValid spec.now (bits_of design.now) }
    requires within { All (λ p. p < vec_len tools.old) chosen.now }
    requires room { HasRoom 1 chosen.now (map calls tools.old.items) }
    ensures measured { IfOk result (λ v. v ≡ whole_vector spec.now (λ f. picked (map (λ t. value t spec.now f) tools.old.items) chosen.now) (bits_of design.now)) }
    ensures counted { OnOk result (RoseBy 1 chosen.now (map calls tools.old.items) (map calls tools.new.items)) }
    ensures at_most { RoseAtMost 1 chosen.now (map calls tools.old.items) (map calls tools.new.items) }
    ensures len { vec_len tools.new ≡ vec_len tools.old }
    ensures tags { map text tools.new.items ≡ map text tools.old.items }
    ensures values { (s : SpecValue) (f : Bits) → map (λ t. value t s f) tools.new.items ≡ map (λ t. value t s f) tools.old.items }
{
    let measured = measure_chosen(alloc, tools, chosen, spec, design)?;
    let vector = vector_with(alloc, spec, objectives, design, &measured)?;
    Ok(vector)
}

/// Keeps a member: its vector joins the history, and then it is offered to the archive.
fn keep(alloc: Global, found: &mut Found, member: Member) -> Result<(), AllocError>
    requires { length member.vector ≡ found.old.archive.width }
    ensures history { OnOk result (found.new.history ≡ found.old.history ++ member.vector ∷ []) }
    ensures members { OnOk result (found.new.archive.members ≡ offered covers found.old.archive.members member) }
    ensures best { OnOk result ((entries : List Member) → found.old.archive.members ≡ best covers entries → found.new.archive.members ≡ best covers (entries ++ member ∷ [])) }
    ensures width { OnOk result (found.new.archive.width ≡ found.old.archive.width) }
{
    let vector = Vector::of(alloc, member.vector.numbers())?;
    found.history.add(vector)?;
    found.archive.offer(member)?;
    Ok(())
}

/// One round: `true` where its design was found and kept, `false` where no design is valid.
fn round<W: Words>(
    alloc: Global,
    spec: &Spec,
    objectives: &LinearObjectives,
    decoder: &mut Decoder<'_>,
    words: &mut W,
    tools: &mut Vec<Box<dyn Evaluator>>,
    chosen: &[usize],
    found: &mut Found,
) -> Result<bool, AllocError>
    requires laid_out { objectives.now ≡ all_laid_out spec.now }
    requires same_spec { decoder.old.spec ≡ spec.now }
    requires genes { All (HasGenes (design_variables spec.now)) found.old.archive.members }
    requires width { found.old.archive.width ≡ length spec.now.objectives + length chosen.now }
    requires within { All (λ p. p < vec_len tools.old) chosen.now }
    requires room { HasRoom 1 chosen.now (map calls tools.old.items) }
    ensures round { IfOk result (RoundSays spec.now W.gives W.after (λ f. picked (map (λ t. value t spec.now f) tools.old.items) chosen.now) words.old words.new decoder.old.log decoder.new.log found.old found.new) }
    ensures counted { IfOk result (CountsSay chosen.now (map calls tools.old.items) (map calls tools.new.items)) }
    ensures same { OnOk result (decoder.new ≡ record decoder.old { log = decoder.new.log }) }
    ensures genes { OnOk result (All (HasGenes (design_variables spec.now)) found.new.archive.members) }
    ensures width { OnOk result (found.new.archive.width ≡ found.old.archive.width) }
    ensures at_most { RoseAtMost 1 chosen.now (map calls tools.old.items) (map calls tools.new.items) }
    ensures len { vec_len tools.new ≡ vec_len tools.old }
    ensures tags { map text tools.new.items ≡ map text tools.old.items }
    ensures values { (s : SpecValue) (f : Bits) → map (λ t. value t s f) tools.new.items ≡ map (λ t. value t s f) tools.old.items }
{
    let n = spec.design_variables();
    let genotype = next_genotype(alloc, n, found.archive.members(), words)?;
    match first_valid(alloc, decoder, &genotype)? {
        Some(design) => {
            let vector = measured_vector(alloc, spec, objectives, tools, chosen, &design)?;
            let member = Member {
                genotype,
                design,
                vector,
            };
            keep(alloc, found, member)?;
            Ok(true)
        }
        None => Ok(false),
    }
}

/// What a run comes to, by what it found and how it ends.
fn ended(decoder: Decoder<'_>, found: Found, end: End) -> Run
    requires { decoder.spent ≡ false }
    ensures history { result.history ≡ found.history }
    ensures archive { result.archive ≡ found.archive }
    ensures log { result.log ≡ decoder.entry.log }
    ensures log_of { IsLogOf decoder.entry.spec result.log }
    ensures end { result.end ≡ end }
{
    Run {
        history: found.history,
        archive: found.archive,
        log: decoder.into_log(),
        end,
    }
}

/// A run of so many rounds over one decoder. In each round the genotype is drawn from the words and from the archive, its
/// first valid design is measured by the chosen tools, joins the history and is offered to the archive. It ends as
/// infeasible in its first round exactly where no design is valid; then the log refutes the encoding. Else the log shows
/// of each round's design that it is the first. Each chosen tool is called once a round, and no other tool; where memory
/// is wanted, at most once a round. No call changes what a tool measures, or its name.
pub fn explore<W: Words>(
    alloc: Global,
    spec: &Spec,
    words: &mut W,
    tools: &mut Vec<Box<dyn Evaluator>>,
    params: &Params,
) -> Result<Run, AllocError>
    requires within { All (λ p. p < vec_len tools.old) params.now.chosen.items }
    requires room { HasRoom params.now.rounds params.now.chosen.items (map calls tools.old.items) }
    ensures run { IfOk result (IsRunOf spec.now W.gives W.after (λ f. picked (map (λ t. value t spec.now f) tools.old.items) params.now.chosen.items) words.old words.new params.now.rounds) }
    ensures infeasible { IfOk result (λ run. (run.end ≡ End.Infeasible) ↔ FindsNone spec.now params.now.rounds) }
    ensures log { IfOk result (λ run. IsLogOf spec.now run.log) }
    ensures counted { IfOk result (λ run. RoseBy (length run.history) params.now.chosen.items (map calls tools.old.items) (map calls tools.new.items)) }
    ensures at_most { RoseAtMost params.now.rounds params.now.chosen.items (map calls tools.old.items) (map calls tools.new.items) }
    ensures len { vec_len tools.new ≡ vec_len tools.old }
    ensures tags { map text tools.new.items ≡ map text tools.old.items }
    ensures values { (s : SpecValue) (f : Bits) → map (λ t. value t s f) tools.new.items ≡ map (λ t. value t s f) tools.old.items }
{
    let objectives = LinearObjectives::of(alloc, spec)?;
    let mut decoder = Decoder::new(alloc, spec)?;
    let mut found = Found {
        history: History::new(alloc),
        archive: Archive::new(alloc, spec.objectives() + params.chosen.len()),
    };
    for _round in 0..params.rounds {
        let more = round(
            alloc,
            spec,
            &objectives,
            &mut decoder,
            words,
            tools,
            &params.chosen,
            &mut found,
        )?;
        if !more {
            return Ok(ended(decoder, found, End::Infeasible));
        }
    }
    Ok(ended(decoder, found, End::Done))
}
