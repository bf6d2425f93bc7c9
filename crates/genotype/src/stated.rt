//! The numbers of a statement, and what they are refused for.

ghost use Rattle.std.specs.Prelude.{◌≡◌, map, None};
ghost use Rattle.line_words.specs.Rules.{first_broken};
ghost use Rattle.file_bricks.specs.Numbers.{read_or};
ghost use Rattle.genotype.specs.Statements.{stated_of, is_no_bit, is_wide, is_from, is_below, has_bad_number, has_big_number, gene_tests};

use file_bricks::{first_broken, is_bad, is_big};
use line_words::{NumberFault, Why, whole};

/// The numbers of a statement `gene V P B`, as its words read.
#[derive(Clone, Copy)]
pub(crate) struct Stated {
    pub(crate) variable: Result<u64, NumberFault>,
    pub(crate) priority: Result<u64, NumberFault>,
    pub(crate) phase: Result<u64, NumberFault>,
}

#[tactic(auto, using(crate::proofs::Stating::other_len, std::proofs::lemmas::Grind::common_steps))]
pub(crate) fn stated_of(words: &[&str]) -> Option<Stated>
    ensures { result ≡ stated_of (map (λ w. w.now) words.now) }
{
    match words {
        [keyword, variable, priority, phase] => {
            if *keyword == "gene" {
                Some(Stated {
                    variable: whole(variable),
                    priority: whole(priority),
                    phase: whole(phase),
                })
            } else {
                None
            }
        }
        _ => None,
    }
}

fn is_no_bit(number: Result<u64, NumberFault>) -> bool
    ensures { result ≡ is_no_bit number }
{
    match number {
        Ok(bit) => bit > 1,
        Err(_) => false,
    }
}

fn is_wide(number: Result<u64, NumberFault>) -> bool
    ensures { result ≡ is_wide number }
{
    match number {
        Ok(priority) => priority >= 1 << 32,
        Err(_) => false,
    }
}

fn is_from(n: u64, number: Result<u64, NumberFault>) -> bool
    ensures { result ≡ is_from n number }
{
    match number {
        Ok(variable) => variable >= n,
        Err(_) => false,
    }
}

fn is_below(least: u64, number: Result<u64, NumberFault>) -> bool
    ensures { result ≡ is_below least number }
{
    match number {
        Ok(variable) => variable < least,
        Err(_) => false,
    }
}

fn has_bad_number(stated: Stated) -> bool
    ensures { result ≡ has_bad_number stated }
{
    is_bad(stated.variable)
        || is_bad(stated.priority)
        || is_bad(stated.phase)
        || is_no_bit(stated.phase)
}

fn has_big_number(stated: Stated) -> bool
    ensures { result ≡ has_big_number stated }
{
    is_big(stated.variable)
        || is_big(stated.priority)
        || is_big(stated.phase)
        || is_wide(stated.priority)
}

/// The first rule that a gene's statement breaks, where there are `n` genes and its variable is to be at least `least`.
pub(crate) fn fault_of(n: u64, least: u64, stated: Stated) -> Option<Why>
    ensures { result ≡ first_broken (gene_tests n least stated) }
{
    first_broken(&[
        (Why::BadNumber, has_bad_number(stated)),
        (Why::UnknownName, is_from(n, stated.variable)),
        (Why::TooBig, has_big_number(stated)),
        (Why::NotInOrder, is_below(least, stated.variable)),
    ])
}

/// The number of a statement without fault.
pub(crate) fn number_of(number: Result<u64, NumberFault>) -> u64
    ensures { result ≡ read_or 0 number }
{
    match number {
        Ok(number) => number,
        Err(_) => 0,
    }
}
