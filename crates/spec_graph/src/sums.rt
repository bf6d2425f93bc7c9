//! How large the encoding of a plan is: its further variables and its terms, message by message.
//!
//! The numbers of options of the tasks are counted once, so that the sum over all receivers is cheap.

ghost use Rattle.std.specs.Prelude.{◌≡◌, ◌*◌, ◌<◌, ◌≤◌, ◌^◌, length, All, map, IfOk, sum_by, count_by};
ghost use Rattle.spec_model.specs.Spec.{below};
ghost use Rattle.spec_model.specs.Limits.{most_messages, most_resources, most_links, most_options};
ghost use Rattle.spec_graph.specs.Sums.{kept_further, kept_terms, is_of_task, options_of_task, count_at, IsCounted};

use crate::messages::Message;
use crate::numbers::{Choice, TaskNo};
use std::alloc::{AllocError, Global};
use std::cmp::min;

/// How many further variables the messages account for.
pub fn sum_further(messages: &[Message], resources: u64, most: u64) -> u64
    requires few_messages { length messages.now ≤ most_messages }
    requires few_resources { resources ≤ most_resources }
    requires few_hops { most < most_resources }
    ensures sum { result ≡ sum_by (kept_further resources most) messages.now }
    ensures small { result ≤ 2 ^ 28 }
{
    let mut sum = 0;
    for message in messages {
        sum += resources * (min(message.hops, most) + 2);
    }
    sum
}

/// How many options a task has.
fn count_options(options: &[Choice], task: usize) -> usize
    ensures { result ≡ count_by (is_of_task task) options.now }
{
    options
        .iter()
        .filter(|option| option.task.0 as usize == task)
        .count()
}

/// How many options each task has.
pub fn option_counts(
    alloc: Global,
    options: &[Choice],
    tasks: usize,
) -> Result<Vec<usize>, AllocError>
    ensures { IfOk result (λ counts. counts.items ≡ map (options_of_task options.now) (below tasks)) }
{
    let mut counts = Vec::new(alloc);
    for task in 0..tasks {
        counts.push(count_options(options, task))?;
    }
    Ok(counts)
}

/// How many options the tasks have together.
fn sum_counts(tasks: &[TaskNo], counts: &[usize]) -> u128
    requires there { All (λ t. t.0 < length counts.now) tasks.now }
    requires few { All (λ n. n ≤ most_options) counts.now }
    ensures sum { result ≡ sum_by (count_at counts.now) tasks.now }
    ensures small { result < 2 ^ 80 }
{
    let mut sum = 0;
    for task in tasks {
        sum += counts[task.0 as usize] as u128;
    }
    sum
}

/// How many terms a message accounts for.
fn message_terms(message: &Message, counts: &[usize], resources: u64, arcs: u64, most: u64) -> u128
    requires few_resources { resources ≤ most_resources }
    requires few_arcs { arcs ≤ 2 * most_links }
    requires few_hops { most < most_resources }
    requires sender_there { message.now.sender < length counts.now }
    requires receivers_there { All (λ w. w < length counts.now) message.now.receivers }
    requires few { All (λ n. n ≤ most_options) counts.now }
    ensures terms { result ≡ kept_terms counts.now resources arcs most message.now }
    ensures small { result < 2 ^ 90 }
{
    let limit = min(message.hops, most);
    let steps = resources * (5 * limit + 11) + arcs * (4 * limit + 10);
    let starts = 2 * counts[message.sender.0 as usize];
    steps as u128 + starts as u128 + 3 * sum_counts(&message.receivers, counts)
}

/// How many terms the messages account for.
pub fn sum_terms(
    messages: &[Message],
    counts: &[usize],
    resources: u64,
    arcs: u64,
    most: u64,
) -> u128
    requires few_messages { length messages.now ≤ most_messages }
    requires few_resources { resources ≤ most_resources }
    requires few_arcs { arcs ≤ 2 * most_links }
    requires few_hops { most < most_resources }
    requires there { All (IsCounted counts.now) messages.now }
    requires few { All (λ n. n ≤ most_options) counts.now }
    ensures sum { result ≡ sum_by (kept_terms counts.now resources arcs most) messages.now }
    ensures small { result < 2 ^ 110 }
{
    let mut sum = 0;
    for message in messages {
        sum += message_terms(message, counts, resources, arcs, most);
    }
    sum
}
