//! The top call.

ghost use Rattle.std.specs.Prelude.{◌≡◌, ◌⊎◌, ◌≤◌, ◌-◌, ◌^◌, [], All, None, Some, map, vec_len, length, IfOk, IsSomeAnd, OnErr, OnOk};
ghost use Rattle.std.specs.String.{string_bytes};
ghost use Rattle.desk_io.specs.Causes.{Rose, HasCause};
ghost use Rattle.desk_io.specs.Files.{Appends, Says};
ghost use Rattle.run_words.specs.Fit.{IsFit};
ghost use Rattle.run_words.specs.Requests.{request, usage_text};
ghost use Rattle.run_words.specs.Values.{RequestValue, request_value};
ghost use Rattle.run_words.specs.Exploring.{most_rounds};
ghost use Rattle.run_base.specs.Worlds.{names_value};
ghost use Rattle.file_writes.specs.Writes.{AreWritten, ArePartlyWritten, Leaves};
ghost use Rattle.dse_run.specs.Commands.{HasBudget, KeepsTools};
ghost use Rattle.dse_run.specs.Run.{status_of, Answered, AnswersRequest, AnswersTo, EndsBy, IsCut, IsLeft};

use crate::commands::{answer, inputs_for, names_of};
use crate::exploring::tags_of;
use crate::refusing::put_input;
use crate::status::Status;
use desk_io::{Desk, DeskError};
use evaluators::Evaluator;
use file_writes::Writes;
use line_words::ReadFault;
use run_base::{Ending, Names, Outcome};
use run_words::laws::law_of_requests;
use run_words::{Request, put_usage, read_words};
use std::alloc::{AllocError, Global};
use std::marker::Model;

/// What is said, with the status that it comes with, and the files that are written before.
#[derive(Drop)]
struct Reply {
    status: Status,
    text: Vec<u8>,
    writes: Writes,
}

impl Model for Reply {
    ghost use Rattle.dse_run.specs.Run.{ReplyValue};

    ghost Value = { ReplyValue };

    ghost view = { λ reply. record { status = reply.status; text = reply.text.items; writes = reply.writes } };
}

/// The status of a command that ends by itself.
fn status_of(ending: Ending) -> Status
    ensures { result ≡ status_of ending }
{
    match ending {
        Ending::Done => Status::Done,
        Ending::No => Status::No,
        Ending::Budget => Status::Budget,
    }
}

/// The reply of what a command comes to.
fn reply_of(
    alloc: Global,
    names: &Names<'_>,
    tried: Result<Outcome, ReadFault>,
) -> Result<Reply, AllocError>
    ensures { IfOk result (EndsBy (names_value names.now) tried) }
{
    match tried {
        Ok(outcome) => Ok(Reply {
            status: status_of(outcome.ending),
            text: outcome.text,
            writes: outcome.writes,
        }),
        Err(ReadFault::Refused(refusal)) => {
            let mut text = Vec::new(alloc);
            put_input(alloc, names, refusal, &mut text)?;
            Ok(Reply {
                status: Status::Input,
                text,
                writes: Writes::none(alloc),
            })
        }
        Err(ReadFault::NoMemory) => Err(AllocError),
    }
}

/// The reply to a request. All files that are read whole are loaded before one is refused.
#[tactic(auto, using(crate::proofs::Keeping::same_kept))]
fn reply_to<D: Desk>(
    alloc: Global,
    request: &Request,
    desk: &mut D,
    tools: &mut Vec<Box<dyn Evaluator>>,
) -> Result<Reply, DeskError>
    requires fit { IsFit (vec_len tools.old) (request_value request.now) }
    requires room { All (λ n. n ≤ 2 ^ 63 - most_rounds) (map calls tools.old.items) }
    ensures answer { IfOk result (AnswersRequest (request_value request.now) (record { tags = map text tools.old.items; calls = map calls tools.old.items; values = λ s f. map (λ t. value t s f) tools.old.items }) (map calls tools.new.items) (D.files desk.old)) }
    ensures kept { KeepsTools (Some (request_value request.now)) (record { tags = map text tools.old.items; calls = map calls tools.old.items; values = λ s f. map (λ t. value t s f) tools.old.items }) (record { tags = map text tools.new.items; calls = map calls tools.new.items; values = λ s f. map (λ t. value t s f) tools.new.items }) }
    ensures files { D.files desk.new ≡ D.files desk.old }
    ensures said { D.said desk.new ≡ D.said desk.old }
    ensures cause { HasCause (D.faults desk.old) (D.faults desk.new) result }
{
    let names = names_of(request);
    let inputs = inputs_for(alloc, desk, request, &names)?;
    let tried = answer(alloc, desk, request, &inputs, tools)?;
    let reply = reply_of(alloc, &names, tried)?;
    Ok(reply)
}

/// The reply to words that are no request.
fn usage(alloc: Global) -> Result<Reply, AllocError>
    ensures { IfOk result (λ reply. reply ≡ record { status = Status.Usage; text = usage_text; writes = [] }) }
{
    let mut text = Vec::new(alloc);
    put_usage(alloc, &mut text)?;
    Ok(Reply {
        status: Status::Usage,
        text,
        writes: Writes::none(alloc),
    })
}

/// The reply to words. No file is written yet.
#[tactic(auto, using(crate::proofs::Keeping::same_kept))]
fn respond<D: Desk>(
    alloc: Global,
    words: &[String],
    desk: &mut D,
    tools: &mut Vec<Box<dyn Evaluator>>,
) -> Result<Reply, DeskError>
    requires room { All (λ n. n ≤ 2 ^ 63 - most_rounds) (map calls tools.old.items) }
    ensures answer { IfOk result (AnswersTo (request (map text tools.old.items) (map string_bytes words.now)) (record { tags = map text tools.old.items; calls = map calls tools.old.items; values = λ s f. map (λ t. value t s f) tools.old.items }) (map calls tools.new.items) (D.files desk.old)) }
    ensures kept { KeepsTools (request (map text tools.old.items) (map string_bytes words.now)) (record { tags = map text tools.old.items; calls = map calls tools.old.items; values = λ s f. map (λ t. value t s f) tools.old.items }) (record { tags = map text tools.new.items; calls = map calls tools.new.items; values = λ s f. map (λ t. value t s f) tools.new.items }) }
    ensures fit { (asked : RequestValue) → request (map text tools.old.items) (map string_bytes words.now) ≡ Some asked → IsFit (length (map text tools.old.items)) asked }
    ensures files { D.files desk.new ≡ D.files desk.old }
    ensures said { D.said desk.new ≡ D.said desk.old }
    ensures cause { HasCause (D.faults desk.old) (D.faults desk.new) result }
{
    law_of_requests();
    let tags = tags_of(alloc, tools)?;
    match read_words(alloc, words, &tags)? {
        Some(request) => reply_to(alloc, &request, desk, tools),
        None => {
            let reply = usage(alloc)?;
            Ok(reply)
        }
    }
}

/// Writes the files of a reply, and then says its text.
fn give<D: Desk>(alloc: Global, desk: &mut D, reply: &Reply) -> Result<(), DeskError>
    ensures written { OnOk result (Leaves (D.files desk.old) (D.files desk.new) (AreWritten reply.now.writes)) }
    ensures says { OnOk result (Says (D.said desk.old) (D.said desk.new) (Appends reply.now.text)) }
    ensures part { OnErr result (Leaves (D.files desk.old) (D.files desk.new) (ArePartlyWritten reply.now.writes)) }
    ensures cause { HasCause (D.faults desk.old) (D.faults desk.new) result }
{
    reply.writes.write(alloc, desk)?;
    desk.say(&reply.text)
}

/// The reply, given.
#[tactic(auto, using(crate::proofs::Keeping::same_kept))]
fn attempt<D: Desk>(
    alloc: Global,
    words: &[String],
    desk: &mut D,
    tools: &mut Vec<Box<dyn Evaluator>>,
) -> Result<Status, DeskError>
    requires room { All (λ n. n ≤ 2 ^ 63 - most_rounds) (map calls tools.old.items) }
    ensures answer { IfOk result (Answered (request (map text tools.old.items) (map string_bytes words.now)) (record { tags = map text tools.old.items; calls = map calls tools.old.items; values = λ s f. map (λ t. value t s f) tools.old.items }) (map calls tools.new.items) (D.files desk.old) (D.files desk.new) (D.said desk.old) (D.said desk.new)) }
    ensures left { OnErr result (IsLeft (request (map text tools.old.items) (map string_bytes words.now)) (record { tags = map text tools.old.items; calls = map calls tools.old.items; values = λ s f. map (λ t. value t s f) tools.old.items }) (map calls tools.new.items) (D.files desk.old) (D.files desk.new)) }
    ensures kept { KeepsTools (request (map text tools.old.items) (map string_bytes words.now)) (record { tags = map text tools.old.items; calls = map calls tools.old.items; values = λ s f. map (λ t. value t s f) tools.old.items }) (record { tags = map text tools.new.items; calls = map calls tools.new.items; values = λ s f. map (λ t. value t s f) tools.new.items }) }
    ensures budget { IfOk result (λ status. status ≡ Status.Budget → IsSomeAnd (request (map text tools.old.items) (map string_bytes words.now)) HasBudget) }
    ensures cause { HasCause (D.faults desk.old) (D.faults desk.new) result }
{
    let reply = respond(alloc, words, desk, tools)?;
    give(alloc, desk, &reply)?;
    Ok(reply.status)
}

/// Runs the program on these words: writes the files of its answer, and says its text. An exploration measures by the
/// tools whose tags its line names, and calls each of these at most once a round; each tool has been called at most
/// 2^63 - 65,536 times before. No other command calls a tool, and none changes a tool's tag or what it measures.
pub fn run<D: Desk>(
    alloc: Global,
    words: &[String],
    desk: &mut D,
    tools: &mut Vec<Box<dyn Evaluator>>,
) -> Status
    requires room { All (λ n. n ≤ 2 ^ 63 - most_rounds) (map calls tools.old.items) }
    ensures answer { Answered (request (map text tools.old.items) (map string_bytes words.now)) (record { tags = map text tools.old.items; calls = map calls tools.old.items; values = λ s f. map (λ t. value t s f) tools.old.items }) (map calls tools.new.items) (D.files desk.old) (D.files desk.new) (D.said desk.old) (D.said desk.new) result ⊎ IsCut result }
    ensures left { IsCut result → IsLeft (request (map text tools.old.items) (map string_bytes words.now)) (record { tags = map text tools.old.items; calls = map calls tools.old.items; values = λ s f. map (λ t. value t s f) tools.old.items }) (map calls tools.new.items) (D.files desk.old) (D.files desk.new) }
    ensures kept { KeepsTools (request (map text tools.old.items) (map string_bytes words.now)) (record { tags = map text tools.old.items; calls = map calls tools.old.items; values = λ s f. map (λ t. value t s f) tools.old.items }) (record { tags = map text tools.new.items; calls = map calls tools.new.items; values = λ s f. map (λ t. value t s f) tools.new.items }) }
    ensures usage { (result ≡ Status.Usage → request (map text tools.old.items) (map string_bytes words.now) ≡ None) × (request (map text tools.old.items) (map string_bytes words.now) ≡ None → (result ≡ Status.Usage) ⊎ IsCut result) }
    ensures budget { result ≡ Status.Budget → IsSomeAnd (request (map text tools.old.items) (map string_bytes words.now)) HasBudget }
    ensures fault { result ≡ Status.Fault → Rose (D.faults desk.old) (D.faults desk.new) }
    ensures quiet { (D.faults desk.new ≡ D.faults desk.old) ⊎ IsCut result }
{
    match attempt(alloc, words, desk, tools) {
        Ok(status) => status,
        Err(DeskError::Failed) => {
            let _ = desk.say(b"fault\n");
            Status::Fault
        }
        Err(DeskError::NoMemory) => {
            let _ = desk.say(b"memory\n");
            Status::Memory
        }
    }
}
