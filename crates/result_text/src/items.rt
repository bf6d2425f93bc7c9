//! What the words of a line say of a specification: a design variable, or the numbers of a vector.

ghost use Rattle.std.specs.Prelude.{◌≡◌, ◌<◌, ◌∷◌, [], false, length, map, MatchOption};
ghost use Rattle.std.specs.List.{position_or_len};
ghost use Rattle.names.specs.Names.{number_by_name};
ghost use Rattle.spec_model.specs.Spec.{arc_at, arc_var, resource_var, link_var};
ghost use Rattle.result_text.specs.Stating.{is_no_number, is_name, is_option_of, is_arc_of, arc_number, bind_tests, use_tests, name_tests, item_tests, item_variable, number_in};
ghost use Rattle.result_text.specs.Claims.{Named, Claims};

use line_words::{NumberFault, Why, plain_whole};
use spec_graph::{ArcNo, LinkNo, MsgNo, OptNo, ResNo, Spec, TaskNo};

fn is_no_number(number: Result<u64, NumberFault>) -> bool
    ensures { result ≡ is_no_number number }
{
    match number {
        Err(NumberFault::BadNumber) => true,
        _ => false,
    }
}

#[tactic(auto, using(crate::proofs::Found::found_steps))]
fn find_task(spec: &Spec, word: &str) -> Option<TaskNo>
    ensures { MatchOption result (is_name spec.now.tasks word.now ≡ false) (λ n. Named spec.now.tasks word.now n.0) }
{
    spec.find_task(word)
}

#[tactic(auto, using(crate::proofs::Found::found_steps))]
fn find_message(spec: &Spec, word: &str) -> Option<MsgNo>
    ensures { MatchOption result (is_name spec.now.message_names word.now ≡ false) (λ n. Named spec.now.message_names word.now n.0) }
{
    spec.find_message(word)
}

#[tactic(auto, using(crate::proofs::Found::found_steps))]
fn find_resource(spec: &Spec, word: &str) -> Option<ResNo>
    ensures { MatchOption result (is_name spec.now.resources word.now ≡ false) (λ n. Named spec.now.resources word.now n.0) }
{
    spec.find_resource(word)
}

#[tactic(auto, using(crate::proofs::Found::found_steps))]
fn find_link(spec: &Spec, word: &str) -> Option<LinkNo>
    ensures { MatchOption result (is_name spec.now.links word.now ≡ false) (λ n. Named spec.now.links word.now n.0) }
{
    spec.find_link(word)
}

/// What `bind TASK RESOURCE OPTION` says.
fn bound(spec: &Spec, task: &str, resource: &str, number: &str) -> Result<u64, Why>
    ensures { Claims spec.now (bind_tests spec.now task.now resource.now number.now) (number_in number.now) result }
{
    let number = plain_whole(number);
    if is_no_number(number) {
        return Err(Why::BadNumber);
    }
    let Some(task) = find_task(spec, task) else {
        return Err(Why::UnknownName);
    };
    let Some(resource) = find_resource(spec, resource) else {
        return Err(Why::UnknownName);
    };
    let Ok(option) = number else {
        return Err(Why::TooBig);
    };
    if option >= spec.options() as u64 {
        return Err(Why::UnknownName);
    }
    if !is_option_of(spec, OptNo(option as u32), task, resource) {
        return Err(Why::WrongBinding);
    }
    Ok(option)
}

/// Whether an option is of a task and a resource.
fn is_option_of(spec: &Spec, o: OptNo, task: TaskNo, resource: ResNo) -> bool
    requires { o.0 < length spec.now.options }
    ensures { result ≡ is_option_of spec.now task.0 resource.0 o.0 }
{
    let choice = spec.option(o);
    choice.task == task && choice.resource == resource
}

/// Whether an arc is of a link, and goes from a resource to another.
fn is_arc_of(spec: &Spec, a: ArcNo, link: LinkNo, tail: ResNo, head: ResNo) -> bool
    requires { a.0 < length spec.now.arcs }
    ensures { result ≡ is_arc_of link.0 tail.0 head.0 (arc_at spec.now a.0) }
{
    let arc = spec.arc(a);
    arc.link == link && arc.tail == tail && arc.head == head
}

/// The arc of a link from a resource to another.
fn find_arc(spec: &Spec, link: LinkNo, tail: ResNo, head: ResNo) -> Option<ArcNo>
    ensures { MatchOption result
        (position_or_len (is_arc_of link.0 tail.0 head.0) spec.now.arcs ≡ length spec.now.arcs)
        (λ a. (a.0 ≡ position_or_len (is_arc_of link.0 tail.0 head.0) spec.now.arcs) × (a.0 < length spec.now.arcs)) }
{
    for a in 0..spec.arcs() as u32 {
        if is_arc_of(spec, ArcNo(a), link, tail, head) {
            return Some(ArcNo(a));
        }
    }
    None
}

/// What `use MESSAGE LINK TAIL HEAD` says.
fn used(spec: &Spec, message: &str, link: &str, tail: &str, head: &str) -> Result<u64, Why>
    ensures { Claims spec.now (use_tests spec.now message.now link.now tail.now head.now) (arc_var spec.now (number_by_name spec.now.message_names message.now) (arc_number spec.now link.now tail.now head.now)) result }
{
    let Some(message) = find_message(spec, message) else {
        return Err(Why::UnknownName);
    };
    let Some(link) = find_link(spec, link) else {
        return Err(Why::UnknownName);
    };
    let Some(tail) = find_resource(spec, tail) else {
        return Err(Why::UnknownName);
    };
    let Some(head) = find_resource(spec, head) else {
        return Err(Why::UnknownName);
    };
    let Some(arc) = find_arc(spec, link, tail, head) else {
        return Err(Why::WrongBinding);
    };
    spec.facts();
    Ok(spec.arc_variable(message, arc))
}

/// What `alloc RESOURCE` says.
fn allocated(spec: &Spec, resource: &str) -> Result<u64, Why>
    ensures { Claims spec.now (name_tests spec.now.resources resource.now) (resource_var spec.now (number_by_name spec.now.resources resource.now)) result }
{
    match find_resource(spec, resource) {
        Some(resource) => Ok(spec.resource_variable(resource)),
        None => Err(Why::UnknownName),
    }
}

/// What `wire LINK` says.
fn wired(spec: &Spec, link: &str) -> Result<u64, Why>
    ensures { Claims spec.now (name_tests spec.now.links link.now) (link_var spec.now (number_by_name spec.now.links link.now)) result }
{
    match find_link(spec, link) {
        Some(link) => Ok(spec.link_variable(link)),
        None => Err(Why::UnknownName),
    }
}

/// What a line of two words says.
fn item_of_two(spec: &Spec, keyword: &str, name: &str) -> Result<u64, Why>
    ensures { Claims spec.now (item_tests spec.now (keyword.now ∷ name.now ∷ [])) (item_variable spec.now (keyword.now ∷ name.now ∷ [])) result }
{
    if keyword == "alloc" {
        return allocated(spec, name);
    }
    if keyword == "wire" {
        return wired(spec, name);
    }
    Err(Why::BadStatement)
}

/// What a line of four words says.
fn item_of_four(spec: &Spec, keyword: &str, a: &str, b: &str, c: &str) -> Result<u64, Why>
    ensures { Claims spec.now (item_tests spec.now (keyword.now ∷ a.now ∷ b.now ∷ c.now ∷ [])) (item_variable spec.now (keyword.now ∷ a.now ∷ b.now ∷ c.now ∷ [])) result }
{
    if keyword == "bind" {
        return bound(spec, a, b, c);
    }
    Err(Why::BadStatement)
}

/// What a line of five words says.
fn item_of_five(spec: &Spec, keyword: &str, a: &str, b: &str, c: &str, d: &str) -> Result<u64, Why>
    ensures { Claims spec.now (item_tests spec.now (keyword.now ∷ a.now ∷ b.now ∷ c.now ∷ d.now ∷ [])) (item_variable spec.now (keyword.now ∷ a.now ∷ b.now ∷ c.now ∷ d.now ∷ [])) result }
{
    if keyword == "use" {
        return used(spec, a, b, c, d);
    }
    Err(Why::BadStatement)
}

/// The design variable that a line names, or why it names none.
#[tactic(auto, using(crate::proofs::Found::other_len, std::proofs::lemmas::Grind::common_steps))]
pub(crate) fn item_of(spec: &Spec, words: &[&str]) -> Result<u64, Why>
    ensures { Claims spec.now (item_tests spec.now (map (λ w. w.now) words.now)) (item_variable spec.now (map (λ w. w.now) words.now)) result }
{
    match words {
        [keyword, a] => item_of_two(spec, keyword, a),
        [keyword, a, b, c] => item_of_four(spec, keyword, a, b, c),
        [keyword, a, b, c, d] => item_of_five(spec, keyword, a, b, c, d),
        _ => Err(Why::BadStatement),
    }
}
