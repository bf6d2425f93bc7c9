//! The tools that a list names by their tags.

ghost use Rattle.std.specs.Prelude.{◌≡◌, [], IfOk, map, option_map, string_bytes};
ghost use Rattle.std.specs.List.{list_all, list_any};
ghost use Rattle.std.specs.Str.{bytes_eq};
ghost use Rattle.form_words.specs.Line.{has_text};
ghost use Rattle.run_words.specs.Tools.{are_apart, chosen_by, chosen_if_given, is_named, is_tag, places_of, tags_of};

use std::alloc::{AllocError, Global};

/// The tags of a list, between its commas.
fn tags_of<'a>(alloc: Global, text: &'a str) -> Result<Vec<&'a str>, AllocError>
    ensures { IfOk result (λ named. map (λ s. s.now) named.items ≡ tags_of text.entry.now) }
{
    text.split(',').collect(alloc)
}

/// Whether some tag is this text.
fn is_among(tags: &[String], text: &str) -> bool
    ensures { result ≡ list_any (λ t. bytes_eq (string_bytes t) text.now) tags.now }
{
    tags.iter().any(|tag| tag.as_str() == text)
}

/// Whether a tool has the tag.
fn has_tag(tags: &[String], tag: &str) -> bool
    ensures { result ≡ has_text (map string_bytes tags.now) tag.now }
{
    is_among(tags, tag)
}

/// Whether the tag is named.
fn has_name(named: &[&str], tag: &str) -> bool
    ensures { result ≡ has_text (map (λ s. s.now) named.now) tag.now }
{
    named.contains(&tag)
}

/// Whether a name is a tool's tag, and not empty.
fn is_tag(tags: &[String], name: &str) -> bool
    ensures { result ≡ is_tag (map string_bytes tags.now) name.now }
{
    if name.len() > 0 {
        has_tag(tags, name)
    } else {
        false
    }
}

/// Whether each name passes as a tool's tag.
fn each_is_tag(tags: &[String], named: &[&str]) -> bool
    ensures { result ≡ list_all (λ s. is_tag (map string_bytes tags.now) s.now) named.now }
{
    named.iter().all(|name| is_tag(tags, name))
}

/// Whether all names are tags of tools.
fn are_tags(tags: &[String], named: &[&str]) -> bool
    ensures { result ≡ list_all (is_tag (map string_bytes tags.now)) (map (λ s. s.now) named.now) }
{
    each_is_tag(tags, named)
}

/// Whether no name stands twice.
fn are_apart(named: &[&str]) -> bool
    ensures { result ≡ are_apart (map (λ s. s.now) named.now) }
{
    for i in 0..named.len() {
        if has_name(&named[i + 1..], named[i]) {
            return false;
        }
    }
    true
}

/// Whether a tool is named by its tag, which no tool before it has.
fn is_named(named: &[&str], before: &[String], tag: &str) -> bool
    ensures { result ≡ is_named (map (λ s. s.now) named.now) (map string_bytes before.now) tag.now }
{
    if has_name(named, tag) {
        !has_tag(before, tag)
    } else {
        false
    }
}

/// The places of the named tools, rising.
fn places_of(alloc: Global, tags: &[String], named: &[&str]) -> Result<Vec<usize>, AllocError>
    ensures { IfOk result (λ places. places.items ≡ places_of (map string_bytes tags.now) (map (λ s. s.now) named.now)) }
{
    let mut places = Vec::new(alloc);
    for i in 0..tags.len() {
        let takes = is_named(named, &tags[..i], tags[i].as_str());
        if takes {
            places.push(i)?;
        }
    }
    Ok(places)
}

/// The places of the named tools; `None` where a name is no tool's tag, or stands twice.
fn chosen_by(
    alloc: Global,
    tags: &[String],
    named: &[&str],
) -> Result<Option<Vec<usize>>, AllocError>
    ensures { IfOk result (λ chosen. option_map (λ v. v.items) chosen ≡ chosen_by (map string_bytes tags.now) (map (λ s. s.now) named.now)) }
{
    if !are_tags(tags, named) {
        return Ok(None);
    }
    if !are_apart(named) {
        return Ok(None);
    }
    Ok(Some(places_of(alloc, tags, named)?))
}

/// The places of the tools of a list, rising, and none where no list is given; `None` where the list names a tag that no
/// tool has, names one twice, or has an empty place.
pub(crate) fn chosen_if_given(
    alloc: Global,
    tags: &[String],
    list: Option<&str>,
) -> Result<Option<Vec<usize>>, AllocError>
    ensures { IfOk result (λ chosen. option_map (λ v. v.items) chosen ≡ chosen_if_given (map string_bytes tags.now) (option_map (λ s. s.now) list.entry)) }
{
    match list {
        None => Ok(Some(Vec::new(alloc))),
        Some(text) => {
            let named = tags_of(alloc, text)?;
            chosen_by(alloc, tags, &named)
        }
    }
}
