//! What the words look for in the first index.

use crate::range_text::parts;
use crate::search::Search;
use crate::search_key::{Subject, above};
use crate::table::{Asked, Failure, Refusal};
use command_line::IndexWords;
use keybytes::Key;
use std::alloc::Global;

/// What the words look for, in the order in which it is printed.
pub fn searches(
    alloc: Global,
    words: &IndexWords<'_>,
    asked: &Asked,
) -> Result<Vec<Search>, Failure> {
    let mut searches = Vec::new(alloc);
    let Some(spec) = asked.specs.first() else {
        return Ok(searches);
    };
    let subject = Subject {
        alloc,
        schema: &asked.schema,
        columns: asked.columns.as_slice(),
        spec,
    };
    if let Some(text) = words.find {
        searches.push(find(subject, text)?)?;
    }
    if let Some(text) = words.range {
        searches.push(range(subject, text)?)?;
    }
    Ok(searches)
}

/// The rows whose keys begin with the cells of a text.
fn find(subject: Subject<'_>, text: &str) -> Result<Search, Failure> {
    let (key, is_whole) = subject.key(text)?;
    if is_whole {
        return Ok(Search::Key(key));
    }
    let end = above(&key)?;
    Ok(Search::Between(key, end))
}

/// The rows from one key on, and before another.
fn range(subject: Subject<'_>, text: &str) -> Result<Search, Failure> {
    let Some((from, to)) = parts(text) else {
        return Err(Failure::refused(subject.alloc, Refusal::Range, text));
    };
    let from = first_key(subject, from)?;
    let to = end_key(subject, to)?;
    Ok(Search::Between(from, to))
}

/// The key from which a range goes on; where none is given that is the least one.
fn first_key(subject: Subject<'_>, text: &str) -> Result<Key, Failure> {
    if text.is_empty() {
        return Ok(Key::new(subject.alloc));
    }
    let (key, _) = subject.key(text)?;
    Ok(key)
}

/// The key before which a range ends; where none is given that is one above all.
fn end_key(subject: Subject<'_>, text: &str) -> Result<Key, Failure> {
    if text.is_empty() {
        return Ok(above(&Key::new(subject.alloc))?);
    }
    let (key, _) = subject.key(text)?;
    Ok(key)
}
