//! Whether a picture is well-formed: its tags are closed in their order, and `&` stands only where an escape begins.

use std::alloc::Global;

/// The escapes that a picture may have.
static ESCAPES: [&[u8]; 5] = [b"&amp;", b"&lt;", b"&gt;", b"&quot;", b"&apos;"];

/// Whether the text is a well-formed piece of XML.
pub fn is_well_formed(alloc: Global, text: &[u8]) -> bool {
    let mut names: Vec<&[u8]> = Vec::new(alloc);
    let mut left = text;
    for _ in text {
        let Some(place) = left.iter().position(|byte| *byte == b'<' || *byte == b'&') else {
            return names.is_empty();
        };
        let Some(behind) = take(&mut names, &left[place..]) else {
            return false;
        };
        left = behind;
    }
    left.is_empty() && names.is_empty()
}

/// What stands behind the tag or the escape that the text begins with. The names are those of the tags that aren't closed yet.
fn take<'a>(names: &mut Vec<&'a [u8]>, text: &'a [u8]) -> Option<&'a [u8]> {
    if let [b'&', ..] = text {
        return behind_escape(text);
    }
    let end = text.iter().position(|byte| *byte == b'>')?;
    let (tag, behind) = text.split_at_checked(end)?;
    let [_, behind @ ..] = behind else {
        return None;
    };
    match tag {
        [b'<', b'/', name @ ..] => {
            if names.pop()? != name {
                return None;
            }
        }
        [.., b'/'] => (),
        [b'<', inner @ ..] => names.push(name_of(inner)).ok()?,
        _ => return None,
    }
    Some(behind)
}

fn behind_escape(text: &[u8]) -> Option<&[u8]> {
    for escape in &ESCAPES {
        if let Some(behind) = text.strip_prefix(*escape) {
            return Some(behind);
        }
    }
    None
}

/// The name of a tag.
fn name_of(inner: &[u8]) -> &[u8] {
    match inner.iter().position(|byte| *byte == b' ') {
        Some(end) => &inner[..end],
        None => inner,
    }
}
