//! Holding what is seen beside what is wanted.

use crate::answers::Came;
use crate::facts::Text;
use crate::views::Views;
use std::alloc::{AllocError, Global};
use std::fmt::Write;

/// Adds a number to a text, hexadecimal and after a blank.
fn tell(text: &mut String, number: u64) -> Result<(), AllocError> {
    write!(text, " {number:x}")
}

/// Numbers as such a text.
fn told(alloc: Global, numbers: &[u64]) -> Result<String, AllocError> {
    let mut text = String::new(alloc);
    for number in numbers {
        tell(&mut text, *number)?;
    }
    Ok(text)
}

/// Wanted numbers as such a text; `_` is none.
fn told_wanted(alloc: Global, numbers: &[Option<u64>]) -> Result<String, AllocError> {
    let mut text = String::new(alloc);
    for number in numbers {
        match number {
            Some(number) => tell(&mut text, *number)?,
            None => text.push_str(" _")?,
        }
    }
    Ok(text)
}

/// Whether numbers are those that are wanted.
fn are(seen: &[u64], wanted: &[Option<u64>]) -> bool {
    if seen.len() != wanted.len() {
        return false;
    }
    for i in 0..wanted.len() {
        if let Some(number) = wanted[i]
            && number != seen[i]
        {
            return false;
        }
    }
    true
}

/// How numbers differ from those that are wanted, where they do. All are hexadecimal.
pub fn numbers_differ(
    alloc: Global,
    seen: &[u64],
    wanted: &[Option<u64>],
) -> Result<Option<String>, AllocError> {
    if are(seen, wanted) {
        return Ok(None);
    }
    let seen = told(alloc, seen)?;
    let wanted = told_wanted(alloc, wanted)?;
    let text = format!(in alloc; "seen (hexadecimal){seen}, wanted{wanted}")?;
    Ok(Some(text))
}

/// So many bytes from a place on, or as many as there are.
fn from_place(bytes: &[u8], place: usize, count: usize) -> &[u8] {
    let bytes = bytes.get(place..).unwrap_or(&[]);
    bytes.get(..count.min(bytes.len())).unwrap_or(&[])
}

/// How bytes differ from those that are wanted, where they do.
fn bytes_differ(alloc: Global, seen: &[u8], wanted: &[u8]) -> Result<Option<String>, AllocError> {
    if seen == wanted {
        return Ok(None);
    }
    let first = String::from_utf8_lossy(alloc, from_place(seen, 0, 100))?;
    let (seen, wanted) = (seen.len(), wanted.len());
    let text = format!(in alloc; "seen {seen} bytes, wanted {wanted}; they begin with {first:?}")?;
    Ok(Some(text))
}

/// How numbers differ, at the first place where they do.
fn places_differ(
    alloc: Global,
    places: &[Vec<u64>],
    wanted: &[Option<u64>],
) -> Result<Option<String>, AllocError> {
    for numbers in places {
        if !are(numbers.as_slice(), wanted) {
            return numbers_differ(alloc, numbers.as_slice(), wanted);
        }
    }
    Ok(None)
}

/// How numbers differ, where there are any.
pub fn views_differ(
    alloc: Global,
    views: &Views,
    wanted: &[Option<u64>],
) -> Result<Option<String>, AllocError> {
    if views.places().is_empty() {
        return Ok(Some(String::from_str(alloc, "there is nothing to see")?));
    }
    places_differ(alloc, views.places(), wanted)
}

/// How the bytes of a call differ from those that are wanted, where they do.
pub fn text_differs(
    alloc: Global,
    came: &Came,
    of: Text,
    wanted: &[u8],
) -> Result<Option<String>, AllocError> {
    let seen = match of {
        Text::Note => came.note.as_slice(),
        Text::Out => came.out.as_slice(),
        Text::OutAt(place) => from_place(came.out.as_slice(), place, wanted.len()),
    };
    bytes_differ(alloc, seen, wanted)
}
