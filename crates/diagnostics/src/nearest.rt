//! The name that is perhaps meant by a misspelled one.

use std::alloc::{AllocError, Global};
use strsim::osa_distance;

// Longer names are not compared: a comparison takes time by the product of the lengths.
const LONGEST: usize = 64;

/// The nearest of the names, if it is at most a third of the name's length of edits away: the first
/// of those that are equally near. Nothing is near to a name of one or two letters.
pub fn nearest_name<'a>(
    alloc: Global,
    name: &str,
    names: &[&'a str],
) -> Result<Option<&'a str>, AllocError> {
    let mut best = None;
    if name.len() > LONGEST {
        return Ok(best);
    }
    let mut limit = (name.len() / 3).saturating_add(1);
    for candidate in names {
        if candidate.len().abs_diff(name.len()) >= limit {
            continue;
        }
        let distance = osa_distance(alloc, name, candidate)?;
        if distance < limit {
            limit = distance;
            best = Some(*candidate);
        }
    }
    Ok(best)
}
