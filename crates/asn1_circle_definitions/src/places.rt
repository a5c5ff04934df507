//! Places in a value of a knot.
use std::alloc::{AllocError, Global};

/// A place in a value of the knot.
#[derive(Drop)]
pub(crate) struct Place {
    /// The name of its lemma.
    pub(crate) name: String,
    /// The variables on the way, as a lemma binds them.
    pub(crate) binders: String,
    /// The names of these.
    pub(crate) arguments: String,
    // The terms in front of the value in a value of the knot, and behind it.
    front: String,
    back: String,
    // The terms in front of a function of the value that was written, and behind it: a function of the knot that was written.
    found_front: String,
    found_back: String,
    /// The number of variables on the way.
    pub(crate) depth: usize,
}

/// The place of whole values.
pub(crate) fn whole(alloc: Global) -> Result<Place, AllocError> {
    Ok(Place {
        name: String::from_str(alloc, "same_records")?,
        binders: String::from_str(alloc, "(f : Knot-F Knot)")?,
        arguments: String::from_str(alloc, "f")?,
        front: String::new(alloc),
        back: String::new(alloc),
        found_front: String::new(alloc),
        found_back: String::new(alloc),
        depth: 0,
    })
}

/// The same place with one more variable, of this type.
pub(crate) fn bind(alloc: Global, place: &Place, bound: &str) -> Result<Place, AllocError> {
    around(alloc, place, Some(bound), ["", "", "", ""])
}

/// A place in another: with one more variable, if a type is given for it, and with these texts around the value, and around what is
/// found.
pub(crate) fn around(
    alloc: Global,
    place: &Place,
    bound: Option<&str>,
    texts: [&str; 4],
) -> Result<Place, AllocError> {
    let [front, back, found_front, found_back] = texts;
    let outer_front = place.front.as_str();
    let outer_back = place.back.as_str();
    let outer_found = place.found_front.as_str();
    let outer_found_back = place.found_back.as_str();
    Ok(Place {
        name: String::from_str(alloc, place.name.as_str())?,
        binders: binders_with(alloc, place, bound)?,
        arguments: arguments_with(alloc, place, bound)?,
        front: format!(in alloc; "{outer_front}{front}")?,
        back: format!(in alloc; "{back}{outer_back}")?,
        found_front: format!(in alloc; "{outer_found}{found_front}")?,
        found_back: format!(in alloc; "{found_back}{outer_found_back}")?,
        depth: depth_with(place, bound),
    })
}

// The variables on the way with one more, if a type is given for it.
fn binders_with(alloc: Global, place: &Place, bound: Option<&str>) -> Result<String, AllocError> {
    let binders = place.binders.as_str();
    let depth = place.depth;
    match bound {
        Some(bound) => format!(in alloc; "{binders} (v{depth} : {bound})"),
        None => String::from_str(alloc, binders),
    }
}

// The names of the variables on the way, likewise.
fn arguments_with(alloc: Global, place: &Place, bound: Option<&str>) -> Result<String, AllocError> {
    let arguments = place.arguments.as_str();
    let depth = place.depth;
    match bound {
        Some(_) => format!(in alloc; "{arguments} v{depth}"),
        None => String::from_str(alloc, arguments),
    }
}

// The number of variables on the way, likewise.
fn depth_with(place: &Place, bound: Option<&str>) -> usize {
    match bound {
        Some(_) => place.depth.saturating_add(1),
        None => place.depth,
    }
}

/// The same place under a longer name.
pub(crate) fn named(alloc: Global, place: Place, part: &str) -> Result<Place, AllocError> {
    let mut place = place;
    let name = place.name.as_str();
    let longer = format!(in alloc; "{name}-{part}")?;
    place.name = longer;
    Ok(place)
}

/// The term that finds a place again in a value of the knot that was written.
pub(crate) fn found_at(
    alloc: Global,
    place: &Place,
    written: &str,
    value: &str,
) -> Result<String, AllocError> {
    let found_front = place.found_front.as_str();
    let found_back = place.found_back.as_str();
    let front = place.front.as_str();
    let back = place.back.as_str();
    format!(in alloc; "{found_front}{written}{found_back} (mapped f ({front}{value}{back}))")
}
