//! `c = from_points K V ..` and kin: maps made of pairs.
use script_words::{Fault, Map, ScriptKey, key, points, ranges, value};
use std::alloc::{AllocError, Global};
use std::ops::RangeInclusive;

/// The form of pairs: owned, with borrowed values, borrowed, or borrowed with borrowed values.
#[derive(Clone, Copy)]
pub enum Form {
    Owned,
    RefValue,
    Ref,
    RefRefValue,
}

/// The pairs of which a map is made.
#[derive(Drop)]
pub enum FromPairs<T: ScriptKey> {
    Points(Form, Vec<(T, String)>),
    Ranges(Form, Vec<(RangeInclusive<T>, String)>),
    Array(Vec<(T, String)>),
}

impl<T: ScriptKey> FromPairs<T> {
    /// The pairs that the words behind `=` give.
    pub fn read(alloc: Global, words: &[&str]) -> Result<Self, Fault> {
        let [call, pairs @ ..] = words else {
            return Err(Fault::Bad);
        };
        if *call == "from_array" {
            return Ok(FromPairs::Array(points(alloc, pairs)?));
        }
        match point_form(call) {
            Some(form) => Ok(FromPairs::Points(form, points(alloc, pairs)?)),
            None => Ok(FromPairs::Ranges(range_form(call)?, ranges(alloc, pairs)?)),
        }
    }

    /// Makes the call.
    pub fn make(self, alloc: Global) -> Result<Map<T>, Fault> {
        match self {
            FromPairs::Points(Form::Owned, pairs) => Ok(Map::from_points(alloc, pairs)?),
            FromPairs::Ranges(Form::Owned, pairs) => Ok(Map::from_ranges(alloc, pairs)?),
            FromPairs::Points(form, pairs) => Ok(of_borrowed_points(alloc, form, &pairs)?),
            FromPairs::Ranges(form, pairs) => Ok(of_borrowed_ranges(alloc, form, &pairs)?),
            FromPairs::Array(pairs) => of_three(alloc, pairs),
        }
    }
}

/// How a call is given keys with values.
fn point_form(call: &str) -> Option<Form> {
    match call {
        "from_points" => Some(Form::Owned),
        "from_points_ref_value" => Some(Form::RefValue),
        "from_ref_points" => Some(Form::Ref),
        "from_ref_points_ref_value" => Some(Form::RefRefValue),
        _ => None,
    }
}

/// How a call is given ranges with values.
fn range_form(call: &str) -> Result<Form, Fault> {
    match call {
        "from_ranges" => Ok(Form::Owned),
        "from_ranges_ref_value" => Ok(Form::RefValue),
        "from_ref_ranges" => Ok(Form::Ref),
        "from_ref_ranges_ref_value" => Ok(Form::RefRefValue),
        _ => Err(Fault::Bad),
    }
}

/// The map of an array.
fn of_array<T: ScriptKey>(alloc: Global, pairs: [(T, String); 3]) -> Result<Map<T>, AllocError> {
    Map::from_array(alloc, pairs)
}

/// The map of an array of three pairs. Any other number of pairs is an error of the script.
fn of_three<T: ScriptKey>(alloc: Global, pairs: Vec<(T, String)>) -> Result<Map<T>, Fault> {
    let mut pairs = pairs.into_iter();
    let (Some(first), Some(second), Some(third), None) = (
        pairs.next(),
        pairs.next(),
        pairs.next(),
        pairs.next(),
    ) else {
        return Err(Fault::Bad);
    };
    Ok(of_array(alloc, [first, second, third])?)
}

/// The map of borrowed pairs of a key and a borrowed value.
fn of_ref_points<'a, T: ScriptKey>(
    alloc: Global,
    pairs: &'a [(T, &'a String)],
) -> Result<Map<T>, AllocError> {
    Map::from_ref_points_ref_value(alloc, pairs)
}

/// The map of borrowed pairs of a range and a borrowed value.
fn of_ref_ranges<'a, T: ScriptKey>(
    alloc: Global,
    pairs: &'a [(RangeInclusive<T>, &'a String)],
) -> Result<Map<T>, AllocError> {
    Map::from_ref_ranges_ref_value(alloc, pairs)
}

/// The map of pairs of a key and a value, of which at least the values are borrowed.
fn of_borrowed_points<T: ScriptKey>(
    alloc: Global,
    form: Form,
    pairs: &Vec<(T, String)>,
) -> Result<Map<T>, AllocError> {
    if let Form::Ref = form {
        return Map::from_ref_points(alloc, pairs);
    }
    let mut borrowed = Vec::new(alloc);
    for (key, value) in pairs {
        borrowed.push((*key, value))?;
    }
    match form {
        Form::RefRefValue => of_ref_points(alloc, borrowed.as_slice()),
        _ => Map::from_points_ref_value(alloc, borrowed),
    }
}

/// The map of pairs of a range and a value, of which at least the values are borrowed.
fn of_borrowed_ranges<T: ScriptKey>(
    alloc: Global,
    form: Form,
    pairs: &Vec<(RangeInclusive<T>, String)>,
) -> Result<Map<T>, AllocError> {
    if let Form::Ref = form {
        return Map::from_ref_ranges(alloc, pairs);
    }
    let mut borrowed = Vec::new(alloc);
    for (range, value) in pairs {
        borrowed.push((*range.start()..=*range.end(), value))?;
    }
    match form {
        Form::RefRefValue => of_ref_ranges(alloc, borrowed.as_slice()),
        _ => Map::from_ranges_ref_value(alloc, borrowed),
    }
}
