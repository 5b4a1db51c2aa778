//! `c = a | &b` and kin: operators, each operand owned or borrowed.
use range_map_blaze::RangeSetBlaze;
use script_words::{Fault, Map, MapName, ScriptKey, SetName, State};
use std::alloc::AllocError;

/// An operand's name, and whether it is borrowed.
#[derive(Clone, Copy)]
struct Operand<N> {
    name: N,
    is_borrowed: bool,
}

impl Operand<MapName> {
    fn read(word: &str) -> Result<Self, Fault> {
        let (is_borrowed, name) = split_ampersand(word);
        let name = MapName::read(name)?;
        Ok(Operand { name, is_borrowed })
    }
}

impl Operand<SetName> {
    fn read_set(word: &str) -> Result<Self, Fault> {
        let (is_borrowed, name) = split_ampersand(word);
        let name = SetName::read(name)?;
        Ok(Operand { name, is_borrowed })
    }
}

/// Whether a word begins with `&`, and what it names.
fn split_ampersand(word: &str) -> (bool, &str) {
    match word.strip_prefix('&') {
        Some(name) => (true, name),
        None => (false, word),
    }
}

/// An operand, owned or borrowed.
enum Given<'a, M> {
    Owned(M),
    Borrowed(&'a M),
}

/// Applies an operator to two operands, each owned or borrowed.
macro_rules! apply {
    ($left:ident, $operator:tt, $right:ident) => {
        match ($left, $right) {
            (Given::Owned(left), Given::Owned(right)) => left $operator right,
            (Given::Owned(left), Given::Borrowed(right)) => left $operator right,
            (Given::Borrowed(left), Given::Owned(right)) => left $operator right,
            (Given::Borrowed(left), Given::Borrowed(right)) => left $operator right,
        }
    };
}

fn union<T: ScriptKey>(
    left: Given<'_, Map<T>>,
    right: Given<'_, Map<T>>,
) -> Result<Map<T>, AllocError> {
    apply!(left, |, right)
}

fn intersection<T: ScriptKey>(
    left: Given<'_, Map<T>>,
    right: Given<'_, Map<T>>,
) -> Result<Map<T>, AllocError> {
    apply!(left, &, right)
}

fn difference<T: ScriptKey>(
    left: Given<'_, Map<T>>,
    right: Given<'_, Map<T>>,
) -> Result<Map<T>, AllocError> {
    apply!(left, -, right)
}

fn symmetric_difference<T: ScriptKey>(
    left: Given<'_, Map<T>>,
    right: Given<'_, Map<T>>,
) -> Result<Map<T>, AllocError> {
    apply!(left, ^, right)
}

fn intersection_with_set<T: ScriptKey>(
    left: Given<'_, Map<T>>,
    right: Given<'_, RangeSetBlaze<T>>,
) -> Result<Map<T>, AllocError> {
    apply!(left, &, right)
}

fn difference_with_set<T: ScriptKey>(
    left: Given<'_, Map<T>>,
    right: Given<'_, RangeSetBlaze<T>>,
) -> Result<Map<T>, AllocError> {
    apply!(left, -, right)
}

/// An operator between maps.
#[derive(Clone, Copy)]
enum Operator {
    Or,
    And,
    Minus,
    Xor,
}

impl Operator {
    fn read(word: &str) -> Result<Self, Fault> {
        match word {
            "|" => Ok(Operator::Or),
            "&" => Ok(Operator::And),
            "-" => Ok(Operator::Minus),
            "^" => Ok(Operator::Xor),
            _ => Err(Fault::Bad),
        }
    }
}

/// The right operand.
#[derive(Clone, Copy)]
enum Right {
    Map(Operand<MapName>),
    Set(Operand<SetName>),
}

/// An operator between two maps, or a map and a set.
#[derive(Clone, Copy)]
pub struct Operation {
    left: Operand<MapName>,
    operator: Operator,
    right: Right,
}

impl Operation {
    /// The operation that the words after `=` ask for. An owned map may be named only once.
    pub fn read(words: &[&str]) -> Result<Self, Fault> {
        let [left, operator, right] = words else {
            return Err(Fault::Bad);
        };
        let left = Operand::<MapName>::read(left)?;
        let operator = Operator::read(operator)?;
        let right = match Operand::<SetName>::read_set(right) {
            Ok(right) => Right::Set(right),
            Err(_) => Right::Map(Operand::<MapName>::read(right)?),
        };
        let is_good = match right {
            Right::Map(right) => left.name != right.name || left.is_borrowed && right.is_borrowed,
            Right::Set(_) => matches!(operator, Operator::And | Operator::Minus),
        };
        if !is_good {
            return Err(Fault::Bad);
        }
        Ok(Operation {
            left,
            operator,
            right,
        })
    }

    /// Makes the call. An owned operand is empty afterwards.
    pub fn make<T: ScriptKey>(self, state: &mut State<T>) -> Result<Map<T>, AllocError> {
        let owned_left = owned(state, self.left);
        match self.right {
            Right::Map(right) => {
                let owned_right = owned(state, right);
                let left = owned_or_borrowed(owned_left, state.map(self.left.name));
                let right = owned_or_borrowed(owned_right, state.map(right.name));
                with_map(left, self.operator, right)
            }
            Right::Set(right) => {
                let owned_right = owned_set(state, right);
                let left = owned_or_borrowed(owned_left, state.map(self.left.name));
                let right = owned_or_borrowed(owned_right, state.set(right.name));
                with_set(left, self.operator, right)
            }
        }
    }
}

/// Applies an operator to two maps.
fn with_map<T: ScriptKey>(
    left: Given<'_, Map<T>>,
    operator: Operator,
    right: Given<'_, Map<T>>,
) -> Result<Map<T>, AllocError> {
    match operator {
        Operator::Or => union(left, right),
        Operator::And => intersection(left, right),
        Operator::Minus => difference(left, right),
        Operator::Xor => symmetric_difference(left, right),
    }
}

/// Applies `&`, or else `-`, to a map and a set.
fn with_set<T: ScriptKey>(
    left: Given<'_, Map<T>>,
    operator: Operator,
    right: Given<'_, RangeSetBlaze<T>>,
) -> Result<Map<T>, AllocError> {
    match operator {
        Operator::And => intersection_with_set(left, right),
        _ => difference_with_set(left, right),
    }
}

/// The map of an owned operand.
fn owned<T: ScriptKey>(state: &mut State<T>, operand: Operand<MapName>) -> Option<Map<T>> {
    if operand.is_borrowed {
        None
    } else {
        Some(state.take_map(operand.name))
    }
}

/// The set of an owned operand.
fn owned_set<T: ScriptKey>(
    state: &mut State<T>,
    operand: Operand<SetName>,
) -> Option<RangeSetBlaze<T>> {
    if operand.is_borrowed {
        None
    } else {
        Some(state.take_set(operand.name))
    }
}

/// The owned operand if there is one, and otherwise the borrowed one.
fn owned_or_borrowed<M>(owned: Option<M>, borrowed: &M) -> Given<'_, M> {
    match owned {
        Some(map) => Given::Owned(map),
        None => Given::Borrowed(borrowed),
    }
}

/// `! a` or `! &a`: the keys without a value.
#[derive(Clone, Copy)]
pub struct Complement {
    map: Operand<MapName>,
}

impl Complement {
    /// The operation that the words after `=` ask for.
    pub fn read(words: &[&str]) -> Result<Self, Fault> {
        match words {
            ["!", map] => Ok(Complement {
                map: Operand::<MapName>::read(map)?,
            }),
            _ => Err(Fault::Bad),
        }
    }

    /// Makes the call. An owned map is empty afterwards.
    pub fn make<T: ScriptKey>(self, state: &mut State<T>) -> Result<RangeSetBlaze<T>, AllocError> {
        let owned = owned(state, self.map);
        match owned_or_borrowed(owned, state.map(self.map.name)) {
            Given::Owned(map) => !map,
            Given::Borrowed(map) => !map,
        }
    }
}
