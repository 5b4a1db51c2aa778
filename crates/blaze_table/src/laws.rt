//! The laws of canonical lists, for every value type with a lawful equality. Each function does nothing: its contract
//! is the law.
ghost use Rattle.blaze_entries.specs.Laws.{CanonicalIsUnique, CanonicalIsFewest, CanonicalIsShortest};
ghost use Rattle.blaze_entries.specs.Laws.{LengthsAreMapped, PairsAreContent, StructureIsDefinition};

use blaze_int::Integer;

/// A list is canonical by structure exactly if it is canonical by definition.
pub fn structure_is_definition<V: Eq>()
    ensures { StructureIsDefinition V.eq }
{}

/// Canonical lists with the same content have the same ranges and equal values, position by position.
pub fn canonical_is_unique<V: Eq>()
    ensures { CanonicalIsUnique V.eq }
{}

/// No disjoint list with the content of a canonical list has fewer entries.
pub fn canonical_is_fewest<V: Eq>()
    ensures { CanonicalIsFewest V.eq }
{}

/// A canonical list is the only shortest list with its content. No disjoint list with the content has fewer entries. An
/// ascending disjoint list with as many entries has the same ranges and equal values.
pub fn canonical_is_shortest<V: Eq>()
    ensures { CanonicalIsShortest V.eq }
{}

/// The lengths of a range map's ranges add up to the number of keys that have a value.
pub fn lengths_are_mapped<V: Eq>()
    ensures { LengthsAreMapped V.eq }
{}

/// The list of pairs of a range map has each key with a value once, ascending, with that value. Its length is the
/// number of those keys.
pub fn pairs_are_content<T: Integer, V: Eq>()
    ensures { PairsAreContent T.rank T.of_rank V.eq T.low T.high }
{}
