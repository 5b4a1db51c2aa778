//! Lists of steps.
ghost use Rattle.std.specs.Prelude.{◌≡◌, ◌≤◌, ◌-◌, ◌*◌, [], length, All, IfOk, IfErr, OnOk, OnErr};
ghost use Rattle.blaze_entries.specs.Entries.{at};
ghost use Rattle.blaze_entries.specs.Laws.{IsShortest};
ghost use Rattle.blaze_entries.specs.Painted.{ClonesAreAlike};
ghost use Rattle.blaze_table.specs.Work.{IsCounted, IsRefused, IsCountedCut, PutsAtMost};
ghost use Rattle.range_map_cli.specs.Fills.{ranges_in, IsPaintOrFill};
ghost use Rattle.range_map_cli.specs.Steps.{answer, first_mapped_key, last_mapped_key, key_with_value, answers, Combines};
ghost use Rattle.range_map_cli.specs.Steps.{IsCountedRun, IsEdit, IsRefusedAt, IsStepped};
ghost use Rattle.range_map_cli.specs.Steps.{IsSteppedAll, IsWithout, SameAnswer, SameAnswers};
ghost use Rattle.range_map_cli.specs.Steps.{SamePair};

use crate::step::{Answer, Refused, Step};
use blaze_int::Integer;
use blaze_table::laws::{canonical_is_shortest, lengths_are_mapped};
use range_map_blaze::RangeMapBlaze;
use std::alloc::{AllocError, Global};

/// Removes the least key that has a value. Its contract speaks of contents, as those of steps do.
fn pop_first<T: Integer, V: Eq + Clone>(
    map: &mut RangeMapBlaze<T, V>,
) -> Result<Option<(T, V)>, AllocError>
    requires { ClonesAreAlike V.is_clone V.eq }
    ensures ok { OnOk result
        (IsWithout V.eq T.low T.high (first_mapped_key T.low T.high (at map.old.entries))
        map.old.entries map.new.entries) }
    ensures pair { IfOk result (λ pair. SamePair T.rank V.eq pair
        (key_with_value (at map.old.entries) (first_mapped_key T.low T.high (at map.old.entries)))) }
    ensures counted { OnOk result (IsCountedCut map.old map.new) }
    ensures err { OnErr result (IsRefused map.old map.new) }
{
    map.in_hand();
    let popped = map.pop_first()?;
    Ok(popped)
}

/// Removes the greatest key that has a value. Its contract speaks of contents, as those of steps do.
fn pop_last<T: Integer, V: Eq + Clone>(
    map: &mut RangeMapBlaze<T, V>,
) -> Result<Option<(T, V)>, AllocError>
    requires { ClonesAreAlike V.is_clone V.eq }
    ensures ok { OnOk result
        (IsWithout V.eq T.low T.high (last_mapped_key T.low T.high (at map.old.entries))
        map.old.entries map.new.entries) }
    ensures pair { IfOk result (λ pair. SamePair T.rank V.eq pair
        (key_with_value (at map.old.entries) (last_mapped_key T.low T.high (at map.old.entries)))) }
    ensures counted { OnOk result (IsCountedCut map.old map.new) }
    ensures err { OnErr result (IsRefused map.old map.new) }
{
    map.in_hand();
    let popped = map.pop_last()?;
    Ok(popped)
}

/// Returns the map after a step that combines it with another map or a set, or complements it.
fn combined<T: Integer, V: Eq + Clone>(
    map: &RangeMapBlaze<T, V>,
    step: Step<T, V>,
) -> Result<RangeMapBlaze<T, V>, AllocError>
    requires clones { ClonesAreAlike V.is_clone V.eq }
    requires combines { Combines step }
    ensures { IfOk result (λ new. IsStepped V.eq T.rank T.low T.high step
        map.now.entries new.entries) }
{
    match step {
        Step::Or(other) => map | &other,
        Step::And(other) => map & &other,
        Step::Minus(other) => map - &other,
        Step::Xor(other) => map ^ &other,
        Step::AndSet(keys) => map & &keys,
        Step::MinusSet(keys) => map - &keys,
        Step::ComplementWith(value) => map.complement_with(&value),
        _ => unreachable!(),
    }
}

/// Does a step that is no edit. If an allocation fails, the map is unchanged.
fn change<T: Integer, V: Eq + Clone>(
    map: &mut RangeMapBlaze<T, V>,
    step: Step<T, V>,
) -> Result<Answer<T, V>, AllocError>
    requires clones { ClonesAreAlike V.is_clone V.eq }
    requires no_edit { ¬ (IsEdit step) }
    ensures stepped { OnOk result (IsStepped V.eq T.rank T.low T.high step
        map.old.entries map.new.entries) }
    ensures answer { IfOk result (λ given. SameAnswer T.rank V.eq given
        (answer T.rank T.low T.high step (at map.old.entries))) }
    ensures err { OnErr result (map.new.entries ≡ map.old.entries) }
{
    match step {
        Step::Fill(start, end, value) => {
            lengths_are_mapped::<V>();
            map.in_hand();
            let changed = map.ranges_insert_absent(start..=end, value)?;
            Ok(Answer::Wrote(changed))
        }
        Step::Clear => {
            map.clear();
            map.in_hand();
            Ok(Answer::Done)
        }
        Step::KeepBelow(key) => {
            let _ = map.split_off(key)?;
            Ok(Answer::Done)
        }
        Step::KeepFrom(key) => {
            let from = map.split_off(key)?;
            *map = from;
            Ok(Answer::Done)
        }
        step => {
            let new = combined(map, step)?;
            *map = new;
            Ok(Answer::Done)
        }
    }
}

/// Does a step. If an allocation fails, the map is unchanged.
pub fn take_step<T: Integer, V: Eq + Clone>(
    map: &mut RangeMapBlaze<T, V>,
    step: Step<T, V>,
) -> Result<Answer<T, V>, AllocError>
    requires { ClonesAreAlike V.is_clone V.eq }
    ensures stepped { OnOk result (IsStepped V.eq T.rank T.low T.high step
        map.old.entries map.new.entries) }
    ensures answer { IfOk result (λ given. SameAnswer T.rank V.eq given
        (answer T.rank T.low T.high step (at map.old.entries))) }
    ensures counted { IsEdit step → OnOk result (PutsAtMost 2 map.old map.new) }
    ensures alone { IsEdit step → map.old.entries ≡ [] → OnOk result (length map.new.entries ≤ 1) }
    ensures err { OnErr result (map.new.entries ≡ map.old.entries) }
    ensures err_counted { IsEdit step → OnErr result (IsCounted map.old map.new) }
{
    match step {
        Step::Paint(start, end, value) => {
            lengths_are_mapped::<V>();
            map.in_hand();
            let changed = map.ranges_insert(start..=end, value)?;
            Ok(Answer::Wrote(changed))
        }
        Step::Insert(key, value) => {
            let old = map.insert(key, value)?;
            Ok(Answer::Old(old))
        }
        Step::Remove(key) => {
            let old = map.remove(key)?;
            Ok(Answer::Old(old))
        }
        Step::PopFirst => {
            let popped = pop_first(map)?;
            Ok(Answer::Popped(popped))
        }
        Step::PopLast => {
            let popped = pop_last(map)?;
            Ok(Answer::Popped(popped))
        }
        step => change(map, step),
    }
}

/// Does steps, in order, and returns their answers. The map then has the content that the steps mean, in the least number of
/// entries.
///
/// Allocates for all answers first. If an allocation of a step fails, the steps before it stay done, the others are dropped, and
/// the error says which step it was. Each step costs what its call costs.
pub fn run<T: Integer, V: Eq + Clone>(
    alloc: Global,
    map: &mut RangeMapBlaze<T, V>,
    steps: Vec<Step<T, V>>,
) -> Result<Vec<Answer<T, V>>, Refused>
    requires { ClonesAreAlike V.is_clone V.eq }
    ensures stepped { OnOk result (IsSteppedAll V.eq T.rank T.low T.high steps.items
        map.old.entries map.new.entries) }
    ensures answers { IfOk result (λ given. SameAnswers T.rank V.eq given.items
        (answers T.rank T.low T.high steps.items (at map.old.entries))) }
    ensures refused { IfErr result
        (λ refused. IsRefusedAt V.eq T.rank T.low T.high steps.items refused.at
        map.old.entries map.new.entries) }
    ensures shortest { IsShortest V.eq map.new.entries }
    ensures counted { All IsEdit steps.items
        → OnOk result (IsCountedRun (length steps.items) map.old map.new)
        × OnErr result (IsCounted map.old map.new) }
    ensures few { All IsEdit steps.items → map.old.entries ≡ []
        → OnOk result (length map.new.entries ≤ 2 * length steps.items - 1) }
    ensures few_filled { All IsPaintOrFill steps.items → map.old.entries ≡ []
        → OnOk result (length map.new.entries ≤ 2 * ranges_in T.rank steps.items - 1) }
{
    canonical_is_shortest::<V>();
    map.in_hand();
    let Ok(mut answers) = Vec::with_capacity(alloc, steps.len()) else {
        return Err(Refused { at: 0 });
    };
    for step in steps {
        let Ok(answer) = take_step(map, step) else {
            return Err(Refused { at: answers.len() });
        };
        answers.push_reserved(answer);
    }
    Ok(answers)
}
