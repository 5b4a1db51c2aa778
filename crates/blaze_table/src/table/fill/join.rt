//! Joins of touching entries with equal values.
ghost use Rattle.std.specs.Prelude.{map};
ghost use Rattle.blaze_entries.specs.Canonical.{AreKeys};
ghost use Rattle.blaze_entries.specs.Entries.{at};
ghost use Rattle.blaze_table.specs.Filling.{AreAllJoined, IsJoinedAt, IsJoinedBut, IsJoint, IsOrdered};
ghost use Rattle.blaze_table.specs.Work.{IsCounted};

use blaze_entries::Counted;
use blaze_int::Integer;
use blaze_int::compare::is_at_most;

// Joins the entry that starts at `key` with the entry before it, if an entry starts there.
fn join<T: Integer, V: Eq + Drop>(entries: &mut Counted<T, V>, key: T)
    requires ordered { IsOrdered entries.old.entries }
    requires keys { AreKeys T.low T.high entries.old.entries }
    requires joint { IsJoint V.eq (at entries.old.entries) (T.rank key) }
    ensures joined { IsJoinedAt V.eq T.low T.high (T.rank key) entries.old.entries entries.new.entries }
    ensures counted { IsCounted entries.old entries.new }
{
    entries.in_hand();
    if let Some(here) = entries.range_at_or_below(key) {
        if is_at_most(key, here.start) {
            if let Some(below) = entries.range_at_or_below(key.sub_one()) {
                entries.remove(key);
                entries.set_end(below.start, here.end);
            }
        }
    }
}

/// Joins the entries at all joints with the entries before them, which makes the list canonical. It allocates nothing.
/// O(j log n) with n entries and j joints.
pub fn join_all<T: Integer, V: Eq + Drop>(entries: &mut Counted<T, V>, join_keys: Vec<T>)
    requires ordered { IsOrdered entries.old.entries }
    requires keys { AreKeys T.low T.high entries.old.entries }
    requires joints { IsJoinedBut V.eq (map T.rank join_keys.items) entries.old.entries }
    ensures joined { AreAllJoined V.eq T.low T.high entries.old.entries entries.new.entries }
    ensures counted { IsCounted entries.old entries.new }
{
    let mut join_keys = join_keys;
    while let Some(key) = join_keys.pop() {
        join(entries, key);
    }
}
