//! Which set that was found is finer than another.
ghost use Rattle.std.specs.Prelude.{◌≡◌, ◌<◌, true, length, slice_index_or, IfSome, IsTrue};
ghost use Rattle.wgroup.specs.declared.found.Groups as memory;
ghost use Rattle.wgroup.specs.Finer.{is_finer, is_part};

use crate::found::Groups;
use wgroupby::is_among;

// Whether all columns of a set are among others.
fn is_part(set: &[usize], columns: &[usize]) -> bool
    ensures { result ≡ is_part set.now columns.now }
{
    set.iter().all(|column| is_among(*column, columns))
}

// Whether groups are of a set that has all columns of another one, and their first rows are kept.
fn is_finer(groups: &Groups, set: &[usize]) -> bool
    ensures { IsTrue result → is_finer set.now groups.now ≡ true }
{
    if groups.firsts.is_empty() {
        return false;
    }
    is_part(set, &groups.set)
}

// Whether there are fewer groups than at another place, if there is one.
fn are_fewer(found: &[Groups], groups: &Groups, best: Option<usize>) -> bool
    requires { IfSome best (λ place. place < length found.now) }
{
    match best {
        None => true,
        Some(place) => groups.count < found[place].count,
    }
}

/// The place of the set with the fewest groups, of those that have all columns of a set and whose first rows are kept.
pub(crate) fn finer_set(found: &[Groups], set: &[usize]) -> Option<usize>
    ensures within { IfSome result (λ place. place < length found.now) }
    ensures finer { (d : memory.Groups) → IfSome result (λ place. is_finer set.now (slice_index_or found.now place d) ≡ true) }
{
    let mut best = None;
    for place in 0..found.len() {
        let groups = &found[place];
        if is_finer(groups, set) && are_fewer(found, groups, best) {
            best = Some(place);
        }
    }
    best
}
