// The first values of the slots, in order, under which every line stands.
ghost use Rattle.std.specs.Prelude.{◌≡◌, ◌≤◌, IfSome};
ghost use Rattle.join.specs.Order.{Before, cells};
ghost use Rattle.join.specs.Slots.{Blank};
ghost use Rattle.join.specs.FirstValues.{FirstValues, Passing, Small};

use super::asking::Join;
use super::slots::Values;

impl Join<'_> {
    // The first values in order from the slot k on under which all lines stand; or the first after others. One value will do for a slot that is not shown and that no line names.
    pub(crate) fn first(&self, k: usize, env: &Values, after: Option<&Values>) -> Option<Values>
        requires small { Small self.now.rows.now }
        requires counts { (self.now.setting.now.k ≤ k) × (k ≤ self.now.setting.now.n) }
        requires values { (Blank k env.now) × (IfSome after (λ last. Passing self.now.setting.now.shown k env.now last.now)) }
        ensures { FirstValues self.now.rows.now self.now.lines.now self.now.setting.now.shown k env.now (λ v. IfSome after.entry (λ last. Before self.now.setting.now.shown (cells last.now) v)) result }
    {
        if !self.ready(k, env) {
            return None;
        }
        if after.is_some() && k >= self.setting.shown {
            return None;
        }
        if k >= self.setting.n {
            return Some(*env);
        }
        let mut x = after.map_or(0, |last| last[k]);
        // The next value is known only when this one is tried: there is no list.
        loop {
            let mut here = *env;
            here[k] = x;
            let y = self.bound(k, &here)?;
            if y > x {
                x = y;
                continue;
            }
            let still = after.filter(|last| last[k] == x);
            if let Some(found) = self.first(k + 1, &here, still) {
                return Some(found);
            }
            if self.spare(k) {
                return None;
            }
            x = x.checked_add(1)?;
        }
    }
}
