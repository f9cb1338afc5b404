// What the join is asked: lines of slots over rows in order, and what is known of the slots.
ghost use Rattle.std.specs.Prelude.{◌≤◌};
ghost use Rattle.join.specs.Order.{Sorted};
ghost use Rattle.join.specs.Slots.{Blank};
ghost use Rattle.join.specs.FirstValues.{AllBelow, Covered};

use super::order::Row;
use super::slots::{SlotLine, Values};

// There are n slots, the first of them are shown, and the first k have their values in env already.
#[derive(Clone, Copy)]
pub struct Setting {
    pub n: usize,
    pub shown: usize,
    pub k: usize,
    pub env: Values,
    pub ghost few: { n ≤ 24 },
    pub ghost begun: { k ≤ shown },
}

// The rows are in order, and each slot that is shown has its value or is named by a line.
#[derive(Clone, Copy)]
pub struct Join<'a> {
    pub rows: &'a [Row],
    pub lines: &'a [SlotLine],
    pub setting: &'a Setting,
    pub ghost sorted: { Sorted rows.now },
    pub ghost below: { AllBelow setting.now.n lines.now },
    pub ghost covered: { ∥ Covered lines.now setting.now.k setting.now.shown ∥₁ },
    pub ghost inside: { setting.now.shown ≤ setting.now.n },
    pub ghost blank: { Blank setting.now.k setting.now.env },
}
