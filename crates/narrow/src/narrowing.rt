// Slots that are not shown taken out, where one line or two alone name one.
ghost use Rattle.std.specs.Prelude.{◌≡◌, ◌<◌, ◌≤◌, [], length, IfSome, IfOk, MatchOption, slice_index_or};
ghost use Rattle.join.specs.Order.{Sorted};
ghost use Rattle.join.specs.FirstValues.{AllBelow, Names};
ghost use Rattle.narrow.specs.Narrowed.{Narrowed};

use super::lines::{apart, gather, replace};
use super::merging::TwoLines;
use super::projecting::project;
use super::rows::in_order;
use join::{Row, Setting, SlotLine, names};
use std::alloc::{AllocError, Global};

// The first line from a place on that names the slot.
fn next_with(lines: &[SlotLine], s: usize, from: usize) -> Option<usize>
    ensures some { IfSome result (λ i. (from ≤ i) × (i < length lines.now) × Names (slice_index_or lines.now i []) s) }
{
    // The index is needed: the line's place is what is asked for.
    for i in from..lines.len() {
        if names(&lines[i], s) {
            return Some(i);
        }
    }
    None
}

// The two lines that name the slot, if there are two and no more.
fn only_two(lines: &[SlotLine], s: usize) -> Option<(usize, usize)>
    ensures { IfSome result (λ p. (p.0 < p.1) × (p.1 < length lines.now) × Names (slice_index_or lines.now p.0 []) s × Names (slice_index_or lines.now p.1 []) s) }
{
    let a = next_with(lines, s, 0)?;
    let b = next_with(lines, s, a + 1)?;
    match next_with(lines, s, b + 1) {
        Some(_) => None,
        None => Some((a, b)),
    }
}

// Makes two lines into one, by a slot that both name; None, and nothing is changed, where that gives too many slots or rows.
fn join_two(
    heap: Global,
    rows: &[Row],
    lines: &mut Vec<SlotLine>,
    a: usize,
    b: usize,
    s: usize,
    setting: &Setting,
) -> Result<Option<Vec<Row>>, AllocError>
    requires lines { (a < b) × ((b < length lines.old.items) × ((Names (slice_index_or lines.old.items a []) s) × (Names (slice_index_or lines.old.items b []) s))) }
    requires counts { AllBelow setting.now.n lines.old.items }
    ensures { IfOk result (λ o. MatchOption o (lines.new.items ≡ lines.old.items)
        (λ v. Sorted v.items × Narrowed setting.now.n setting.now.shown setting.now.k setting.now.env rows.now lines.old.items v.items lines.new.items)) }
{
    if !apart(lines, a, b, setting) {
        return Ok(None);
    }
    let Some(new) = gather(lines, a, b, setting) else {
        return Ok(None);
    };
    let two = TwoLines {
        first: &lines[a],
        second: &lines[b],
        new: &new,
        setting,
    };
    let merged = two.merge(heap, rows, s)?;
    let Some(more) = merged else {
        return Ok(None);
    };
    replace(lines, a, b, &new);
    Ok(Some(more))
}

// Leaves the free slots of a line out; None, and nothing is changed, where the line's number is not its own.
fn shorten(
    heap: Global,
    rows: &[Row],
    lines: &mut Vec<SlotLine>,
    a: usize,
    setting: &Setting,
) -> Result<Option<Vec<Row>>, AllocError>
    requires counts { (a < length lines.old.items) × AllBelow setting.now.n lines.old.items }
    ensures { IfOk result (λ o. MatchOption o (lines.new.items ≡ lines.old.items)
        (λ v. Sorted v.items × Narrowed setting.now.n setting.now.shown setting.now.k setting.now.env rows.now lines.old.items v.items lines.new.items)) }
{
    if !apart(lines, a, a, setting) {
        return Ok(None);
    }
    let Some(new) = gather(lines, a, a, setting) else {
        return Ok(None);
    };
    let more = project(heap, rows, &lines[a], &new, setting)?;
    lines[a] = new;
    Ok(Some(more))
}

// Leaves the slot out, if one line alone names it.
fn leave_out(
    heap: Global,
    rows: &[Row],
    lines: &mut Vec<SlotLine>,
    s: usize,
    setting: &Setting,
) -> Result<Option<Vec<Row>>, AllocError>
    requires counts { AllBelow setting.now.n lines.old.items }
    ensures { IfOk result (λ o. MatchOption o (lines.new.items ≡ lines.old.items)
        (λ v. Sorted v.items × Narrowed setting.now.n setting.now.shown setting.now.k setting.now.env rows.now lines.old.items v.items lines.new.items)) }
{
    let Some(a) = next_with(lines, s, 0) else {
        return Ok(None);
    };
    if next_with(lines, s, a + 1).is_some() {
        return Ok(None);
    }
    shorten(heap, rows, lines, a, setting)
}

// Takes the slot out, if two lines alone name it and that does not make too many rows.
fn take_slot(
    heap: Global,
    rows: &[Row],
    lines: &mut Vec<SlotLine>,
    s: usize,
    setting: &Setting,
) -> Result<Option<Vec<Row>>, AllocError>
    requires counts { AllBelow setting.now.n lines.old.items }
    ensures { IfOk result (λ o. MatchOption o (lines.new.items ≡ lines.old.items)
        (λ v. Sorted v.items × Narrowed setting.now.n setting.now.shown setting.now.k setting.now.env rows.now lines.old.items v.items lines.new.items)) }
{
    let Some((a, b)) = only_two(lines, s) else {
        return Ok(None);
    };
    join_two(heap, rows, lines, a, b, s, setting)
}

// The rows and the lines, slots that one line alone names left out.
fn all_shortened(
    heap: Global,
    rows: Vec<Row>,
    lines: &mut Vec<SlotLine>,
    setting: &Setting,
) -> Result<Vec<Row>, AllocError>
    requires { AllBelow setting.now.n lines.old.items }
    ensures { IfOk result (λ v. Narrowed setting.now.n setting.now.shown setting.now.k setting.now.env rows.items lines.old.items v.items lines.new.items) }
{
    let mut left = rows;
    // The slots by number: what is left out changes as it goes.
    for s in setting.shown..setting.n {
        let taken = leave_out(heap, &left, lines, s, setting)?;
        if let Some(more) = taken {
            left = more;
        }
    }
    Ok(left)
}

// The rows in order and the lines, slots that are not shown taken out: those that one line names, and those that two lines name where that stays small. The same is answered.
pub fn narrow(
    heap: Global,
    rows: Vec<Row>,
    lines: &mut Vec<SlotLine>,
    setting: &Setting,
) -> Result<Vec<Row>, AllocError>
    requires { AllBelow setting.now.n lines.old.items }
    ensures { IfOk result (λ v. Sorted v.items × Narrowed setting.now.n setting.now.shown setting.now.k setting.now.env rows.items lines.old.items v.items lines.new.items) }
{
    let short = all_shortened(heap, rows, lines, setting)?;
    let mut left = in_order(short);
    // The slots by number, the last first.
    for s in (setting.shown..setting.n).rev() {
        let taken = take_slot(heap, &left, lines, s, setting)?;
        if let Some(more) = taken {
            left = more;
        }
    }
    Ok(left)
}
