#![tactic(auto)]
// The rows of an accepted sheet, each written as the part of the graph that it is (document 01, "The graph"; graph/specs/Translation,
// figure by figure). A row is read by its place: as an expression, or as a body of a loop that returns some values. The functions call
// each other; the row number falls. `env` has the link of each name; links and operators are dealt from the next numbers on.
ghost use Rattle.std.specs.Prelude.{◌≡◌, true, false, ◌+◌, ◌*◌, ◌-◌, ◌≤◌, ◌<◌, length, get_or};
ghost use Rattle.formula.specs.declared.Shape.TheVariants.{Pair, Let, If, For};
ghost use Rattle.formula.specs.Sheet.{shape_at};
ghost use Rattle.formula.specs.Tree.{exp_of};
ghost use Rattle.formula.specs.Free.{free_e};
ghost use Rattle.names.specs.Names.{mask};
ghost use Rattle.machine_layout.specs.Layout.{most_operators, most_links, links_at};
ghost use Rattle.maker_laid.specs.Nodes.{Ready, Child, Ends, graph_in};
ghost use Rattle.maker_laid.specs.Counts.{operator_count};
ghost use Rattle.maker_laid.specs.Masked.{list_of};
ghost use Rattle.maker_parts.specs.Room.{Room};
ghost use Rattle.maker_rows.specs.Rows.{Part, Ended, end_graph, Branched};

use formula::{Shape, Way};
use machine_layout::store_operator;
use maker_emit::links::join;
use maker_emit::records::{assign, copy_of};
use maker_joins::{Emitted, Next};
use maker_parts::{
    Binding, Place, applied, closed, constant, fork, gated, identifier, joined, names_in, numbered,
};
use names::{TRIGGER_MASK, range_mask};
use sheet_fields::shape::{shape_at, way_at, width_at};
use sheet_tables::masks::{mask_at, outside, plain_mask};
use value::Value;

// The place of a row that is read as an expression.
pub const EXPRESSION: Place = Place {
    body: false,
    returned: 0,
};

// What reading made of an accepted sheet: its fields, and the free names and the returned width of each row.
#[derive(Clone, Copy)]
pub struct Tables<'a> {
    pub t: &'a [u32],
    pub masks: &'a [u64],
    pub widths: &'a [u8],
}

// An if: the rows of its test and of its two arms.
#[derive(Clone, Copy)]
pub struct Choice {
    pub test: usize,
    pub first: usize,
    pub second: usize,
}

// Row r in its place.
#[cycle(arm_ended_fors_ifs_lets_pairs_plain_row)]
pub fn row(
    tables: &Tables,
    place: Place,
    r: usize,
    env: [u16; 33],
    next: Next,
    mem: &mut [u8],
) -> Emitted
    requires { Ready tables.now.t.now tables.now.masks.now tables.now.widths.now place.body place.returned r × Room next.link next.operator (operator_count (graph_in place.body place.returned tables.now.t.now r)) × (links_at ≤ length mem.old) }
    ensures { Part place.body place.returned tables.now.t.now r next.link next.operator env mem.old mem.new result }
{
    match way_at(tables.t, r) {
        Way::Let(first, count, value, inner) => {
            let binding = Binding {
                first,
                count,
                value,
                inner,
            };
            lets(tables, place, r, binding, env, next, mem)
        }
        Way::If(test, first, second) => {
            let choice = Choice {
                test,
                first,
                second,
            };
            ifs(tables, place, r, choice, env, next, mem)
        }
        Way::Iter(a) => {
            if place.body {
                let free = mask_at(tables.masks, a);
                return ended(tables, true, a, free, env, next, mem);
            }
            row(tables, EXPRESSION, a, env, next, mem)
        }
        Way::End => {
            if place.body {
                let free = plain_mask(shape_at(tables.t, r), r, tables.masks);
                return ended(tables, false, r, free, env, next, mem);
            }
            plain(tables, r, env, next, mem)
        }
    }
}

// "true constant at iter, false at a returned expression", beside row k, whose free names are those of a mask.
#[cycle(arm_ended_fors_ifs_lets_pairs_plain_row)]
fn ended(
    tables: &Tables,
    iter: bool,
    k: usize,
    free: u64,
    env: [u16; 33],
    next: Next,
    mem: &mut [u8],
) -> Emitted
    requires { Ready tables.now.t.now tables.now.masks.now tables.now.widths.now false 0 k × (free ≡ mask (free_e (exp_of tables.now.t.now k))) × Room next.link next.operator (operator_count (end_graph iter tables.now.t.now k)) × (links_at ≤ length mem.old) }
    ensures { Ended iter tables.now.t.now k next.link next.operator env mem.old mem.new result }
{
    let f = fork(mem, TRIGGER_MASK & free, env, next);
    let first = f.first;
    let second = f.second;
    let c = constant(mem, Value::Truth(iter), first, f.next);
    let x = row(tables, EXPRESSION, k, second, c.next, mem);
    let cs = c.outs;
    let xs = x.outs;
    let outs = join(cs, 1, xs, x.count);
    let behind = x.next;
    Emitted {
        outs,
        count: 1 + x.count,
        iterated: if iter { x.count } else { 0 },
        next: behind,
    }
}

// A row that is neither a let nor an if nor an iter, as an expression.
#[cycle(arm_ended_fors_ifs_lets_pairs_plain_row)]
fn plain(tables: &Tables, r: usize, env: [u16; 33], next: Next, mem: &mut [u8]) -> Emitted
    requires { Ready tables.now.t.now tables.now.masks.now tables.now.widths.now false 0 r × Ends tables.now.t.now tables.now.masks.now tables.now.widths.now (shape_at tables.now.t.now r) × Room next.link next.operator (operator_count (graph_in false 0 tables.now.t.now r)) × (links_at ≤ length mem.old) }
    ensures { Part false 0 tables.now.t.now r next.link next.operator env mem.old mem.new result }
{
    match shape_at(tables.t, r) {
        Shape::Identifier(a) => identifier(a, env, next),
        Shape::Constant(kind, a) => constant(mem, formula::constant(kind, a), env, next),
        Shape::Pair(a, b) => pairs(tables, r, a, b, env, next, mem),
        Shape::Operator(code, b) => {
            let x = row(tables, EXPRESSION, b, env, next, mem);
            applied(mem, code, x)
        }
        Shape::For(first, count, value, inner) => {
            let binding = Binding {
                first,
                count,
                value,
                inner,
            };
            fors(tables, r, binding, env, next, mem)
        }
        Shape::Let(_, _, _, _) => identifier(0, env, next),
        Shape::If(_, _, _) => identifier(0, env, next),
        Shape::Iter(_) => identifier(0, env, next),
    }
}

// A pair: both rows side by side, each with a copy of the names that both use.
#[cycle(arm_ended_fors_ifs_lets_pairs_plain_row)]
fn pairs(
    tables: &Tables,
    r: usize,
    a: usize,
    b: usize,
    env: [u16; 33],
    next: Next,
    mem: &mut [u8],
) -> Emitted
    requires { Ready tables.now.t.now tables.now.masks.now tables.now.widths.now false 0 r × (shape_at tables.now.t.now r ≡ Pair a b) × Room next.link next.operator (operator_count (graph_in false 0 tables.now.t.now r)) × (links_at ≤ length mem.old) }
    ensures { Part false 0 tables.now.t.now r next.link next.operator env mem.old mem.new result }
{
    let f = fork(
        mem,
        mask_at(tables.masks, a) & mask_at(tables.masks, b),
        env,
        next,
    );
    let first = f.first;
    let second = f.second;
    let x = row(tables, EXPRESSION, a, first, f.next, mem);
    let y = row(tables, EXPRESSION, b, second, x.next, mem);
    let xs = x.outs;
    let ys = y.outs;
    let outs = join(xs, x.count, ys, y.count);
    let behind = y.next;
    Emitted {
        outs,
        count: x.count + y.count,
        iterated: 0,
        next: behind,
    }
}

// A let, in its place: the bound row, then the inner row with its results for the identifiers.
#[cycle(arm_ended_fors_ifs_lets_pairs_plain_row)]
fn lets(
    tables: &Tables,
    place: Place,
    r: usize,
    binding: Binding,
    env: [u16; 33],
    next: Next,
    mem: &mut [u8],
) -> Emitted
    requires { Ready tables.now.t.now tables.now.masks.now tables.now.widths.now place.body place.returned r × (shape_at tables.now.t.now r ≡ Let binding.first binding.count binding.value binding.inner) × Room next.link next.operator (operator_count (graph_in place.body place.returned tables.now.t.now r)) × (links_at ≤ length mem.old) }
    ensures { Part place.body place.returned tables.now.t.now r next.link next.operator env mem.old mem.new result }
{
    let value = mask_at(tables.masks, binding.value);
    let inner = outside(
        mask_at(tables.masks, binding.inner),
        binding.first,
        binding.count,
    );
    let f = fork(mem, value & inner, env, next);
    let first = f.first;
    let second = f.second;
    let x = row(tables, EXPRESSION, binding.value, first, f.next, mem);
    let xs = x.outs;
    let bound = assign(range_mask(binding.first, binding.count), second, xs);
    row(tables, place, binding.inner, bound, x.next, mem)
}

// An arm of an if: a copy of link `from`, which has the test's output, then row k behind its gates. The
// copy's first output is the gates' control.
#[cycle(arm_ended_fors_ifs_lets_pairs_plain_row)]
fn arm(
    tables: &Tables,
    place: Place,
    yes: bool,
    k: usize,
    from: u16,
    env: [u16; 33],
    next: Next,
    mem: &mut [u8],
) -> Emitted
    requires { Child tables.now.t.now tables.now.masks.now tables.now.widths.now place.body place.returned (k + 1) k × (next.operator < most_operators) × (next.link ≤ most_links) × Room (next.link + 2) (next.operator + 1) (2 * length (list_of (get_or tables.now.masks.now (k - 1) 0)) - 1 + operator_count (graph_in place.body place.returned tables.now.t.now k)) × (links_at ≤ length mem.old) }
    ensures { Branched yes place.body place.returned tables.now.t.now tables.now.masks.now k from next.link next.operator env mem.old mem.new result }
{
    let l = next.link as u16;
    store_operator(mem, next.operator, copy_of(from, l, l + 1));
    let behind = Next {
        link: next.link + 2,
        operator: next.operator + 1,
    };
    let g = gated(mem, yes, l, mask_at(tables.masks, k), env, behind);
    let inner = g.env;
    row(tables, place, k, inner, g.next, mem)
}

// An if, in its place: the test, the arms, and what joins them. The second arm takes the test's output from
// the first arm's copy, and the joins take it from the second arm's.
#[cycle(arm_ended_fors_ifs_lets_pairs_plain_row)]
fn ifs(
    tables: &Tables,
    place: Place,
    r: usize,
    choice: Choice,
    env: [u16; 33],
    next: Next,
    mem: &mut [u8],
) -> Emitted
    requires { Ready tables.now.t.now tables.now.masks.now tables.now.widths.now place.body place.returned r × (shape_at tables.now.t.now r ≡ If choice.test choice.first choice.second) × Room next.link next.operator (operator_count (graph_in place.body place.returned tables.now.t.now r)) × (links_at ≤ length mem.old) }
    ensures { Part place.body place.returned tables.now.t.now r next.link next.operator env mem.old mem.new result }
{
    let a = choice.test;
    let b = choice.first;
    let c = choice.second;
    let mb = mask_at(tables.masks, b);
    let mc = mask_at(tables.masks, c);
    let f = fork(mem, mask_at(tables.masks, a) & (mb | mc), env, next);
    let first = f.first;
    let second = f.second;
    let x = row(tables, EXPRESSION, a, first, f.next, mem);
    let g = fork(mem, mb & mc, second, x.next);
    let yes = g.first;
    let no = g.second;
    let test = x.outs;
    let y = arm(tables, place, true, b, test[0], yes, g.next, mem);
    let copied = (g.next.link + 1) as u16;
    let z = arm(tables, place, false, c, copied, no, y.next, mem);
    let last = (y.next.link + 1) as u16;
    joined(mem, place, last, y, z, z.next)
}

// A loop: the starting row, then the body on links of its own for all its names, then the ring.
#[cycle(arm_ended_fors_ifs_lets_pairs_plain_row)]
fn fors(
    tables: &Tables,
    r: usize,
    binding: Binding,
    env: [u16; 33],
    next: Next,
    mem: &mut [u8],
) -> Emitted
    requires { Ready tables.now.t.now tables.now.masks.now tables.now.widths.now false 0 r × (shape_at tables.now.t.now r ≡ For binding.first binding.count binding.value binding.inner) × Room next.link next.operator (operator_count (graph_in false 0 tables.now.t.now r)) × (links_at ≤ length mem.old) }
    ensures { Part false 0 tables.now.t.now r next.link next.operator env mem.old mem.new result }
{
    let names = mask_at(tables.masks, binding.inner);
    let k = names_in(names);
    let outer = outside(names, binding.first, binding.count);
    let f = fork(mem, mask_at(tables.masks, binding.value) & outer, env, next);
    let first = f.first;
    let second = f.second;
    let x = row(tables, EXPRESSION, binding.value, first, f.next, mem);
    let inner = numbered(names, x.next.link);
    let place = Place {
        body: true,
        returned: width_at(tables.widths, binding.inner),
    };
    let behind = Next {
        link: x.next.link + k,
        operator: x.next.operator,
    };
    let y = row(tables, place, binding.inner, inner, behind, mem);
    closed(mem, names, binding, env, second, inner, x, y)
}
