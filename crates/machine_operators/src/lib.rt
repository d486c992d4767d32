#![tactic(auto)]
// The operators by their kinds (document 01, "The graph", "Rules, control first"): a gate looks at its
// control and at the tokens that its rule wants, and ends where one does not wait; data pass through
// unseen. The table of rules is network's specs/Rules, and machine_gates has that what the
// gates' contracts name is what that table says. A `dry` firing only tells whether the operator
// could fire. The links begin behind the registers. Assumes that the memory is as long as they need,
// and nothing of its contents.
ghost use Rattle.std.specs.Prelude.{◌≡◌, ◌≢◌, ℕ, ◌≤◌, ◌<◌, length};
ghost use Rattle.machine_layout.specs.Layout.{most_operators, links_at, need_from};
ghost use Rattle.machine_gates.specs.Decide.{decide_at};
ghost use Rattle.machine_gates.specs.Gates.{constant_by, copy_by, unary_by, binary_by, t_by, f_by, m_by, e_by, ic_by, fm_by, fs_by};
ghost use Rattle.machine_gates.specs.GateLaws.{Leaves};
ghost use Rattle.machine_firing.specs.Fire.{register_of, able_from, fired_from, plan_from, performed_from};
ghost use Rattle.machine_firing.specs.Moves.{Done, Moves, MovesAny, Fires, next_register, input};

use machine_firing::{
    NOWHERE, drop_data, give_one, give_two, next_register, pass_data, register_of, remember,
    remember_data, set_register, token_of,
};
use machine_gates::{counts_false, is_absent, is_false, is_neither, is_true};
use machine_layout::{FIRST_INPUT, SECOND_INPUT, SECOND_OUTPUT, Stretches, THIRD_INPUT, port_of};
use value::bytes::{ERR, FALSE, TRUE};

// The outputs for an IC gate's control: where the loop goes round again, and where it has ended.
const AGAIN: usize = SECOND_OUTPUT;

const ENDED: usize = machine_layout::THIRD_OUTPUT;

// "10 and 11 take one operand, the rest two."
fn unary(mem: &mut [u8], links: Stretches, i: usize, code: u8, dry: bool) -> bool
    requires { (links_at ≤ links.base) × (need_from links.base links.size ≤ length mem.old) × (i < most_operators) }
    ensures { Moves mem.old mem.new links.base links.size i dry result (unary_by code (input mem.old links.base links.size i 0) (register_of mem.old i)) }
{
    let first = port_of(mem, i, FIRST_INPUT);
    let a = token_of(mem, links, first);
    if is_absent(a) {
        return false;
    }
    let word = machine_gates::applied_to(code, a, ERR);
    give_one(mem, links, i, first, NOWHERE, word, dry)
}

fn binary(mem: &mut [u8], links: Stretches, i: usize, code: u8, dry: bool) -> bool
    requires { (links_at ≤ links.base) × (need_from links.base links.size ≤ length mem.old) × (i < most_operators) }
    ensures { Moves mem.old mem.new links.base links.size i dry result (binary_by code (input mem.old links.base links.size i 0) (input mem.old links.base links.size i 1) (register_of mem.old i)) }
{
    let first = port_of(mem, i, FIRST_INPUT);
    let a = token_of(mem, links, first);
    if is_absent(a) {
        return false;
    }
    let second = port_of(mem, i, SECOND_INPUT);
    let b = token_of(mem, links, second);
    if is_absent(b) {
        return false;
    }
    let word = machine_gates::applied_to(code, a, b);
    give_one(mem, links, i, first, second, word, dry)
}

// "A constant takes one trigger": its value is its register.
fn constant(mem: &mut [u8], links: Stretches, i: usize, dry: bool) -> bool
    requires { (links_at ≤ links.base) × (need_from links.base links.size ≤ length mem.old) × (i < most_operators) }
    ensures { Moves mem.old mem.new links.base links.size i dry result (constant_by (input mem.old links.base links.size i 0) (register_of mem.old i)) }
{
    let trigger = port_of(mem, i, FIRST_INPUT);
    if is_absent(token_of(mem, links, trigger)) {
        return false;
    }
    let register = register_of(mem, i);
    if is_absent(register) {
        return false;
    }
    give_one(mem, links, i, trigger, NOWHERE, register, dry)
}

fn copy(mem: &mut [u8], links: Stretches, i: usize, dry: bool) -> bool
    requires { (links_at ≤ links.base) × (need_from links.base links.size ≤ length mem.old) × (i < most_operators) }
    ensures { Moves mem.old mem.new links.base links.size i dry result (copy_by (input mem.old links.base links.size i 0) (register_of mem.old i)) }
{
    let first = port_of(mem, i, FIRST_INPUT);
    let token = token_of(mem, links, first);
    if is_absent(token) {
        return false;
    }
    give_two(
        mem,
        links,
        i,
        first,
        NOWHERE,
        token,
        SECOND_OUTPUT,
        token,
        dry,
    )
}

// "takes control and data, passes data on true, nothing otherwise"
fn t_gate(mem: &mut [u8], links: Stretches, i: usize, dry: bool) -> bool
    requires { (links_at ≤ links.base) × (need_from links.base links.size ≤ length mem.old) × (i < most_operators) }
    ensures { Moves mem.old mem.new links.base links.size i dry result (t_by (input mem.old links.base links.size i 0) (input mem.old links.base links.size i 1) (register_of mem.old i)) }
{
    let first = port_of(mem, i, FIRST_INPUT);
    let control = token_of(mem, links, first);
    if is_absent(control) {
        return false;
    }
    if is_true(control) {
        return pass_data(mem, links, i, first, SECOND_INPUT, dry);
    }
    drop_data(mem, links, i, first, dry)
}

// "F likewise on false."
fn f_gate(mem: &mut [u8], links: Stretches, i: usize, dry: bool) -> bool
    requires { (links_at ≤ links.base) × (need_from links.base links.size ≤ length mem.old) × (i < most_operators) }
    ensures { Moves mem.old mem.new links.base links.size i dry result (f_by (input mem.old links.base links.size i 0) (input mem.old links.base links.size i 1) (register_of mem.old i)) }
{
    let first = port_of(mem, i, FIRST_INPUT);
    let control = token_of(mem, links, first);
    if is_absent(control) {
        return false;
    }
    if is_false(control) {
        return pass_data(mem, links, i, first, SECOND_INPUT, dry);
    }
    drop_data(mem, links, i, first, dry)
}

// "true takes and passes input 2, false input 3; another control takes only itself, gives err"
fn m_gate(mem: &mut [u8], links: Stretches, i: usize, dry: bool) -> bool
    requires { (links_at ≤ links.base) × (need_from links.base links.size ≤ length mem.old) × (i < most_operators) }
    ensures { MovesAny mem.old mem.new links.base links.size i dry result (m_by (input mem.old links.base links.size i 0) (input mem.old links.base links.size i 1) (input mem.old links.base links.size i 2)) }
{
    let first = port_of(mem, i, FIRST_INPUT);
    let control = token_of(mem, links, first);
    if is_absent(control) {
        return false;
    }
    if is_true(control) {
        return pass_data(mem, links, i, first, SECOND_INPUT, dry);
    }
    if is_false(control) {
        return pass_data(mem, links, i, first, THIRD_INPUT, dry);
    }
    give_one(mem, links, i, first, NOWHERE, ERR, dry)
}

// "a truth takes and passes the data; another control gives err and takes no data"
fn e_gate(mem: &mut [u8], links: Stretches, i: usize, dry: bool) -> bool
    requires { (links_at ≤ links.base) × (need_from links.base links.size ≤ length mem.old) × (i < most_operators) }
    ensures { Moves mem.old mem.new links.base links.size i dry result (e_by (input mem.old links.base links.size i 0) (input mem.old links.base links.size i 1) (register_of mem.old i)) }
{
    let first = port_of(mem, i, FIRST_INPUT);
    let control = token_of(mem, links, first);
    if is_absent(control) {
        return false;
    }
    if is_neither(control) {
        return give_one(mem, links, i, first, NOWHERE, ERR, dry);
    }
    pass_data(mem, links, i, first, SECOND_INPUT, dry)
}

// Brock's table (section 2.4), row by row and in his order: the control and the iter? of the arm that
// it chooses are taken; the graph's iter? is given, and the control on the second output where it is
// true, else on the third. An iter? that is no truth, met in altered memory only, counts as false.
fn ic_gate(mem: &mut [u8], links: Stretches, i: usize, dry: bool) -> bool
    requires { (links_at ≤ links.base) × (need_from links.base links.size ≤ length mem.old) × (i < most_operators) }
    ensures { Moves mem.old mem.new links.base links.size i dry result (ic_by (input mem.old links.base links.size i 0) (input mem.old links.base links.size i 1) (input mem.old links.base links.size i 2) (register_of mem.old i)) }
{
    let first = port_of(mem, i, FIRST_INPUT);
    let second = port_of(mem, i, SECOND_INPUT);
    let third = port_of(mem, i, THIRD_INPUT);
    let control = token_of(mem, links, first);
    let iter2 = token_of(mem, links, second);
    let iter3 = token_of(mem, links, third);
    // `&` and not `&&`: to look at both words is as cheap as to branch at the first.
    if is_true(control) & is_true(iter2) {
        return give_two(mem, links, i, first, second, TRUE, AGAIN, TRUE, dry);
    }
    if is_true(control) & counts_false(iter2) {
        return give_two(mem, links, i, first, second, FALSE, ENDED, TRUE, dry);
    }
    if is_false(control) & is_true(iter3) {
        return give_two(mem, links, i, first, third, TRUE, AGAIN, FALSE, dry);
    }
    if is_false(control) & counts_false(iter3) {
        return give_two(mem, links, i, first, third, FALSE, ENDED, FALSE, dry);
    }
    if is_neither(control) {
        return give_two(mem, links, i, first, NOWHERE, FALSE, ENDED, ERR, dry);
    }
    false
}

// "first firing wants only input 3 and passes it; then as M, with control iter?"
fn fm_gate(mem: &mut [u8], links: Stretches, i: usize, dry: bool) -> bool
    requires { (links_at ≤ links.base) × (need_from links.base links.size ≤ length mem.old) × (i < most_operators) }
    ensures { Moves mem.old mem.new links.base links.size i dry result (fm_by (input mem.old links.base links.size i 0) (input mem.old links.base links.size i 1) (input mem.old links.base links.size i 2) (register_of mem.old i)) }
{
    if is_absent(register_of(mem, i)) {
        return pass_data(mem, links, i, NOWHERE, THIRD_INPUT, dry);
    }
    m_gate(mem, links, i, dry)
}

// "first firing (no control), and each on false, passes and remembers the data; true repeats the
// remembered value, taking none." An iter? that is no truth counts as false.
fn fs_gate(mem: &mut [u8], links: Stretches, i: usize, dry: bool) -> bool
    requires { (links_at ≤ links.base) × (need_from links.base links.size ≤ length mem.old) × (i < most_operators) }
    ensures { Fires mem.old mem.new links.base links.size i dry result (fs_by (input mem.old links.base links.size i 0) (input mem.old links.base links.size i 1) (register_of mem.old i)) }
{
    let register = register_of(mem, i);
    if is_absent(register) {
        return remember_data(mem, links, i, NOWHERE, dry);
    }
    let first = port_of(mem, i, FIRST_INPUT);
    let control = token_of(mem, links, first);
    if is_absent(control) {
        return false;
    }
    if is_true(control) {
        return remember(mem, links, i, first, NOWHERE, register, dry);
    }
    remember_data(mem, links, i, first, dry)
}

// Moves the tokens of an operator of any kind but FS, whose register is its own affair.
fn move_tokens(mem: &mut [u8], links: Stretches, i: usize, kind: u8, dry: bool) -> bool
    requires { (links_at ≤ links.base) × (need_from links.base links.size ≤ length mem.old) × (i < most_operators) × (kind ≢ 20) }
    ensures { (Moves mem.old mem.new links.base links.size i dry result (decide_at kind (input mem.old links.base links.size i 0) (input mem.old links.base links.size i 1) (input mem.old links.base links.size i 2) (register_of mem.old i))) × (Leaves (next_register kind (register_of mem.old i)) (decide_at kind (input mem.old links.base links.size i 0) (input mem.old links.base links.size i 1) (input mem.old links.base links.size i 2) (register_of mem.old i))) }
{
    match kind {
        1..=9 => binary(mem, links, i, kind, dry),
        10..=11 => unary(mem, links, i, kind, dry),
        machine_layout::CONSTANT => constant(mem, links, i, dry),
        machine_layout::COPY => copy(mem, links, i, dry),
        machine_layout::T => t_gate(mem, links, i, dry),
        machine_layout::F => f_gate(mem, links, i, dry),
        machine_layout::M => m_gate(mem, links, i, dry),
        machine_layout::E => e_gate(mem, links, i, dry),
        machine_layout::IC => ic_gate(mem, links, i, dry),
        machine_layout::FM => fm_gate(mem, links, i, dry),
        _ => false,
    }
}

// Fires operator i if it can, unless dry, and tells whether it could.
fn fire_or_tell(mem: &mut [u8], links: Stretches, i: usize, dry: bool) -> bool
    requires { (links_at ≤ links.base) × (need_from links.base links.size ≤ length mem.old) × (i < most_operators) }
    ensures { Done mem.old mem.new dry result (able_from mem.old links.base links.size i) (performed_from mem.old links.base links.size i (plan_from mem.old links.base links.size i)) }
{
    let kind = mem[machine_layout::operator_at(i)];
    if kind == machine_layout::FS {
        return fs_gate(mem, links, i, dry);
    }
    if !move_tokens(mem, links, i, kind, dry) {
        return false;
    }
    if dry {
        return true;
    }
    let register = next_register(mem, i, kind);
    set_register(mem, i, register);
    true
}

// Whether operator i can fire.
pub fn able_at(mem: &mut [u8], links: Stretches, i: usize) -> bool
    requires { (links_at ≤ links.base) × (need_from links.base links.size ≤ length mem.old) × (i < most_operators) }
    ensures { (result ≡ able_from mem.old links.base links.size i) × (mem.new ≡ mem.old) }
{
    fire_or_tell(mem, links, i, true)
}

// Fires operator i if it can, and tells whether it did.
pub fn fire_at(mem: &mut [u8], links: Stretches, i: usize) -> bool
    requires { (links_at ≤ links.base) × (need_from links.base links.size ≤ length mem.old) × (i < most_operators) }
    ensures { (result ≡ able_from mem.old links.base links.size i) × (mem.new ≡ fired_from mem.old links.base links.size i) }
{
    fire_or_tell(mem, links, i, false)
}
