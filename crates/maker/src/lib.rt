#![tactic(auto)]
// The whole graph of an accepted sheet (document 01, "The graph"): its operators in the machine's memory,
// and by value what start stores besides them.
ghost use Rattle.std.specs.Prelude.{◌≡◌, ◌++◌, ◌+◌, ◌*◌, ◌-◌, ◌≤◌, ◌<◌, length, take};
ghost use Rattle.machine_layout.specs.Layout.{links_at};
ghost use Rattle.formula.specs.Tree.{exp_of};
ghost use Rattle.graph.specs.Assembly.{up_from};
ghost use Rattle.maker.specs.Making.{Makeable, making_of, making_in, padded};

use machine_layout::NO_LINK;
use maker_joins::Next;
use maker_parts::{names_in, numbered};
use maker_rows::{EXPRESSION, Tables, row};
use names::{TRIGGER, TRIGGER_MASK, has, minus};
use sheet_tables::masks::mask_at;

// What was made: the numbers of operators and of links, the trigger's link (none where no constant needs it),
// the input links rising and the result links, each with their number; places past it hold none.
#[derive(Clone, Copy)]
pub struct Making {
    pub operators: usize,
    pub links: u16,
    pub trigger: u16,
    pub inputs: usize,
    pub input_links: [u16; 32],
    pub results: usize,
    pub result_links: [u16; 16],
}

// The links 0, 1, .. of k inputs.
fn rising(k: usize) -> [u16; 32]
    requires { k ≤ 32 }
    ensures { result ≡ padded 32 (up_from 0 k) }
{
    let mut links = [NO_LINK; 32];
    for i in 0..k {
        links[i] = i as u16;
    }
    links
}

// The first k links of an array.
fn first_of(outs: [u16; 33], k: usize) -> [u16; 16]
    requires { k ≤ 16 }
    ensures { result ≡ padded 16 (take k outs) }
{
    let mut links = [NO_LINK; 16];
    links[..k].copy_from_slice(&outs[..k]);
    links
}

// The graph of the formula, row n of the fields t: masks and widths are the free names and the returned
// width of each row, as reading has them.
pub fn make(t: &[u32], n: usize, masks: &[u64], widths: &[u8], mem: &mut [u8]) -> Making
    requires { Makeable t.now n masks.now widths.now × (links_at ≤ length mem.old) }
    ensures { (result ≡ making_of (exp_of t.now n)) × (mem.new ≡ making_in mem.old (exp_of t.now n)) }
{
    let free = mask_at(masks, n);
    let inputs = names_in(minus(free, TRIGGER_MASK));
    // the trigger's link is behind those of the inputs, where a constant needs it
    let needed = has(free, TRIGGER);
    let trigger = if needed { inputs as u16 } else { NO_LINK };
    let input_links = rising(inputs);
    let k = names_in(free);
    let env = numbered(free, 0);
    let next = Next {
        link: k,
        operator: 0,
    };
    let tables = Tables { t, masks, widths };
    let x = row(&tables, EXPRESSION, n, env, next, mem);
    let outs = x.outs;
    let result_links = first_of(outs, x.count);
    Making {
        operators: x.next.operator,
        links: x.next.link as u16,
        trigger,
        inputs,
        input_links,
        results: x.count,
        result_links,
    }
}
