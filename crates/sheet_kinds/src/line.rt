// The kinds line: "one letter an input, W or T, and a line feed" (formula's specs/Faults), with R for a float, and a sheet's rows under
// the kinds that it tells.
ghost use Rattle.std.specs.Prelude.{◌≡◌, true, length, get_or};
ghost use Rattle.value.specs.Kinds.{kind_of_letter};
ghost use Rattle.names.specs.Names.{mask};
ghost use Rattle.formula.specs.Tree.{exp_of};
ghost use Rattle.formula.specs.Free.{free_e, inputs_of};
ghost use Rattle.formula.specs.Kinds.{kinded};
ghost use Rattle.formula.specs.Faults.{line_well, input_kinds, kind_check};
ghost use Rattle.meaning.specs.Rows.{ExpRow};
ghost use Rattle.sheet_kinds.specs.Bytes.{kind_of_byte};
ghost use Rattle.sheet_kinds.specs.Line.{Tells};

use crate::bytes::{REAL, TRUTH, WHOLE};
use crate::walk::exp_kinds;
use eval_words::inputs::next;
use sheet_fields::layout::LINE_FEED;
use sheet_fields::shape::IDENTIFIERS;
use value::bytes::{REAL_LETTER, TRUTH_LETTER};

// Whether a line has a letter for each input, then a line feed, and no more.
pub fn kinds_line(line: &[u8], inputs: usize) -> bool
    ensures { result ≡ line_well inputs line.now }
{
    if line.len() <= inputs {
        return false;
    }
    if line.len() - inputs != 1 {
        return false;
    }
    for i in 0..inputs {
        if !value::bytes::is_letter(line[i]) {
            return false;
        }
    }
    line[inputs] == LINE_FEED
}

// The kind of letter i of a line, a whole number where there is none.
fn kind_at(line: &[u8], i: usize) -> u8
    ensures { kind_of_byte result ≡ kind_of_letter (get_or line.now i 0) }
{
    match line.get(i) {
        Some(&TRUTH_LETTER) => TRUTH,
        Some(&REAL_LETTER) => REAL,
        _ => WHOLE,
    }
}

// The identifiers in the mask, rising, get the line's kinds in its order.
pub fn tell_kinds(env: &mut [u8], m: u64, line: &[u8])
    requires { length env.old ≡ 32 }
    ensures { Tells line.now m env.new 32 }
{
    let mut i = 0;
    for k in 0..IDENTIFIERS {
        env[k] = kind_at(line, i);
        i = next(m, k, i);
    }
}

// Row n as the formula, whose free names are the mask `free`: the lowest row that breaks the kinds under those that a line tells its
// inputs.
pub fn test_kinds(t: &[u32], widths: &[u8], n: usize, free: u64, line: &[u8]) -> Result<(), usize>
    requires { ExpRow t.now widths.now n × (free ≡ mask (free_e (exp_of t.now n))) × (line_well (length (inputs_of (exp_of t.now n))) line.now ≡ true) }
    ensures { result ≡ kind_check kinded t.now n (input_kinds (free_e (exp_of t.now n)) line.now) }
{
    let mut env = [0; 32];
    tell_kinds(&mut env, free, line);
    let mut out = [0; 16];
    exp_kinds(t, widths, n, &env, &mut out, 0)
}
