// The reader: all tests of a sheet with its kinds line in their order, the tables of an accepted sheet, and the entry point
// (document 01, "Said by what was handed in", 1 to 10, and document 02, Job 6, 17 and 18 between 9 and 10). Any bytes of any
// length may be handed in.
ghost use Rattle.std.specs.Prelude.{◌≡◌, ◌*◌, ◌≤◌, length, take, Ok};
ghost use Rattle.names.specs.Names.{mask};
ghost use Rattle.formula.specs.Sheet.{row_count, fields_of};
ghost use Rattle.formula.specs.Tree.{exp_of};
ghost use Rattle.formula.specs.Free.{free_e};
ghost use Rattle.formula.specs.Tests.{lowest, ranges_well, names_well, reading_of};
ghost use Rattle.meaning.specs.Rows.{ExpRow};
ghost use Rattle.eval_words.specs.Inputs.{inputs_in};
ghost use Rattle.sheet_tables.specs.Ready.{Ready};
ghost use Rattle.sheet_read.specs.Reading.{row_verdict, kind_verdict, table_verdict, formula_verdict, verdict_in, operators_in, Rowed, Told, tables_of, answer_of};

use eval_words::inputs::inputs_in;
use formula::{Figures, Refusal, Refused, at_row};
use sheet_count::count::test_operators;
use sheet_fields::decode::decode;
use sheet_fields::layout::{MOST_ROWS, ROW_BYTES, few_rows, laid_out};
use sheet_fields::shape::{FIELDS, MOST_FIELDS};
use sheet_kinds::line::{kinds_line, test_kinds};
use sheet_rows::places::{find_places, test_places};
use sheet_rows::rows::{test_named, test_naming, test_ranges};
use sheet_tables::masks::test_bound;
use sheet_tables::widths::test_widths;

// What reading tells the firmware: refusal 0 is an accepted sheet.
#[repr(C)]
#[derive(Clone, Copy)]
pub struct ReadAnswer {
    pub refusal: u32,
    pub row: u32,
    pub rows: u32,
    pub operators: u32,
    pub inputs: u32,
    pub results: u32,
}

// Tests 1 to 5, which fill the table of fields.
pub fn row_tests(s: &[u8], fields: &mut [u32]) -> Result<(), Refused>
    requires { row_count s.now ≤ 200 → 5 * row_count s.now ≤ length fields.old }
    ensures { (result ≡ row_verdict s.now) × (result ≡ Ok tt → take (5 * row_count s.now) fields.new ≡ fields_of s.now) }
{
    if !laid_out(s) {
        return Err(Refused {
            refusal: Refusal::Layout,
            row: 0,
        });
    }
    if !few_rows(s) {
        return Err(Refused {
            refusal: Refusal::Rows,
            row: 0,
        });
    }
    let n = s.len() / ROW_BYTES;
    at_row(Refusal::Malformed, decode(s, n, fields))?;
    let end = FIELDS * n;
    at_row(Refusal::Range, test_ranges(&fields[..end], n))?;
    at_row(Refusal::Naming, test_naming(&fields[..end], n))
}

// Tests 17 and 18 of n rows with these widths, the last of which has the free names `free`.
fn kind_tests(
    fields: &[u32],
    n: usize,
    widths: &[u8],
    free: u64,
    line: &[u8],
) -> Result<(), Refused>
    requires { ExpRow fields.now widths.now n × (free ≡ mask (free_e (exp_of fields.now n))) }
    ensures { result ≡ kind_verdict fields.now n line.now }
{
    if !kinds_line(line, inputs_in(free)) {
        return Err(Refused {
            refusal: Refusal::KindsLine,
            row: 0,
        });
    }
    match test_kinds(fields, widths, n, free, line) {
        Ok(()) => Ok(()),
        Err(row) => Err(Refused {
            refusal: Refusal::KindsBroken,
            row,
        }),
    }
}

// Tests 8, 9, 17, 18 and 10 of n rows in these places.
fn table_tests(
    fields: &[u32],
    n: usize,
    places: &[bool],
    line: &[u8],
    returned: &mut [u8],
    masks: &mut [u64],
) -> Result<u32, Refused>
    requires { (Ready fields.now n places.now) × (1 ≤ n) × (n ≤ 200) × (length returned.old ≡ n) × (length masks.old ≡ n) }
    ensures { (verdict_in result ≡ table_verdict fields.now places.now n line.now)
        × (verdict_in result ≡ Ok tt → Rowed fields.now n (operators_in result) returned.new masks.new) }
{
    let mut iterated = [0u8; MOST_ROWS];
    at_row(
        Refusal::Width,
        test_widths(fields, n, places, returned, &mut iterated[..n]),
    )?;
    at_row(Refusal::Unused, test_bound(fields, n, places, masks))?;
    kind_tests(fields, n, &returned[..n], masks[n - 1], line)?;
    let total = test_operators(
        fields,
        n,
        places,
        &returned[..n],
        &iterated[..n],
        &masks[..n],
    );
    total.ok_or(Refused {
        refusal: Refusal::Operators,
        row: 0,
    })
}

// The tests from 6 on of n rows with these fields.
fn formula_tests(
    fields: &[u32],
    n: usize,
    line: &[u8],
    returned: &mut [u8],
    masks: &mut [u64],
) -> Result<u32, Refused>
    requires { (length fields.now ≡ 5 * n) × (1 ≤ n) × (n ≤ 200) × (lowest n (ranges_well fields.now) ≡ Ok tt) × (lowest n (names_well fields.now) ≡ Ok tt)
        × (length returned.old ≡ n) × (length masks.old ≡ n) }
    ensures { (verdict_in result ≡ formula_verdict fields.now n line.now)
        × (verdict_in result ≡ Ok tt → Rowed fields.now n (operators_in result) returned.new masks.new) }
{
    at_row(Refusal::Named, test_named(fields, n))?;
    let mut places = [false; MOST_ROWS];
    find_places(fields, n, &mut places[..n]);
    at_row(Refusal::StrayIter, test_places(fields, n, &places[..n]))?;
    table_tests(fields, n, &places[..n], line, returned, masks)
}

// All tests in their order, which fill lent tables with room for 200 rows. Only an accepted sheet's are filled to the end.
pub fn fill_tables(
    sheet: &[u8],
    line: &[u8],
    fields: &mut [u32],
    returned: &mut [u8],
    masks: &mut [u64],
) -> Result<u32, Refused>
    requires { (length fields.old ≡ 1000) × (length returned.old ≡ 200) × (length masks.old ≡ 200) }
    ensures { Told sheet.now line.now (tables_of result (row_count sheet.now) fields.new returned.new masks.new) }
{
    let n = sheet.len() / ROW_BYTES;
    row_tests(sheet, fields)?;
    let end = FIELDS * n;
    formula_tests(&fields[..end], n, line, &mut returned[..n], &mut masks[..n])
}

// The figures of an accepted sheet, from its last row's entries.
fn figures(rows: usize, operators: u32, free: u64, results: u8) -> Figures
    ensures { (result.rows ≡ rows) × (result.operators ≡ operators) × (result.inputs ≡ inputs_in free) × (result.results ≡ results) }
{
    Figures {
        rows,
        operators: operators as usize,
        inputs: inputs_in(free),
        results: results as usize,
    }
}

// What reading says of a sheet with its kinds line.
pub fn read(sheet: &[u8], line: &[u8]) -> Result<Figures, Refused>
    ensures { result ≡ reading_of sheet.now line.now }
{
    let mut fields = [0u32; MOST_FIELDS];
    let mut returned = [0u8; MOST_ROWS];
    let mut masks = [0u64; MOST_ROWS];
    let operators = fill_tables(sheet, line, &mut fields, &mut returned, &mut masks)?;
    let rows = sheet.len() / ROW_BYTES;
    let last = rows - 1;
    Ok(figures(rows, operators, masks[last], returned[last]))
}

// Reading for the firmware; the crates firmware and sheet_read_c export it for C.
pub fn bench_read(sheet: &[u8], kinds: &[u8]) -> ReadAnswer
    ensures { result ≡ answer_of (reading_of sheet.now kinds.now) }
{
    match read(sheet, kinds) {
        Ok(f) => ReadAnswer {
            refusal: 0,
            row: 0,
            rows: f.rows as u32,
            operators: f.operators as u32,
            inputs: f.inputs as u32,
            results: f.results as u32,
        },
        Err(Refused { refusal, row }) => ReadAnswer {
            refusal: u32::from(refusal),
            row: row as u32,
            rows: 0,
            operators: 0,
            inputs: 0,
            results: 0,
        },
    }
}
