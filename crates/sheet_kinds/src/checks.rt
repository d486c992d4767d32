// The lowest row at fault (specs/Checks). Assumes nothing.
ghost use Rattle.std.specs.Prelude.{◌≡◌};
ghost use Rattle.sheet_kinds.specs.Checks.{lesser, own};

// The lower of two rows at fault.
pub fn lower(a: Result<(), usize>, b: Result<(), usize>) -> Result<(), usize>
    ensures { result ≡ lesser a b }
{
    match (a, b) {
        (Err(r), Err(k)) => Err(r.min(k)),
        _ => a.and(b),
    }
}

// Row r, where its own rule is kept or not.
pub fn own(r: usize, ok: bool) -> Result<(), usize>
    ensures { result ≡ own r ok }
{
    if ok { Ok(()) } else { Err(r) }
}
