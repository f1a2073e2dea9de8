// The tables that pages are fed by.

ghost use Rattle.gf2.specs.Moduli.{polynomial};
ghost use Rattle.shifts.specs.Shifts.{Shifts};

use lookups::KeyTable;

// The two tables that pages are fed by, lent: the modulus's, four bytes at a time, and the one for the shift by eight bytes.
#[derive(Clone, Copy)]
pub struct PageTables<'a> {
    pub table: KeyTable<'a>,
    pub eights: &'a [u64],
    pub ghost shifts: { Shifts (polynomial table.p) 64 eights.now },
}
