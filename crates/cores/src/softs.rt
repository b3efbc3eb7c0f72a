// The table of soft literals, lent as a slice of records (document 01: "The wish table is lent to its calls as a slice of records").
// Every read and every replacement of one record by its place goes by these two.
ghost use Rattle.std.specs.Prelude.{◌≡◌, ◌<◌, length, get_or, set};
ghost use Rattle.cores.specs.Tables.{no_soft};

use crate::soft::Soft;

// Kept: functions and no indexing, so that document 01's slice of records is read and replaced in one place each.
// The i-th record.
pub fn soft_at(table: &[Soft], i: usize) -> Soft
    requires { i < length table.now }
    ensures { result ≡ get_or table.now i no_soft }
{
    table[i]
}

// The i-th record is replaced, and no other.
pub fn put_soft(table: &mut [Soft], i: usize, r: Soft)
    requires { i < length table.old }
    ensures { table.new ≡ set table.old i r }
{
    table[i] = r;
}
