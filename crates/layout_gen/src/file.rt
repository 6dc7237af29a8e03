//! The whole file.
ghost use Rattle.std.specs.Prelude.{◌≡◌, ◌+◌, ◌≤◌, ◌++◌, length, IfOk};
ghost use Rattle.depot.specs.Counting.{CountsWrites};
ghost use Rattle.depot.specs.Doing.{Makes};
ghost use Rattle.layout_gen.specs.Generated.{library_bytes, generated};

use crate::cells::{put_leaf, put_top};
use crate::records::{
    BGN_LIB, END_LIB, HEADER, LIB_NAME, NO_DATES, UNITS, put_number, put_record, put_two_wide,
};
use depot::{BUFFER_SIZE, Buffer, Depot, DepotBad, make_file};

// A database unit in user units: a thousandth; and in metres: 10^-9.
const USER_UNITS: u64 = 0x3E41_8937_4BC6_A7F0;

const METRES: u64 = 0x3944_B82F_A09B_5A54;

/// Puts what comes before the cells.
fn put_library(buffer: &mut Buffer)
    requires room { length buffer.old + 62 ≤ BUFFER_SIZE }
    ensures value { buffer.new ≡ buffer.old ++ library_bytes }
    ensures size { length buffer.new ≡ length buffer.old + 62 }
{
    put_number(buffer, HEADER, 600);
    put_record(buffer, BGN_LIB, &NO_DATES);
    put_record(buffer, LIB_NAME, b"GEN\0");
    put_two_wide(buffer, UNITS, USER_UNITS, METRES);
}

/// The file's bytes, in a buffer.
fn file_of(n: u16) -> Buffer
    requires { n ≤ 1000 }
    ensures value { result ≡ generated n }
    ensures size { length result ≡ 1266 }
{
    let mut buffer = Buffer::new();
    put_library(&mut buffer);
    put_leaf(&mut buffer, n);
    put_top(&mut buffer, n);
    put_record(&mut buffer, END_LIB, b"");
    buffer
}

/// Makes the file of the generated layout for `n`, which is 1 to 1,000, and answers how many bytes it has. After a
/// refusal the name is as before, or holds a prefix of these bytes. Nothing else changes but the counts.
pub fn generate<D: Depot>(depot: &mut D, n: u16, name: &str) -> Result<u64, DepotBad>
    requires least { 1 ≤ n }
    requires most { n ≤ 1000 }
    ensures content { Makes D.tells (D.content depot.old) (D.content depot.new) name.now (generated n) result }
    ensures size { IfOk result (λ size. size ≡ length (generated n)) }
    ensures bytes { IfOk result (λ size. size ≡ 1266) }
    ensures counts { CountsWrites (D.counts depot.old) (D.counts depot.new) result }
{
    let file = file_of(n);
    make_file(depot, name, file.bytes())?;
    Ok(file.bytes().len() as u64)
}
