//! Bytes put at places of a row of bytes.
ghost use Rattle.std.specs.Prelude.{◌≡◌, ◌+◌, ◌≤◌, ◌++◌, length, take, drop};

/// Writes bytes at a place of a row, and returns the place behind them. Before it and behind it the row stays as it was.
#[inline(always)]
pub fn put(row: &mut [u8], at: usize, bytes: &[u8]) -> usize
    requires { at + length bytes.now ≤ length row.old }
    ensures text { take result row.new ≡ take at row.old ++ bytes.now }
    ensures behind { drop result row.new ≡ drop result row.old }
    ensures end { result ≡ at + length bytes.now }
    ensures size { length row.new ≡ length row.old }
{
    let end = at + bytes.len();
    row[at..end].copy_from_slice(bytes);
    end
}
