// For the comparison with the reference alone; not in include/zagvirk.h.
ghost use Rattle.std.specs.Prelude.{◌≡◌};
ghost use Rattle.exports.specs.Comparison.{column_or_none};

// What C is told where there is no number: more than any column of at most columns::WIDEST bytes holds.
const NO_NUMBER: usize = 10000000000;

// The number in a column of at most columns::WIDEST bytes; NO_NUMBER where they are not a column, or are more.
// Time: each byte once. Memory: constant.
#[unsafe(no_mangle)]
pub extern "C" fn zagvirk_column(bytes: &[u8]) -> usize
    ensures { result ≡ column_or_none bytes.now }
{
    if columns::WIDEST < bytes.len() {
        return NO_NUMBER;
    }
    match columns::number(bytes, 0, bytes.len()) {
        Some(n) => n,
        None => NO_NUMBER,
    }
}
