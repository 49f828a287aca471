// Columns: decimal numbers of a fixed width, right-justified, padded on the left with spaces.
//
// Held          what a pass over a column holds after some of its bytes
// number        the number in a column
// write         a number of so many digits as a column of so many bytes
// write_number  any number as a column of five bytes
#![tactic(auto)]

ghost use Rattle.std.specs.Prelude.{◌+◌, ◌-◌, ◌/◌, ◌%◌, ◌^◌, ◌<◌, ◌≤◌, [], ◌∷◌, ◌≡◌, true, length, take, drop};
ghost use Rattle.basics.specs.Lists.{put};
ghost use Rattle.columns.specs.Column.{widest_column, no_number, column_number, some_number, digit_or, column_of};
ghost use Rattle.columns.specs.Held.{held, held_next, so_far, held_number};

// The most bytes of a column.
pub const WIDEST: usize = 10;

// What a column of spaces alone holds: who writes a column may leave its 0 out.
const BLANK_NUMBER: usize = 0;

// What a pass over a column holds after some of its bytes, from the first on: the number so far and what may follow.
#[derive(Clone, Copy, Debug, PartialEq, Eq)]
pub enum Held {
    // spaces alone
    Blank,
    // spaces and a single 0, which nothing may follow
    Nought,
    // spaces and the digits of this number, which is above 0; digits may follow
    Digits(usize),
    // no column begins so
    Broken,
}

impl Held {
    // What is held after one byte more. The number so far has at most ten digits.
    #[inline]
    #[tactic(auto, unfolding(crate::specs::Held::held_next, crate::specs::Held::so_far))]
    pub fn next(self, b: u8) -> Held
        requires { so_far self ≤ no_number }
        ensures { result ≡ held_next self b }
    {
        match (self, b) {
            (Held::Blank, b' ') => Held::Blank,
            (Held::Blank, b'0') => Held::Nought,
            (Held::Blank, b'1'..=b'9') => Held::Digits(usize::from(b - b'0')),
            (Held::Digits(v), b'0'..=b'9') => Held::Digits(v * 10 + usize::from(b - b'0')),
            _ => Held::Broken,
        }
    }

    // The number of a column that ends here, if it holds one. In a column of spaces alone its 0 is left out.
    #[inline]
    pub fn number(self) -> Option<usize>
        ensures { result ≡ held_number self }
    {
        match self {
            Held::Blank => Some(BLANK_NUMBER),
            Held::Nought => Some(0),
            Held::Digits(v) => Some(v),
            Held::Broken => None,
        }
    }
}

// What a pass over the bytes from at on holds after width of them, at most WIDEST. Each byte is looked at once, from the first on.
#[inline]
fn pass(bytes: &[u8], at: usize, width: usize) -> Held
    requires { (at + width ≤ length bytes.now) × (width ≤ widest_column) }
    ensures { result ≡ held (take width (drop at bytes.now)) }
{
    let mut held = Held::Blank;
    for b in &bytes[at..at + width] {
        held = held.next(*b);
    }
    held
}

// The number in the column of width bytes, at most WIDEST, that starts at byte at, if they are a column: 0 where it is blank.
pub fn number(bytes: &[u8], at: usize, width: usize) -> Option<usize>
    requires { (at + width ≤ length bytes.now) × (width ≤ widest_column) }
    ensures { result ≡ some_number (column_number (take width (drop at bytes.now))) }
{
    pass(bytes, at, width).number()
}

// The last digit of n as a byte, by the tenth of n.
fn digit(n: u32, tenth: u32) -> u8
    requires { tenth ≡ n / 10 }
    ensures { result ≡ 48 + n % 10 }
{
    b'0' + (n - tenth * 10) as u8
}

// The byte of n in a column: its last digit, or a space where n is 0.
#[tactic(auto, unfolding(crate::specs::Column::digit_or))]
fn digit_or_space(n: u32, tenth: u32) -> u8
    requires { tenth ≡ n / 10 }
    ensures { result ≡ digit_or n }
{
    if n == 0 { b' ' } else { digit(n, tenth) }
}

// The tenth of n. Where n is known to be a last digit nothing is divided.
fn tenth(n: u32, is_last: bool) -> u32
    requires { is_last ≡ true → n < 10 }
    ensures { result ≡ n / 10 }
{
    if is_last { 0 } else { n / 10 }
}

// n, which has at most D digits, as a column of W bytes, written from byte at on. Of a number of more than W digits the last W are
// written.
pub fn write<const W: usize, const D: usize>(bytes: &mut [u8], at: usize, n: u32)
    requires { (0 < W) × (at + W ≤ length bytes.old) × (n < 10 ^ D) }
    ensures { bytes.new ≡ put at bytes.old (column_of W n) }
{
    let mut left = n / 10;
    bytes[at + W - 1] = digit(n, left);
    for i in 1..W {
        let rest = tenth(left, D <= i + 1);
        bytes[at + W - 1 - i] = digit_or_space(left, rest);
        left = rest;
    }
}

// n as a column of five bytes, written from byte at on. Of a larger number the last five digits are written.
pub fn write_number(bytes: &mut [u8], at: usize, n: usize)
    requires { at + 5 ≤ length bytes.old }
    ensures { bytes.new ≡ put at bytes.old (column_of 5 n) }
{
    let last = if n < 100000 { n } else { 100000 + n % 100000 };
    write::<5, 6>(bytes, at, last as u32);
}
