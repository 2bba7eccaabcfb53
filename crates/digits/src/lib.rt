// Numbers as texts, in slices of any length: reading a number at a place, and writing one without spare zeros. Beside them the run of bytes of one
// class, and what it spells, for words too.
#![tactic(auto)]

ghost use Rattle.std.specs.Prelude.{◌≡◌, ◌+◌, ◌-◌, ◌<◌, ◌≤◌, pos, length, drop};
ghost use Rattle.tables.specs.Lists.{placed};
ghost use Rattle.numerals.specs.Texts.{take_while};
ghost use Rattle.numerals.specs.Numerals.{is_digit, most_digits, negative, number_of, first_number, digits_of, numeral};
ghost use Rattle.cells.specs.Code.{words32};
ghost use Rattle.digits.specs.Code.{Spellable, RunAt, DigitsAt, found_as};

use cells::byte;
use numerals::MOST_DIGITS;

// A run of bytes: the place after it, and the number that its bytes spell, unless it is too long.
#[derive(Clone, Copy)]
pub struct Run {
    pub end: usize,
    pub number: usize,
}

// The run of bytes from low to high that starts at i, and what it spells in a base, where zero is the byte of the digit 0. The bytes are looked at once;
// those behind the first `most` are only passed over.
pub fn spell_run(
    text: &[u8],
    i: usize,
    low: usize,
    high: usize,
    base: usize,
    zero: usize,
    most: usize,
) -> Run
    requires fact_1 { i ≤ length text.now }
    requires fact_2 { Spellable low high base zero most }
    ensures { RunAt text.now i low high base zero most result }
{
    let mut number: usize = 0;
    for end in i..text.len() {
        let b = byte(text, end);
        if !(low..=high).contains(&b) {
            return Run { end, number };
        }
        if end - i < most {
            number = base * number + (b - zero);
        }
    }
    Run {
        end: text.len(),
        number,
    }
}

// A number that stands at a place of a text, and the place after it.
#[derive(Clone, Copy)]
pub struct Found {
    pub number: i32,
    pub end: usize,
}

// The run of 1 to 10 digits from i on, if the number that they spell is at most so great.
fn digits_at(text: &[u8], i: usize, greatest: usize) -> Option<Run>
    requires { i ≤ length text.now }
    ensures { DigitsAt text.now i greatest result }
{
    let run = spell_run(text, i, 48, 57, 10, 48, MOST_DIGITS);
    if run.end == i || MOST_DIGITS < run.end - i || greatest < run.number {
        return None;
    }
    Some(run)
}

// The number of the digits from i on: 1 to 10 of them, up to 2,147,483,647.
pub fn unsigned_at(text: &[u8], i: usize) -> Option<Found>
    requires { i ≤ length text.now }
    ensures { found_as i result ≡ number_of pos 0 (take_while is_digit (drop i text.now)) }
{
    let run = digits_at(text, i, 2147483647)?;
    Some(Found {
        number: run.number as i32,
        end: run.end,
    })
}

// The same with the minus before i: down to −2,147,483,648.
pub fn negative_at(text: &[u8], i: usize) -> Option<Found>
    requires { (0 < i) × (i ≤ length text.now) }
    ensures { found_as (i - 1) result ≡ number_of negative 1 (take_while is_digit (drop i text.now)) }
{
    let run = digits_at(text, i, 2147483648)?;
    Some(Found {
        number: (-(run.number as i64)) as i32,
        end: run.end,
    })
}

// The number from i on: a minus or none, then the whole run of digits.
pub fn number_at(text: &[u8], i: usize) -> Option<Found>
    requires { i ≤ length text.now }
    ensures { found_as i result ≡ first_number (drop i text.now) }
{
    if text.len() <= i {
        return None;
    }
    if byte(text, i) == 45 {
        return negative_at(text, i + 1);
    }
    unsigned_at(text, i)
}

// How many digits a number has: of the powers 10, 100, .. the first above it has as many zeros. To multiply is faster than to divide.
fn digit_count(n: usize) -> usize
    requires { n < words32 }
    ensures { result ≡ length (digits_of most_digits n) }
{
    let mut count: usize = 1;
    let mut power: usize = 10;
    while power <= n {
        power = 10 * power;
        count += 1;
    }
    count
}

// Its digits from place i on, from the last one to the first; the next place. The first digit is what is left, with no division: with a `for` over the places, which
// divides once more for each number, EXPORT took a fourth more instructions.
fn put_digits(out: &mut [u8], i: usize, n: usize) -> usize
    requires fact_1 { n < words32 }
    requires fact_2 { i + length (digits_of most_digits n) ≤ length out.old }
    ensures written { out.new ≡ placed out.old i (digits_of most_digits n) }
    ensures next { result ≡ i + length (digits_of most_digits n) }
{
    let next = i + digit_count(n);
    let mut at: usize = next - 1;
    let mut rest: usize = n;
    while 10 <= rest {
        out[at] = (48 + rest % 10) as u8;
        rest = rest / 10;
        at -= 1;
    }
    out[at] = (48 + rest) as u8;
    next
}

// How many bytes a number takes as it is written: 1 to 11.
pub fn numeral_length(n: i32) -> usize
    ensures { result ≡ length (numeral n) }
{
    let digits = digit_count(n.unsigned_abs() as usize);
    if n < 0 { 1 + digits } else { digits }
}

// A number as it is written, from place i on; the next place.
pub fn put_numeral(out: &mut [u8], i: usize, n: i32) -> usize
    requires { i + length (numeral n) ≤ length out.old }
    ensures written { out.new ≡ placed out.old i (numeral n) }
    ensures next { result ≡ i + length (numeral n) }
{
    let size = n.unsigned_abs() as usize;
    if n < 0 {
        out[i] = b'-';
        return put_digits(out, i + 1, size);
    }
    put_digits(out, i, size)
}
