// The tokens of a rule text; refusals 4 and 5.
#![tactic(auto)]

ghost use Rattle.std.specs.Prelude.{◌≡◌, ℕ, ◌+◌, ◌<◌, ◌≤◌, length, drop};
ghost use Rattle.std.proofs.Math.Option.{map};
ghost use Rattle.tables.specs.Bytes.{byte_at};
ghost use Rattle.tables.specs.Options.{found};
ghost use Rattle.numerals.specs.Texts.{take_while};
ghost use Rattle.rule.specs.Tokens.{is_gap, is_capital, words, word_in, signs, sign_in, number_token, first_token, tokens_of};
ghost use Rattle.rule.specs.declared.Token.TheVariants.{Fixed};
ghost use Rattle.digits.specs.Code.{found_as};
ghost use Rattle.lexer.specs.Code.{most_of_three, token_spelled, token_to, lexed_as, less_from, greater_from, tokenized_as, BracketsTold, FewTokens};

use cells::byte;
use digits::{Found, negative_at, spell_run, unsigned_at};
use rule::{Token, Word};
use tables::Comparison;

// How long a text may be, and so how many tokens it may have.
pub const MOST_BYTES: usize = 4096;

const MOST_OPEN: usize = 32;

// How many capitals are looked at as a word: as many as make up a number of 64 bits.
const MOST_CAPITALS: usize = 8;

// The greatest number that three bytes make up.
const MOST_OF_THREE: usize = 0xFFFFFF;

// A token, and the place after it.
#[derive(Clone, Copy)]
pub struct Lexeme {
    pub token: Token,
    pub end: usize,
}

fn token_to(token: Token, end: usize) -> Lexeme
    ensures { result ≡ token_to token end }
{
    Lexeme { token, end }
}

// The place of the first byte from i on that is neither a space nor a line feed.
fn skip_gaps(text: &[u8], i: usize) -> usize
    requires { i ≤ length text.now }
    ensures { result ≡ i + length (take_while is_gap (drop i text.now)) }
{
    for end in i..text.len() {
        let b = byte(text, end);
        if b != 32 && b != 10 {
            return end;
        }
    }
    text.len()
}

// The word whose capitals, at most three, spell this number.
#[tactic(auto, unfolding(crate::specs::Code::token_spelled, rule::specs::Tokens::words, numerals::specs::Texts::bytes))]
fn short_word(spelled: usize) -> Option<Word>
    requires { spelled ≤ most_of_three }
    ensures { map Fixed (found result) ≡ token_spelled words spelled }
{
    match spelled {
        0x414E44 => Some(Word::And),
        0x4F52 => Some(Word::Or),
        0x4E4F54 => Some(Word::Not),
        0x494E => Some(Word::In),
        0x414C4C => Some(Word::All),
        0x4953 => Some(Word::Is),
        _ => None,
    }
}

// The same of more capitals.
#[tactic(auto, unfolding(crate::specs::Code::token_spelled, rule::specs::Tokens::words, numerals::specs::Texts::bytes))]
fn long_word(spelled: usize) -> Option<Word>
    requires { most_of_three < spelled }
    ensures { map Fixed (found result) ≡ token_spelled words spelled }
{
    match spelled {
        0x455849535453 => Some(Word::Exists),
        0x534F4D45 => Some(Word::Some),
        0x4E554C4C => Some(Word::Null),
        0x53454C454354 => Some(Word::Select),
        0x46524F4D => Some(Word::From),
        0x5748455245 => Some(Word::Where),
        0x54525545 => Some(Word::True),
        0x46414C5345 => Some(Word::False),
        0x554E4B4E4F574E => Some(Word::Unknown),
        0x4445434C494E4544 => Some(Word::Declined),
        _ => None,
    }
}

// The word whose capitals, as digits in base 256, spell this number. The short ones, which a rule has most of, are told from the others first: in one `match`
// of all words they came after more branches.
fn spelled_word(spelled: usize) -> Option<Word>
    ensures { map Fixed (found result) ≡ token_spelled words spelled }
{
    if spelled <= MOST_OF_THREE {
        return short_word(spelled);
    }
    long_word(spelled)
}

// The word of the capitals from i on.
#[tactic(auto, using(crate::proofs::Words::word_rules))]
fn word(text: &[u8], i: usize) -> Option<Lexeme>
    requires { i ≤ length text.now }
    ensures { lexed_as i result ≡ word_in words (take_while is_capital (drop i text.now)) }
{
    let run = spell_run(text, i, 65, 90, 256, 0, MOST_CAPITALS);
    if MOST_CAPITALS < run.end - i {
        return None;
    }
    let word = spelled_word(run.number)?;
    Some(token_to(Token::Fixed(word), run.end))
}

// A number that was found, as a token.
fn number_token(found: Option<Found>) -> Option<Lexeme>
    ensures { (i : ℕ) → lexed_as i result ≡ map number_token (found_as i found) }
{
    let Found { number, end } = found?;
    Some(token_to(Token::Number(number), end))
}

// Byte i, and 0 past the end.
fn byte_or_zero(text: &[u8], i: usize) -> usize
    ensures { result ≡ byte_at text.now i }
{
    if i < text.len() {
        return byte(text, i);
    }
    0
}

// The sign at i: < and > may go on.
#[tactic(auto, using(crate::proofs::Signs::sign_rules))]
fn sign(text: &[u8], i: usize) -> Option<Lexeme>
    requires { i < length text.now }
    ensures { lexed_as i result ≡ sign_in signs (drop i text.now) }
{
    match byte(text, i) {
        40 => Some(token_to(Token::Fixed(Word::Open), i + 1)),
        41 => Some(token_to(Token::Fixed(Word::Close), i + 1)),
        46 => Some(token_to(Token::Fixed(Word::Point), i + 1)),
        60 => Some(less(text, i)),
        61 => Some(token_to(Token::Compares(Comparison::Eq), i + 1)),
        62 => Some(greater(text, i)),
        _ => None,
    }
}

// The sign at i that begins with <: <> or <= or <.
fn less(text: &[u8], i: usize) -> Lexeme
    requires { i < length text.now }
    ensures { result ≡ less_from (byte_at text.now (i + 1)) i }
{
    match byte_or_zero(text, i + 1) {
        62 => token_to(Token::Compares(Comparison::Ne), i + 2),
        61 => token_to(Token::Compares(Comparison::Le), i + 2),
        _ => token_to(Token::Compares(Comparison::Lt), i + 1),
    }
}

// The sign at i that begins with >.
fn greater(text: &[u8], i: usize) -> Lexeme
    requires { i < length text.now }
    ensures { result ≡ greater_from (byte_at text.now (i + 1)) i }
{
    match byte_or_zero(text, i + 1) {
        61 => token_to(Token::Compares(Comparison::Ge), i + 2),
        _ => token_to(Token::Compares(Comparison::Gt), i + 1),
    }
}

// The token at i, where there is no gap. Words and letters, of which a rule has most, are told before numbers. The branch at 42 changes no answer: below it ( and
// ) alone are signs, so the compiler compares with these two there and makes no jump table, and a text of many brackets is read faster.
#[tactic(auto, using(crate::proofs::Firsts::first_rules))]
fn first_token(text: &[u8], i: usize) -> Option<Lexeme>
    requires { i < length text.now }
    ensures { lexed_as i result ≡ first_token (byte_at text.now i) (drop (1 + i) text.now) }
{
    let b = text[i];
    if b < 48 {
        if b < 42 {
            return sign(text, i);
        }
        if b == 45 {
            return number_token(negative_at(text, i + 1));
        }
        return sign(text, i);
    }
    if 64 < b {
        if b < 91 {
            return word(text, i);
        }
        if b < 97 || 122 < b {
            return None;
        }
        return Some(token_to(Token::Letter(b), i + 1));
    }
    if b < 58 {
        return number_token(unsigned_at(text, i));
    }
    sign(text, i)
}

// How many tokens a text has, and whether there are never too many more ( than ) up to one of them, so that refusal 5 does not apply.
#[derive(Clone, Copy)]
pub struct Tokenized {
    pub count: usize,
    pub fit: bool,
}

// The tokens, from the start of the array on; or some byte begins none: refusal 4. There is room for a token at each byte. Brackets are counted as they
// are found: with a pass of their own over the tokens, READ of many brackets took a fifth more time. ( and ) are counted apart, since the difference may be
// negative; it grows at a ( alone, so it is compared with the limit only there. The loop goes by place: how far it steps is known from each token.
pub fn tokenize(text: &[u8], tokens: &mut [Token]) -> Option<Tokenized>
    requires { length text.now ≤ length tokens.old }
    ensures are { tokenized_as result tokens.new ≡ tokens_of text.now }
    ensures brackets { BracketsTold result tokens.new }
    ensures size { (length tokens.new ≡ length tokens.old) × FewTokens result (length text.now) }
{
    let mut count: usize = 0;
    let mut opened: usize = 0;
    let mut closed: usize = 0;
    let mut fit = true;
    let mut i: usize = skip_gaps(text, 0);
    while i < text.len() {
        let Lexeme { token, end } = first_token(text, i)?;
        tokens[count] = token;
        count += 1;
        if let Token::Fixed(word) = token {
            match word {
                Word::Open => {
                    opened += 1;
                    if closed + MOST_OPEN < opened {
                        fit = false;
                    }
                }
                Word::Close => closed += 1,
                _ => {}
            }
        }
        i = skip_gaps(text, end);
    }
    Some(Tokenized { count, fit })
}
