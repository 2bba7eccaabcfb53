// The rule of a text: its parts, or the first refusal of reading that applies. READ, JUDGE and CARD go on from here.
// Notes: what the grammar keeps of each part as it is written, before its letters are looked up.
#![tactic(auto)]

ghost use Rattle.std.specs.Prelude.{◌≡◌, true, ◌≤◌, pos, length};
ghost use Rattle.tables.specs.Refusals.{Given, tables_call};
ghost use Rattle.cells.specs.Code.{Sized};
ghost use Rattle.rule.specs.Tokens.{opens_fit};
ghost use Rattle.rule.specs.Calls.{most_bytes};
ghost use Rattle.lexer.specs.Code.{most_tokens};
ghost use Rattle.parser.specs.Code.{TextReady, TokensParsedTo, parsed_answer, parse_call, ParsedTo, refusal_in};

use cells::Reason;
use grammar::{MOST_FROMS, MOST_PARTS, NO_NOTE};
use lexer::MOST_BYTES;
use names::RulePart;
use rule::{Token, Word};
use tables::MOST_ENTRIES;

// Texts of at most so many bytes get an array of tokens that is no longer than that: setting up the one for the longest text takes longer than reading a
// short one.
const SHORTEST_TEXT: usize = 32;

const SHORT_TEXT: usize = 128;

const MIDDLE_TEXT: usize = 1024;

// What stands in an array of tokens where none is read yet. All its bytes are 0, so that one call of memset sets up an array.
const NO_TOKEN: Token = Token::Fixed(Word::And);

// What reading gives: the number of a rule's parts and that of the entries of its card, or why there is no rule. An enum of its own, and no Result: the calls
// go on by `let Parsed::Rule(..) = .. else`, which is a rule of the project.
#[derive(Clone, Copy)]
pub enum Parsed {
    Rule(usize, usize),
    Refused(Reason),
}

// Why there is no rule, for the calls that pass a refusal up; it is asked of refusals alone, so what a rule gives here does not matter.
pub fn refusal(parsed: Parsed) -> Reason
    ensures { result ≡ refusal_in parsed }
{
    match parsed {
        Parsed::Rule(_, _) => Reason::Short,
        Parsed::Refused(x) => x,
    }
}

// The rule of some tokens to which refusal 5 does not apply: refusals 6 to 8, and 13. The grammar is judged to the end before the limits, these before the
// names, and the names before the number of entries.
#[tactic(auto, using(crate::proofs::Groups::tokens_rules))]
fn parse_tokens(s: &[Token], file: &[u8], parts: &mut [RulePart; MOST_PARTS]) -> Parsed
    requires fact_1 { length s.now ≤ most_tokens }
    requires fact_2 { opens_fit (pos 0) s.now ≡ true }
    requires fact_3 { Sized file.now }
    ensures { TokensParsedTo s.now file.now parts.new result }
{
    let mut notes = [NO_NOTE; MOST_PARTS];
    let Some(step) = grammar::read_tokens(s, &mut notes) else {
        return Parsed::Refused(Reason::Grammar);
    };
    if step.count > MOST_PARTS || step.deep > MOST_FROMS {
        return Parsed::Refused(Reason::Limits);
    }
    if !names::name_parts(file, &notes, step.count, parts) {
        return Parsed::Refused(Reason::Names);
    }
    let entries = parts::count_entries(parts, 0, step.count);
    if entries > MOST_ENTRIES {
        return Parsed::Refused(Reason::Entries);
    }
    Parsed::Rule(step.count, entries)
}

// The rule of a text that is not too long, with tables that are not refused: refusals 4 to 8, and 13. There is room for its tokens.
#[tactic(auto, using(crate::proofs::Groups::text_rules))]
fn parse_text(
    text: &[u8],
    file: &[u8],
    tokens: &mut [Token],
    parts: &mut [RulePart; MOST_PARTS],
) -> Parsed
    requires fact_1 { TextReady text.now file.now }
    requires fact_2 { length text.now ≤ length tokens.old }
    ensures answer { parsed_answer result ≡ parse_call text.now file.now }
    ensures parsed { ParsedTo text.now file.now parts.new result }
{
    let Some(tokenized) = lexer::tokenize(text, tokens) else {
        return Parsed::Refused(Reason::Token);
    };
    if !tokenized.fit {
        return Parsed::Refused(Reason::Brackets);
    }
    parse_tokens(&tokens[..tokenized.count], file, parts)
}

// The same, with an array of N tokens, which are enough for the text.
fn parse_sized<const N: usize>(
    text: &[u8],
    file: &[u8],
    parts: &mut [RulePart; MOST_PARTS],
) -> Parsed
    requires fact_1 { Given tt ≡ tables_call file.now }
    requires fact_2 { length text.now ≤ N }
    requires fact_3 { N ≤ most_bytes }
    ensures answer { parsed_answer result ≡ parse_call text.now file.now }
    ensures parsed { ParsedTo text.now file.now parts.new result }
{
    let mut tokens = [NO_TOKEN; N];
    parse_text(text, file, &mut tokens, parts)
}

// The rule of a text, for every call that reads one: its parts, from the start of parts on.
#[tactic(auto, using(crate::proofs::Groups::parse_rules))]
pub fn parse(text: &[u8], file: &[u8], parts: &mut [RulePart; MOST_PARTS]) -> Parsed
    ensures answer { parsed_answer result ≡ parse_call text.now file.now }
    ensures parsed { ParsedTo text.now file.now parts.new result }
{
    if let Err(reason) = cells::check_tables(file) {
        return Parsed::Refused(reason);
    }
    match text.len() {
        ..=SHORTEST_TEXT => parse_sized::<SHORTEST_TEXT>(text, file, parts),
        ..=SHORT_TEXT => parse_sized::<SHORT_TEXT>(text, file, parts),
        ..=MIDDLE_TEXT => parse_sized::<MIDDLE_TEXT>(text, file, parts),
        ..=MOST_BYTES => parse_sized::<MOST_BYTES>(text, file, parts),
        _ => Parsed::Refused(Reason::TextLength),
    }
}
