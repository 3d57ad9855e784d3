//! The pieces of a text, read byte by byte.
//!
//! A piece is a byte, `??`, a gap, a bracket, or a sign of a list. `feed` takes one byte: it is
//! refused, is inside a piece, or ends one. Each state of a reading can be completed to a text, so
//! the first refused byte is the place of a `Syntax` refusal.
//!
//! A hex digit is read by the library `hex`, by itself and with a 0 before it, so that a refusal
//! has the place of that digit.

ghost use Rattle.std.specs.Prelude.{◌≡◌, ◌≤◌, ◌+◌, ◌*◌, ◌%◌, IfSome, length};
ghost use Rattle.hex.specs.Hex.{hex_digit_value};
ghost use Rattle.sig_expr.specs.Reading.{pair_of, decimal_of, part_of, item_start_of, list_start_of, begin_of, number_of, star_of, closed_gap_of, closed_bracket_of, end_of, go_on_of, feed_of, context_of, next_of, is_between, is_end_of, pair_in_front};

use crate::end::End;

/// Where a reading stands between the pieces of a text.
#[derive(Clone, Copy, Debug, PartialEq, Eq)]
pub(crate) enum Context {
    /// Nothing is read.
    Start,
    /// Items are read.
    After,
    /// In a list. `many`: a bar is read. `some`: the alternative has a part.
    List { many: bool, some: bool },
}

/// What is read of a piece.
#[derive(Clone, Copy, Debug, PartialEq, Eq)]
pub(crate) enum Token {
    /// No byte of one.
    Between,
    /// The first digit of a pair.
    Half(u8),
    /// The first of two question marks.
    Question,
    /// A gap up to where a number begins. Behind a dash, the least length is known.
    NumberStart {
        least: Option<u32>,
    },
    /// A gap up to a digit of a number.
    Number {
        least: Option<u32>,
        number: u32,
    },
    /// `{`, the least length and `-*`.
    Star {
        min: u32,
    },
    /// `[`.
    Bracket,
    /// A bracket up to where an end begins: whether it excludes, and the first end behind a colon.
    EndStart {
        excludes: bool,
        first: Option<End>,
    },
    /// A bracket up to the first digit of a pair of an end.
    EndHalf {
        excludes: bool,
        first: Option<End>,
        end: End,
        high: u8,
    },
    /// A bracket up to a pair of an end.
    EndPair {
        excludes: bool,
        first: Option<End>,
        end: End,
    },
}

/// A part of a text that stands for something.
#[derive(Clone, Copy, Debug, PartialEq, Eq)]
pub(crate) enum Piece {
    Byte(u8),
    Any,
    Gap { min: u32, max: Option<u32> },
    Range(End, End),
    Not(End),
    NotRange(End, End),
    Open,
    Bar,
    Close,
}

/// Where a reading stands in a text.
#[derive(Clone, Copy, Debug, PartialEq, Eq)]
pub(crate) struct State {
    pub(crate) context: Context,
    pub(crate) token: Token,
}

/// What a byte does to a reading.
#[derive(Clone, Copy, Debug, PartialEq, Eq)]
pub(crate) enum Step {
    /// No text goes on so.
    Refused,
    /// The byte is inside a piece.
    More(Token),
    /// The byte ends a piece.
    Whole(Piece),
}

// The value of a hex digit in either case: that of the pair with a 0 before it.
fn digit(byte: u8) -> Option<u8>
    ensures { result ≡ hex_digit_value byte }
{
    let mut value = [0];
    match hex::decode_to_slice([b'0', byte].as_slice(), &mut value) {
        Ok(()) => Some(value[0]),
        Err(_) => None,
    }
}

fn decimal(byte: u8) -> Option<u32>
    ensures { result ≡ decimal_of byte }
{
    match byte {
        b'0'..=b'9' => Some(u32::from(byte - b'0')),
        _ => None,
    }
}

// The byte of two digits.
fn pair(high: u8, low: u8) -> u8
    ensures { result ≡ pair_of high low }
{
    high % 16 * 16 + low % 16
}

/// The byte of the two digits in front, where both are there.
///
/// Most of a usual text is such pairs. Between two pieces, one that is read whole costs a fraction
/// of two bytes that are fed: the state of a reading has room for both ends of a bracket, and is
/// slow to copy.
pub(crate) fn pair_in_front(rest: &[u8]) -> Option<u8>
    ensures byte { result ≡ pair_in_front rest.now }
    ensures within { IfSome result (λ _. 2 ≤ length rest.now) }
{
    let (high, later) = rest.split_first()?;
    let (low, _) = later.split_first()?;
    Some(pair(digit(*high)?, digit(*low)?))
}

// The first byte of a byte or a bracket.
#[tactic(auto, unfolding(crate::specs::Reading::part_of))]
fn begin_part(byte: u8) -> Step
    ensures { result ≡ part_of byte }
{
    match digit(byte) {
        Some(high) => Step::More(Token::Half(high)),
        None if byte == b'[' => Step::More(Token::Bracket),
        None => Step::Refused,
    }
}

// The first byte of a piece outside lists.
#[tactic(auto, unfolding(crate::specs::Reading::item_start_of))]
fn begin_item(byte: u8) -> Step
    ensures { result ≡ item_start_of byte }
{
    match byte {
        b'?' => Step::More(Token::Question),
        b'*' => Step::Whole(Piece::Gap { min: 0, max: None }),
        b'{' => Step::More(Token::NumberStart { least: None }),
        b'(' => Step::Whole(Piece::Open),
        _ => begin_part(byte),
    }
}

// The first byte of a piece in a list.
#[tactic(auto, unfolding(crate::specs::Reading::list_start_of))]
fn begin_in_list(many: bool, some: bool, byte: u8) -> Step
    ensures { result ≡ list_start_of many some byte }
{
    match byte {
        b'|' if some => Step::Whole(Piece::Bar),
        b')' if some && many => Step::Whole(Piece::Close),
        _ => begin_part(byte),
    }
}

// The first byte of a piece.
#[tactic(auto, unfolding(crate::specs::Reading::begin_of))]
fn begin(context: Context, byte: u8) -> Step
    ensures { result ≡ begin_of context byte }
{
    match context {
        Context::Start | Context::After => begin_item(byte),
        Context::List { many, some } => begin_in_list(many, some, byte),
    }
}

// A number begins, or the star behind a dash.
#[tactic(auto, unfolding(crate::specs::Reading::number_of))]
fn begin_number(least: Option<u32>, byte: u8) -> Step
    ensures { result ≡ number_of least byte }
{
    match (decimal(byte), least) {
        (Some(number), _) => Step::More(Token::Number { least, number }),
        (None, Some(min)) if byte == b'*' => Step::More(Token::Star { min }),
        (None, _) => Step::Refused,
    }
}

// Behind a digit of a number.
#[tactic(auto, unfolding(crate::specs::Reading::star_of))]
fn go_on_number(least: Option<u32>, number: u32, byte: u8) -> Step
    ensures { result ≡ star_of least number byte }
{
    match decimal(byte) {
        Some(value) if 0 < number && number < 10_000 => {
            Step::More(Token::Number {
                least,
                number: number * 10 + value,
            })
        }
        Some(_) => Step::Refused,
        None => close_gap(least, number, byte),
    }
}

// Behind a number: the dash, or the end of the gap.
#[tactic(auto, unfolding(crate::specs::Reading::closed_gap_of))]
fn close_gap(least: Option<u32>, number: u32, byte: u8) -> Step
    ensures { result ≡ closed_gap_of least number byte }
{
    match least {
        Some(min) if byte == b'}' => Step::Whole(Piece::Gap {
            min,
            max: Some(number),
        }),
        None if byte == b'}' => Step::Whole(Piece::Gap {
            min: number,
            max: Some(number),
        }),
        None if byte == b'-' => Step::More(Token::NumberStart {
            least: Some(number),
        }),
        _ => Step::Refused,
    }
}

// An end of a bracket begins.
#[tactic(auto, unfolding(crate::specs::Reading::end_of))]
fn begin_end(excludes: bool, first: Option<End>, end: End, byte: u8) -> Step
    ensures { result ≡ end_of excludes first end byte }
{
    match digit(byte) {
        Some(high) => Step::More(Token::EndHalf {
            excludes,
            first,
            end,
            high,
        }),
        None => Step::Refused,
    }
}

// Behind an end: the colon, or the end of the bracket.
#[tactic(auto, unfolding(crate::specs::Reading::closed_bracket_of))]
fn close_bracket(excludes: bool, first: Option<End>, end: End, byte: u8) -> Step
    ensures { result ≡ closed_bracket_of excludes first end byte }
{
    match first {
        Some(first) if byte == b']' && excludes => Step::Whole(Piece::NotRange(first, end)),
        Some(first) if byte == b']' => Step::Whole(Piece::Range(first, end)),
        None if byte == b']' && excludes => Step::Whole(Piece::Not(end)),
        None if byte == b':' => Step::More(Token::EndStart {
            excludes,
            first: Some(end),
        }),
        _ => begin_end(excludes, first, end, byte),
    }
}

// The next byte of a piece.
#[tactic(auto, unfolding(crate::specs::Reading::go_on_of))]
fn go_on(token: Token, byte: u8) -> Step
    ensures { result ≡ go_on_of token byte }
{
    match token {
        Token::Between => Step::Refused,
        Token::Half(high) => match digit(byte) {
            Some(low) => Step::Whole(Piece::Byte(pair(high, low))),
            None => Step::Refused,
        },
        Token::Question if byte == b'?' => Step::Whole(Piece::Any),
        Token::Question => Step::Refused,
        Token::NumberStart { least } => begin_number(least, byte),
        Token::Number { least, number } => go_on_number(least, number, byte),
        Token::Star { min } if byte == b'}' => Step::Whole(Piece::Gap { min, max: None }),
        Token::Star { min: _ } => Step::Refused,
        Token::Bracket if byte == b'!' => Step::More(Token::EndStart {
            excludes: true,
            first: None,
        }),
        Token::Bracket => begin_end(false, None, End::empty(), byte),
        Token::EndStart { excludes, first } => begin_end(excludes, first, End::empty(), byte),
        Token::EndHalf {
            excludes,
            first,
            end,
            high,
        } => match digit(byte) {
            Some(low) => Step::More(Token::EndPair {
                excludes,
                first,
                end: end.push(pair(high, low)),
            }),
            None => Step::Refused,
        },
        Token::EndPair {
            excludes,
            first,
            end,
        } => close_bracket(excludes, first, end, byte),
    }
}

impl State {
    /// Nothing is read.
    pub(crate) const START: State = State {
        context: Context::Start,
        token: Token::Between,
    };

    /// What the next byte does.
    #[tactic(auto, unfolding(crate::specs::Reading::feed_of))]
    pub(crate) fn feed(self, byte: u8) -> Step
        ensures { result ≡ feed_of self byte }
    {
        match self.token {
            Token::Between => begin(self.context, byte),
            _ => go_on(self.token, byte),
        }
    }

    /// Where the reading stands behind the byte.
    pub(crate) fn next(self, step: Step) -> State
        ensures { result ≡ next_of self step }
    {
        match step {
            Step::Refused => self,
            Step::More(token) => State {
                context: self.context,
                token,
            },
            Step::Whole(piece) => State {
                context: behind(self.context, piece),
                token: Token::Between,
            },
        }
    }

    /// Whether a piece may begin there.
    pub(crate) fn is_between(self) -> bool
        ensures { result ≡ is_between self.token }
    {
        matches!(self.token, Token::Between)
    }

    /// Whether a text may end there.
    pub(crate) fn is_end(self) -> bool
        ensures { result ≡ is_end_of self }
    {
        matches!(self.context, Context::After) && self.is_between()
    }
}

// Where a reading stands behind a piece.
fn behind(context: Context, piece: Piece) -> Context
    ensures { result ≡ context_of context piece }
{
    match (piece, context) {
        (Piece::Open, _) => Context::List {
            many: false,
            some: false,
        },
        (Piece::Bar, _) => Context::List {
            many: true,
            some: false,
        },
        (Piece::Close, _) => Context::After,
        (_, Context::List { many, some: _ }) => Context::List { many, some: true },
        (_, _) => Context::After,
    }
}
