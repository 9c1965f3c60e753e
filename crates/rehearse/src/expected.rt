// What a line should hold, where it holds something else.
use field::P;
use std::fmt;

#[derive(Clone, Copy)]
pub enum Expected {
    // Of the line and its words.
    Utf8,
    Command,
    NoMore,
    // Of a number.
    Digits,
    Small,
    Fitting,
    // Of `f`, and of the keepers that a line names.
    F,
    Named,
    // Of the rows of a dealing.
    Colon,
    Dealer,
    Coefficient,
    EvenRows,
    // Of a message.
    Message,
    Number,
    Slash,
    FewNumbers,
    YesOrNo,
    Hex,
    // Of what stands on the stage.
    FGiven,
    Keeper { last: u8 },
    FewRows,
    ShortRows,
    NoDealing,
    Dealing,
    Liar,
    Undecided,
}

impl fmt::Display for Expected {
    fn fmt<W: fmt::Write>(&self, f: &mut fmt::Formatter<W>) -> fmt::Result {
        match self {
            Expected::Utf8 => f.write_str("text in UTF-8"),
            Expected::Command => f.write_str(
                "f, liar, deal, round, say, post, send, board or show",
            ),
            Expected::NoMore => f.write_str("no more words"),
            Expected::Digits => f.write_str("a number in digits"),
            Expected::Small => write!(f, "a number below {P}"),
            Expected::Fitting => f.write_str("a number that fits"),
            Expected::F => f.write_str("0, 1 or 2 after f"),
            Expected::Named => f.write_str("a keeper"),
            Expected::Colon => f.write_str("a colon after the keeper"),
            Expected::Dealer => f.write_str("the number of a keeper after deal"),
            Expected::Coefficient => f.write_str("a number in each row"),
            Expected::EvenRows => f.write_str("as many numbers in each row"),
            Expected::Message => f.write_str("a message"),
            Expected::Number => f.write_str("a number"),
            Expected::Slash => f.write_str("a slash between across and down"),
            Expected::FewNumbers => f.write_str("at most 12 numbers"),
            Expected::YesOrNo => f.write_str("yes or no"),
            Expected::Hex => f.write_str("an even number of hexadecimal digits"),
            Expected::FGiven => f.write_str("f before this"),
            Expected::Keeper { last } => write!(f, "a keeper from 0 to {last}"),
            Expected::FewRows => f.write_str("at most f + 1 rows"),
            Expected::ShortRows => f.write_str("at most f + 1 numbers in a row"),
            Expected::NoDealing => f.write_str("liars before the dealing"),
            Expected::Dealing => f.write_str("a dealing before this"),
            Expected::Liar => f.write_str("a liar"),
            Expected::Undecided => f.write_str("a dealing that isn't decided"),
        }
    }
}
