// Why a line is no call. A line is read from left to right, and the first reason counts.
use std::error::Error;
use std::fmt;

#[derive(Clone, Copy, PartialEq, Eq, Debug)]
pub enum Reason {
    NoSuchWord,
    NumberMissing,
    NotANumber,
    NumberTooLarge,
    TextMissing,
    NotAText,
    TextTooLong,
    SomethingFollows,
}

impl fmt::Display for Reason {
    ghost use Rattle.std.specs.Prelude.{Some};
    ghost use Rattle.program_script.specs.Reason.{words_of};

    ghost output = { λ reason. Some (words_of reason) };

    fn fmt<W: fmt::Write>(&self, f: &mut fmt::Formatter<W>) -> fmt::Result {
        f.write_str(match self {
            Reason::NoSuchWord => "no such word",
            Reason::NumberMissing => "a number is missing",
            Reason::NotANumber => "not a number",
            Reason::NumberTooLarge => "the number is too large",
            Reason::TextMissing => "a text is missing",
            Reason::NotAText => "not a text",
            Reason::TextTooLong => "the text is longer than 64 bytes",
            Reason::SomethingFollows => "something follows",
        })
    }
}

impl Error for Reason {}
