// The items of a printed state: ` name=value`. One whose value is 0, or a text of zeros, is left out, so that a state that gets a field
// is printed as before where that field is 0.
use crate::text;
use crate::text::Digits;
use base_area::Area;
use base_side::Cursor;
use std::fmt;

// A number, a word of memory or of a register, or some bytes.
#[derive(Clone, Copy)]
enum Value<'a> {
    Number(u32),
    Word(u16),
    Bytes(&'a [u8]),
}

// An item of a half itself, or of one of its sides: `name` or `side.name`.
#[derive(Clone, Copy)]
pub(crate) struct Item<'a> {
    side: Option<&'static str>,
    name: &'static str,
    value: Value<'a>,
}

impl<'a> Item<'a> {
    fn new(name: &'static str, value: Value<'a>) -> Item<'a> {
        Item {
            side: None,
            name,
            value,
        }
    }

    fn of(self, side: &'static str) -> Item<'a> {
        Item {
            side: Some(side),
            ..self
        }
    }
}

pub(crate) fn number(name: &'static str, n: impl Into<u32> + Drop) -> Item<'static> {
    Item::new(name, Value::Number(n.into()))
}

pub(crate) fn word(name: &'static str, w: u16) -> Item<'static> {
    Item::new(name, Value::Word(w))
}

impl fmt::Display for Item<'_> {
    fn fmt<W: fmt::Write>(&self, f: &mut fmt::Formatter<W>) -> fmt::Result {
        if let Value::Number(0) | Value::Word(0) | Value::Bytes([]) = self.value {
            return Ok(());
        }
        write!(f, " ")?;
        if let Some(side) = self.side {
            write!(f, "{side}.")?;
        }
        let name = self.name;
        match self.value {
            Value::Number(n) => write!(f, "{name}={n}"),
            Value::Word(w) => write!(f, "{name}={w:04x}"),
            Value::Bytes(bytes) => write!(f, "{name}={}", Digits(bytes)),
        }
    }
}

// The words that the host writes in Steps 1 to 3.
#[derive(Clone, Copy)]
pub(crate) struct Words(pub Area);

impl fmt::Display for Words {
    fn fmt<W: fmt::Write>(&self, f: &mut fmt::Formatter<W>) -> fmt::Result {
        let Area {
            first,
            second,
            third,
        } = self.0;
        let first = word("first", first);
        let second = word("second", second);
        let third = word("third", third);
        write!(f, "{first}{second}{third}")
    }
}

// A side at work: its name, what its next step touches, where its operation stands, what goes with the text, and the text.
#[derive(Clone, Copy)]
pub(crate) struct AtWork<'a> {
    pub side: &'static str,
    pub stage: &'static str,
    pub cursor: Cursor,
    pub beside: Option<Item<'static>>,
    pub text: &'a [u8],
}

impl fmt::Display for AtWork<'_> {
    fn fmt<W: fmt::Write>(&self, f: &mut fmt::Formatter<W>) -> fmt::Result {
        let AtWork {
            side,
            stage,
            cursor,
            beside,
            text,
        } = *self;
        write!(f, " {side}={stage}")?;
        let place = [
            number("slot", cursor.slot),
            word("high", cursor.high),
            number("envelope", cursor.envelope),
            number("size", cursor.size),
            number("at", cursor.at),
        ];
        for item in place {
            write!(f, "{}", item.of(side))?;
        }
        if let Some(item) = beside {
            write!(f, "{}", item.of(side))?;
        }
        let read = Item::new("text", Value::Bytes(text::before_zeros(text)));
        write!(f, "{}", read.of(side))
    }
}
