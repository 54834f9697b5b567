// The words of a line.
ghost use Rattle.std.specs.Prelude.{◌≤◌, IfOk};

use crate::reason::Reason;
use crate::value;
use crate::value::Text;

// The words that are not read yet, with single spaces between them; none after the last.
#[derive(Drop)]
pub(crate) struct Words<'a> {
    rest: Option<&'a [u8]>,
}

impl<'a> Words<'a> {
    pub(crate) fn new(line: &'a [u8]) -> Words<'a> {
        Words { rest: Some(line) }
    }

    // The next word is a bit.
    pub(crate) fn bit(&mut self) -> Result<bool, Reason> {
        Ok(self.number(1)? == 1)
    }

    // The next word is a byte.
    pub(crate) fn byte(&mut self) -> Result<u8, Reason> {
        Ok(self.number(u32::from(u8::MAX))? as u8)
    }

    // The next word is a word of 16 bits.
    pub(crate) fn word(&mut self) -> Result<u16, Reason> {
        Ok(self.number(u32::from(u16::MAX))? as u16)
    }

    // The next word is how often a step is made: once, if there is none.
    pub(crate) fn times(&mut self, most: u32) -> Result<u32, Reason>
        requires { 1 ≤ most }
        ensures { IfOk result (λ n. n ≤ most) }
    {
        match self.next() {
            Some(word) => value::number_in(word, most),
            None => Ok(1),
        }
    }

    // The next word is a number.
    pub(crate) fn number(&mut self, most: u32) -> Result<u32, Reason>
        ensures { IfOk result (λ n. n ≤ most) }
    {
        let word = self.next().ok_or(Reason::NumberMissing)?;
        value::number_in(word, most)
    }

    // The next word is a text.
    pub(crate) fn text(&mut self) -> Result<Text, Reason> {
        let word = self.next().ok_or(Reason::TextMissing)?;
        value::text_in(word)
    }

    // No word follows.
    pub(crate) fn end(&mut self) -> Result<(), Reason> {
        match self.next() {
            Some(_) => Err(Reason::SomethingFollows),
            None => Ok(()),
        }
    }
}

impl<'a> Iterator for Words<'a> {
    type Item = &'a [u8];

    fn next(&mut self) -> Option<&'a [u8]> {
        let mut parts = self.rest?.splitn(2, |b| *b == b' ');
        let word = parts.next();
        self.rest = parts.next();
        word
    }
}
