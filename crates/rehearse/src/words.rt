// The words of a line.
ghost use Rattle.std.specs.Prelude.{◌<◌, length};
ghost use Rattle.std.specs.Iterator.{at_most};

use crate::expected::Expected;
use std::str::FromStr;

#[derive(Clone, Copy)]
pub struct Words<'a> {
    rest: &'a str,
}

impl<'a> Iterator for Words<'a> {
    type Item = &'a str;

    ghost remaining = { λ w. at_most (length w.rest.now) };

    fn next(&mut self) -> Option<&'a str> {
        let text = self.rest.trim_start_matches([' ', '\t']);
        let (word, rest) = text.split_once([' ', '\t']).unwrap_or((text, ""));
        if word.is_empty() {
            return None;
        }
        self.rest = rest;
        Some(word)
    }
}

impl<'a> Words<'a> {
    // The words that stand before a comment.
    pub fn new(line: &'a str) -> Words<'a> {
        let (rest, _) = line.split_once('#').unwrap_or((line, ""));
        Words { rest }
    }

    // There should be no other word.
    pub fn end(mut self) -> Result<(), Expected> {
        if self.next().is_some() {
            return Err(Expected::NoMore);
        }
        Ok(())
    }

    // The next word, which should be a keeper.
    pub fn keeper(&mut self) -> Result<u8, Expected> {
        keeper(self.next().ok_or(Expected::Named)?)
    }

    // The next word, which should be a number of a message.
    pub fn number<T: FromStr>(&mut self) -> Result<T, Expected>
    where
        T::Err: Drop,
    {
        number(self.next().ok_or(Expected::Number)?)
    }

    // Goes past the next word, if it is this one.
    pub fn pass(&mut self, word: &str) -> bool {
        let mut ahead = *self;
        let found = ahead.next() == Some(word);
        if found {
            *self = ahead;
        }
        found
    }
}

// A word of digits.
fn digits(word: &str) -> Result<&str, Expected> {
    if !word.bytes().all(|byte| byte.is_ascii_digit()) {
        return Err(Expected::Digits);
    }
    Ok(word)
}

// The number that a word writes, if it fits its type.
pub fn number<T: FromStr>(word: &str) -> Result<T, Expected>
where
    T::Err: Drop,
{
    digits(word)?.parse().map_err(|_| Expected::Fitting)
}

// The number that a word writes, or the largest where that is too large: no company has such a keeper, and who names it is told which there are.
pub fn keeper(word: &str) -> Result<u8, Expected> {
    Ok(digits(word)?.parse().unwrap_or(u8::MAX))
}
