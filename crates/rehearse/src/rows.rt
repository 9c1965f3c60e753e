// The coefficients of a polynomial F(x, y) as they are written: for each power of x a row of coefficients in y.
ghost use Rattle.std.specs.Prelude.{◌≤◌, IfOk, length};

use crate::expected::Expected;
use crate::failure::Failure;
use crate::words;
use crate::words::Words;
use field::Element;
use polynomial::{Bivariate, Shape};
use std::alloc::{AllocError, Global};

// The numbers of six rows of six: no shape has room for more.
const ROOM: usize = 36;

// One or more rows of one length, each with a number: how many rows there are, how long they are, and their numbers, row by row. Numbers past ROOM are not kept, so a long line takes no memory beside its own.
#[derive(Drop)]
pub struct Rows {
    high: usize,
    low: usize,
    numbers: Vec<Element>,
    ghost room: { length numbers.items ≤ 36 },
}

impl Rows {
    // Reads rows, with a slash between them.
    pub fn read(heap: Global, words: Words<'_>) -> Result<Rows, Failure> {
        let mut rows = Rows {
            high: 0,
            low: 0,
            numbers: Vec::new(heap),
        };
        let mut len = 0usize;
        for word in words {
            if word == "/" {
                rows.end_row(len)?;
                len = 0;
            } else {
                rows.add(coefficient(word)?)?;
                len = len.saturating_add(1);
            }
        }
        rows.end_row(len)?;
        Ok(rows)
    }

    // Adds a number, while a shape may have room for it.
    fn add(&mut self, number: Element) -> Result<(), AllocError> {
        if self.numbers.len() < ROOM {
            self.numbers.push(number)?;
        }
        Ok(())
    }

    // Ends a row, which should have a number, and as many as the others.
    fn end_row(&mut self, len: usize) -> Result<(), Expected> {
        if len == 0 {
            return Err(Expected::Coefficient);
        }
        if self.high == 0 {
            self.low = len;
        }
        if len != self.low {
            return Err(Expected::EvenRows);
        }
        self.high = self.high.saturating_add(1);
        Ok(())
    }

    // The polynomial of at most so many rows of at most so many numbers each.
    pub fn polynomial(&self, most: usize) -> Result<Bivariate, Expected>
        requires { most ≤ 3 }
        ensures { IfOk result (λ f. (f.shape.high ≤ most) × (1 ≤ f.shape.low) × (f.shape.low ≤ most)) }
    {
        if self.high > most {
            return Err(Expected::FewRows);
        }
        if self.low > most {
            return Err(Expected::ShortRows);
        }
        if self.low == 0 {
            return Err(Expected::Coefficient);
        }
        let shape = Shape::new(self.high, self.low).unwrap();
        Bivariate::from_slice(shape, self.numbers.as_slice()).ok_or(Expected::EvenRows)
    }
}

// A number of the field.
fn coefficient(word: &str) -> Result<Element, Expected> {
    let number: u64 = words::number(word).map_err(|expected| match expected {
        Expected::Fitting => Expected::Small,
        expected => expected,
    })?;
    Element::try_from(number).map_err(|_| Expected::Small)
}
