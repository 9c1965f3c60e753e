// What a line of a script says.
ghost use Rattle.std.specs.Prelude.{◌≡◌, ◌≤◌, All, OnOk, if◌then◌else◌, min, nat_eq};
ghost use Rattle.std.specs.List.{list_any, push};

use crate::company::Company;
use crate::draft::Draft;
use crate::expected::Expected;
use crate::failure::Failure;
use crate::rows::Rows;
use crate::words;
use crate::words::Words;
use std::alloc::{AllocError, Global};

// Whether there are such keepers is for the stage to say.
#[derive(Drop)]
pub enum Command {
    F(Company),
    Step(Step),
}

// The keepers that a line names, each once; the first past all keepers stands for those behind it.
#[derive(Drop)]
pub struct Named {
    pub keepers: Vec<u8>,
    ghost few: { All (λ keeper. keeper ≤ 7) keepers.items },
}

impl Named {
    fn insert(&mut self, keeper: u8) -> Result<(), AllocError>
        ensures { OnOk result (self.new.keepers.items ≡ (if list_any (λ named. nat_eq named (min keeper 7)) self.old.keepers.items then self.old.keepers.items else push self.old.keepers.items (min keeper 7))) }
    {
        let keeper = keeper.min(Company::MOST);
        if !self.keepers.contains(&keeper) {
            self.keepers.push(keeper)?;
        }
        Ok(())
    }
}

// What needs keepers. `from` and `to` are no struct: each is tested alone.
#[derive(Drop)]
pub enum Step {
    Liar(Named),
    Deal { dealer: u8, rows: Rows },
    Round,
    Say { from: u8, to: u8 },
    Post { from: u8 },
    Send { from: u8, to: u8, draft: Draft },
    Board { from: u8, draft: Draft },
    Show,
}

// Reads a line. A line of blanks and comment says nothing.
pub fn parse(heap: Global, line: &str) -> Result<Option<Command>, Failure> {
    let mut words = Words::new(line);
    let command = match words.next() {
        None => return Ok(None),
        Some("f") => Command::F(f(words)?),
        Some(first) => Command::Step(parse_step(heap, first, words)?),
    };
    Ok(Some(command))
}

// `f N`
fn f(mut words: Words<'_>) -> Result<Company, Expected> {
    let word = words.next().ok_or(Expected::F)?;
    let company = Company::new(words::keeper(word)?).ok_or(Expected::F)?;
    words.end()?;
    Ok(company)
}

// The other lines.
fn parse_step(heap: Global, first: &str, words: Words<'_>) -> Result<Step, Failure> {
    match first {
        "liar" => liar(heap, words),
        "deal" => deal(heap, words),
        "round" => alone(words, Step::Round),
        "say" => say(words),
        "post" => post(words),
        "send" => send(heap, words),
        "board" => board(heap, words),
        "show" => alone(words, Step::Show),
        _ => Err(Expected::Command.into()),
    }
}

// A line of one word.
fn alone(words: Words<'_>, step: Step) -> Result<Step, Failure> {
    words.end()?;
    Ok(step)
}

// `liar I ..`
fn liar(heap: Global, words: Words<'_>) -> Result<Step, Failure> {
    let mut named = Named {
        keepers: Vec::new(heap),
    };
    for word in words {
        named.insert(words::keeper(word)?)?;
    }
    if named.keepers.is_empty() {
        return Err(Expected::Named.into());
    }
    Ok(Step::Liar(named))
}

// `deal D: ROWS`
fn deal(heap: Global, mut words: Words<'_>) -> Result<Step, Failure> {
    let dealer = dealer(&mut words)?;
    let rows = Rows::read(heap, words)?;
    Ok(Step::Deal { dealer, rows })
}

// A keeper with a colon behind it, or as the next word.
fn dealer(words: &mut Words<'_>) -> Result<u8, Expected> {
    let word = words.next().ok_or(Expected::Named)?;
    match word.strip_suffix(':') {
        Some("") => Err(Expected::Dealer),
        Some(number) => words::keeper(number),
        None => {
            let dealer = words::keeper(word)?;
            if !words.pass(":") {
                return Err(Expected::Colon);
            }
            Ok(dealer)
        }
    }
}

// `say I J`
fn say(mut words: Words<'_>) -> Result<Step, Failure> {
    let from = words.keeper()?;
    let to = words.keeper()?;
    words.end()?;
    Ok(Step::Say { from, to })
}

// `post I`
fn post(mut words: Words<'_>) -> Result<Step, Failure> {
    let from = words.keeper()?;
    words.end()?;
    Ok(Step::Post { from })
}

// `send I J MESSAGE`
fn send(heap: Global, mut words: Words<'_>) -> Result<Step, Failure> {
    let from = words.keeper()?;
    let to = words.keeper()?;
    let draft = Draft::read(heap, words)?;
    Ok(Step::Send { from, to, draft })
}

// `board I MESSAGE`
fn board(heap: Global, mut words: Words<'_>) -> Result<Step, Failure> {
    let from = words.keeper()?;
    let draft = Draft::read(heap, words)?;
    Ok(Step::Board { from, draft })
}
