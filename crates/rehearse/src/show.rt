// What is shown.
use crate::liars::Liars;
use crate::play::Play;
use crate::scene::Scene;
use crate::stage::Stage;
use dealing::{Board, Refusal, Round, Seat};
use polynomial::Share;
use std::fmt;

// A share and the value that it gives.
fn show_value<W: fmt::Write>(f: &mut fmt::Formatter<W>, keeper: u8, share: &Share) -> fmt::Result {
    writeln!(f, "keeper {keeper}: {share}, value {}", share.value())
}

// What a keeper keeps in the end.
fn show_kept<W: fmt::Write>(f: &mut fmt::Formatter<W>, seat: &Seat) -> fmt::Result {
    let keeper = seat.terms.me;
    match seat.kept {
        Some(kept) => writeln!(f, "keeper {keeper}: keeps {kept}"),
        None => writeln!(f, "keeper {keeper}: keeps nothing"),
    }
}

fn show_complaints<W: fmt::Write>(f: &mut fmt::Formatter<W>, board: &Board) -> fmt::Result {
    for (by, complaints) in board.complaints.iter().enumerate() {
        for (about, complaint) in complaints.iter().enumerate() {
            if let Some(pair) = complaint {
                writeln!(f, "complaint {by} about {about}: {pair}")?;
            }
        }
    }
    Ok(())
}

fn show_reveals<W: fmt::Write>(f: &mut fmt::Formatter<W>, board: &Board) -> fmt::Result {
    for (k, reveal) in board.reveals.iter().enumerate() {
        if let Some(share) = reveal {
            writeln!(f, "reveal {k}: {share}")?;
        }
    }
    Ok(())
}

// Who said whether it is fine.
fn show_fines<W: fmt::Write>(f: &mut fmt::Formatter<W>, board: &Board) -> fmt::Result {
    for (i, fine) in board.fines.iter().enumerate() {
        if let Some(fine) = fine {
            let word = if *fine { "yes" } else { "no" };
            writeln!(f, "fine {i}: {word}")?;
        }
    }
    Ok(())
}

// How many are fine, and whether that is enough.
fn show_judgement<W: fmt::Write>(f: &mut fmt::Formatter<W>, seat: &Seat) -> fmt::Result {
    let fines = seat
        .board
        .fines
        .iter()
        .filter(|fine| **fine == Some(true))
        .count();
    let keepers = seat.terms.keepers();
    let accepted = if seat.accepted() {
        "accepted"
    } else {
        "not accepted"
    };
    writeln!(f, "{fines} of {keepers} are fine: {accepted}")
}

// What stands on the board.
fn show_board<W: fmt::Write>(f: &mut fmt::Formatter<W>, seat: &Seat) -> fmt::Result {
    show_complaints(f, &seat.board)?;
    show_reveals(f, &seat.board)?;
    show_fines(f, &seat.board)?;
    match seat.round {
        Round::Judge | Round::Decided => show_judgement(f, seat),
        _ => Ok(()),
    }
}

impl Play {
    // What a keeper that keeps the rules has.
    fn show_keeper<W: fmt::Write>(&self, f: &mut fmt::Formatter<W>, seat: &Seat) -> fmt::Result {
        let keeper = seat.terms.me;
        match seat.round {
            Round::Before => show_value(f, keeper, &self.polynomial.share(keeper)),
            Round::Decided => show_kept(f, seat),
            _ => show_value(f, keeper, &seat.own()),
        }
    }

    fn show<W: fmt::Write>(&self, f: &mut fmt::Formatter<W>, liars: &Liars) -> fmt::Result {
        let first = &self.seats[0];
        let dealer = self.dealer;
        let polynomial = &self.polynomial;
        let round = u8::from(first.round);
        writeln!(f, "dealer {dealer} dealt {polynomial}\nround {round}")?;
        for keeper in 0..=self.company.last() {
            if liars.contains(keeper) {
                writeln!(f, "keeper {keeper}: lies")?;
            } else {
                self.show_keeper(f, &self.seats[usize::from(keeper)])?;
            }
        }
        show_board(f, first)
    }
}

impl fmt::Display for Scene {
    fn fmt<W: fmt::Write>(&self, out: &mut fmt::Formatter<W>) -> fmt::Result {
        let f = self.company.f();
        let last = self.company.last();
        writeln!(out, "f {f}, keepers 0 to {last}")?;
        match &self.play {
            Some(play) => play.show(out, &self.liars),
            None => out.write_str("nothing dealt\n"),
        }
    }
}

impl fmt::Display for Stage {
    fn fmt<W: fmt::Write>(&self, f: &mut fmt::Formatter<W>) -> fmt::Result {
        if let Some(scene) = &self.scene {
            write!(f, "{scene}")?;
        }
        Ok(())
    }
}

// The messages that were turned away, a line each. They are printed at once.
#[derive(Clone, Copy)]
pub struct Refused<'a>(pub &'a [Refusal]);

impl fmt::Display for Refused<'_> {
    fn fmt<W: fmt::Write>(&self, f: &mut fmt::Formatter<W>) -> fmt::Result {
        for refusal in self.0 {
            let number = u8::from(*refusal);
            writeln!(f, "refused {number}")?;
        }
        Ok(())
    }
}
