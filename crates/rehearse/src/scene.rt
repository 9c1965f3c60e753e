// What stands on the stage: the keepers, who of them lies, and a dealing.
ghost use Rattle.std.specs.Prelude.{◌≡◌, ◌*◌, ◌≤◌, [], None, IfOk};

use crate::company::Company;
use crate::draft::Draft;
use crate::expected::Expected;
use crate::failure::Failure;
use crate::liars::Liars;
use crate::play::Play;
use crate::rows::Rows;
use crate::script::Step;
use dealing::Refusal;
use std::alloc::Global;

#[derive(Clone, Drop)]
pub struct Scene {
    pub company: Company,
    pub liars: Liars,
    pub play: Option<Play>,
}

// What a step that is taken gives.
#[derive(Drop)]
pub enum Reply {
    Nothing,
    // The messages that were turned away.
    Refused(Vec<Refusal>),
    // What stands is to be shown.
    Show,
}

impl Reply {
    // What became of one message.
    fn one(heap: Global, refused: Option<Refusal>) -> Result<Reply, Failure> {
        let mut all = Vec::new(heap);
        all.extend(refused)?;
        Ok(Reply::Refused(all))
    }
}

impl Scene {
    // All keep the rules, and nothing is dealt.
    pub fn new(heap: Global, company: Company) -> Scene
        ensures company { result.company ≡ company }
        ensures honest { result.liars.keepers.items ≡ [] }
        ensures undealt { result.play ≡ None }
    {
        Scene {
            company,
            liars: Liars {
                keepers: Vec::new(heap),
            },
            play: None,
        }
    }

    // Takes a step. One that fails may be half done, so the stage has a copy take it.
    pub fn take(&mut self, heap: Global, step: Step) -> Result<Reply, Failure> {
        match step {
            Step::Liar(named) => self.liar(named.keepers.as_slice()),
            Step::Deal { dealer, rows } => self.deal(heap, dealer, rows),
            Step::Round => self.round(heap),
            Step::Say { from, to } => self.say(heap, from, to),
            Step::Post { from } => self.post(heap, from),
            Step::Send { from, to, draft } => self.send(heap, from, to, draft),
            Step::Board { from, draft } => self.board(heap, from, draft),
            Step::Show => Ok(Reply::Show),
        }
    }

    // The keepers named lie from now on.
    fn liar(&mut self, named: &[u8]) -> Result<Reply, Failure> {
        for keeper in named {
            self.company.keeper(*keeper)?;
        }
        if self.play.is_some() {
            return Err(Expected::NoDealing.into());
        }
        for keeper in named {
            self.liars.insert(self.company.keeper(*keeper)?)?;
        }
        Ok(Reply::Nothing)
    }

    // A keeper deals; an earlier dealing is gone.
    fn deal(&mut self, heap: Global, dealer: u8, rows: Rows) -> Result<Reply, Failure> {
        let dealer = self.company.keeper(dealer)?;
        let polynomial = rows.polynomial(usize::from(self.company.f()) + 1)?;
        self.play = Some(Play::new(heap, self.company, dealer, polynomial)?);
        Ok(Reply::Nothing)
    }

    // The next round is called, and whoever keeps the rules speaks: first the mail, then the lines of the board.
    fn round(&mut self, heap: Global) -> Result<Reply, Failure> {
        let play = self.play.as_mut().ok_or(Expected::Dealing)?;
        if play.is_decided() {
            return Err(Expected::Undecided.into());
        }
        play.call();
        // Twice over the keepers: all mail comes before any line.
        for from in 0..=self.company.last() {
            if !self.liars.contains(from) {
                play.say_all(heap, from)?;
            }
        }
        for from in 0..=self.company.last() {
            if !self.liars.contains(from) {
                play.post(heap, from)?;
            }
        }
        Ok(Reply::Nothing)
    }

    // The dealing that is played.
    fn dealing(&mut self) -> Result<&mut Play, Expected> {
        self.play.as_mut().ok_or(Expected::Dealing)
    }

    // The same, for a keeper that lies.
    fn dealing_for(&mut self, liar: u8) -> Result<&mut Play, Expected>
        requires { liar ≤ 6 }
    {
        let lies = self.liars.contains(liar);
        self.dealing()
            .and_then(|play| if lies { Ok(play) } else { Err(Expected::Liar) })
    }

    // A liar sends what its seat would.
    fn say(&mut self, heap: Global, liar: u8, to: u8) -> Result<Reply, Failure>
        ensures { IfOk result (λ _. (liar ≤ 3 * self.old.company.f) × (to ≤ 3 * self.old.company.f)) }
    {
        let (liar, to) = self.company.pair(liar, to)?;
        let refused = self.dealing_for(liar)?.say(heap, liar, to)?;
        Reply::one(heap, refused)
    }

    // A liar puts on the board what its seat would.
    fn post(&mut self, heap: Global, liar: u8) -> Result<Reply, Failure>
        ensures { IfOk result (λ _. liar ≤ 3 * self.old.company.f) }
    {
        let liar = self.company.keeper(liar)?;
        Ok(Reply::Refused(self.dealing_for(liar)?.post(heap, liar)?))
    }

    // The dealing, and the bytes of a draft in it.
    fn drafted(&mut self, heap: Global, draft: Draft) -> Result<(&mut Play, Vec<u8>), Failure> {
        let play = self.dealing()?;
        let bytes = draft.bytes(heap, play.dealer)?;
        Ok((play, bytes))
    }

    // A keeper, or somebody in its name, sends a message.
    fn send(&mut self, heap: Global, from: u8, to: u8, draft: Draft) -> Result<Reply, Failure>
        ensures { IfOk result (λ _. (from ≤ 3 * self.old.company.f) × (to ≤ 3 * self.old.company.f)) }
    {
        let (from, to) = self.company.pair(from, to)?;
        let (play, bytes) = self.drafted(heap, draft)?;
        Reply::one(heap, play.mail(from, to, bytes.as_slice()))
    }

    // A keeper, or somebody in its name, puts a line on the board.
    fn board(&mut self, heap: Global, from: u8, draft: Draft) -> Result<Reply, Failure>
        ensures { IfOk result (λ _. from ≤ 3 * self.old.company.f) }
    {
        let from = self.company.keeper(from)?;
        let (play, bytes) = self.drafted(heap, draft)?;
        Reply::one(heap, play.board(from, bytes.as_slice()))
    }
}
