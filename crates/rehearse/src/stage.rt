// The stage that a script plays on.
ghost use Rattle.std.specs.Prelude.{◌≡◌, None, OnErr};

use crate::expected::Expected;
use crate::failure::Failure;
use crate::scene::{Reply, Scene};
use crate::script::{Command, Step};
use std::alloc::Global;

// Empty until f is given.
#[derive(Drop)]
pub struct Stage {
    pub scene: Option<Scene>,
}

impl Stage {
    pub fn new() -> Stage
        ensures { result.scene ≡ None }
    {
        Stage { scene: None }
    }

    // Carries out a command. If it can't be, nothing changes.
    pub fn carry_out(&mut self, heap: Global, command: Command) -> Result<Reply, Failure>
        ensures same { OnErr result (self.new ≡ self.old) }
    {
        match command {
            Command::F(company) => {
                self.scene = Some(Scene::new(heap, company));
                Ok(Reply::Nothing)
            }
            Command::Step(step) => self.take(heap, step),
        }
    }

    // Takes a step on a copy of what stands.
    fn take(&mut self, heap: Global, step: Step) -> Result<Reply, Failure>
        ensures same { OnErr result (self.new ≡ self.old) }
    {
        let mut scene = self.scene.as_ref().ok_or(Expected::FGiven)?.clone()?;
        let reply = scene.take(heap, step)?;
        self.scene = Some(scene);
        Ok(reply)
    }
}
