//! Scripts.
ghost use Rattle.std.specs.Prelude.{◌≡◌, ◌++◌, ◌∷◌, [], OnOk, OnErr};

use pg_list::Edit;
use std::alloc::{AllocError, Global};
use std::marker::Model;

/// A step of a script: an edit of the galley, or to show the galley as it stands.
#[derive(Drop)]
pub enum ScriptStep {
    Change(Edit),
    Show,
}

/// Steps in their order.
#[derive(Drop)]
pub struct Script {
    steps: Vec<ScriptStep>,
}

impl Model for Script {
    ghost use Rattle.std.specs.Prelude.{List};
    ghost use Rattle.pg_edits.specs.declared.script.ScriptStep.{ScriptStep};

    ghost Value = { List ScriptStep };

    ghost view = { λ a. a.steps.items };
}

impl Script {
    /// No steps. No memory is taken.
    pub fn new(alloc: Global) -> Script
        ensures { result ≡ [] }
    {
        Script {
            steps: Vec::new(alloc),
        }
    }

    /// Adds a step behind the others.
    pub fn push(&mut self, step: ScriptStep) -> Result<(), AllocError>
        ensures ok { OnOk result (self.new ≡ self.old ++ step ∷ []) }
        ensures err { OnErr result (self.new ≡ self.old) }
    {
        self.steps.push(step)?;
        Ok(())
    }

    pub fn as_slice(&self) -> &[ScriptStep]
        ensures { result.now ≡ self.now }
    {
        self.steps.as_slice()
    }
}
