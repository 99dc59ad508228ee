//! Labels in few bytes.
ghost use Rattle.std.specs.Prelude.{◌≡◌, IfOk};

use crate::states::SmallState;
use pg_plan::Label;
use std::alloc::{AllocError, Global};
use std::marker::Model;

/// A state with a cost, in 64 bytes.
#[derive(Drop)]
pub struct SmallLabel {
    pub state: SmallState,
    pub cost: i128,
}

impl Model for SmallLabel {
    ghost use Rattle.pg_plan.specs.declared.states.Label.{Label};

    ghost Value = { Label };

    ghost view = { λ a. record { state = a.state; cost = a.cost } };
}

impl SmallLabel {
    /// The label in few bytes. It fails where memory runs out.
    pub fn of(alloc: Global, label: &Label) -> Result<SmallLabel, AllocError>
        ensures { IfOk result (λ it. it ≡ label.now) }
    {
        Ok(SmallLabel {
            state: SmallState::of(alloc, label.state.copy()?)?,
            cost: label.cost,
        })
    }
}

/// The labels in few bytes, in the same order. It fails where memory runs out.
pub fn small_labels(alloc: Global, labels: &[Label]) -> Result<Vec<SmallLabel>, AllocError>
    ensures { IfOk result (λ it. it.items ≡ labels.now) }
{
    let mut made = Vec::new(alloc);
    for label in labels {
        made.push(SmallLabel::of(alloc, label)?)?;
    }
    Ok(made)
}
