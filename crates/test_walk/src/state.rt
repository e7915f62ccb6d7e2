//! A state that a string names.
ghost use Rattle.std.specs.Prelude.{[], ◌∷◌};
ghost use Rattle.jiter_walk.specs.Names.{named};
ghost use Rattle.test_walk.specs.declared.state.State.TheVariants as state;

use jiter_walk::Named;

/// Whether something goes on.
#[derive(Debug, Clone, Copy)]
pub enum State {
    /// It goes on.
    Open,
    /// It has ended.
    Closed,
}

impl Named for State {
    ghost names = { named (("open", state.Open) ∷ ("closed", state.Closed) ∷ []) };

    fn of_name(name: &str) -> Option<State> {
        match name {
            "open" => Some(State::Open),
            "closed" => Some(State::Closed),
            _ => None,
        }
    }
}
