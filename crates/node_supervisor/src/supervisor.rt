//! The supervisor.
ghost use Rattle.std.specs.Prelude.{◌≡◌, ℕ, length};
ghost use Rattle.node_supervisor.specs.Table.{Standing, supervise, IsWithin, limit_of};
ghost use Rattle.node_supervisor.specs.Runs.{IsRun};
ghost use Rattle.node_supervisor.specs.declared.state.State.TheVariants.{Idle};

use crate::event::{Action, Event};
use crate::state::{State, answer_to};
use std::marker::Model;

/// Decides what is done with one child. Contracts see it as its maximum, its state and its deaths
/// in a row.
#[derive(Drop)]
pub struct Supervisor {
    max: u32,
    state: State,
    deaths: u32,
}

impl Model for Supervisor {
    ghost Value = { Standing };

    ghost view = { λ s. record { max = s.max; state = s.state; deaths = s.deaths } };

    ghost invariant = { λ s. IsWithin s.max s.state s.deaths };
}

impl Supervisor {
    /// A supervisor that gives up after `max` deaths in a row. With a `max` of 0 it gives up at the
    /// first death, as with 1.
    pub fn new(max: u32) -> Supervisor
        ensures { result ≡ record { max = max; state = Idle; deaths = 0 } }
    {
        Supervisor {
            max,
            state: State::Idle,
            deaths: 0,
        }
    }

    /// What is to be done after this event.
    pub fn step(&mut self, event: Event) -> Action
        ensures row { supervise self.old event result self.new }
        ensures gives_up { (n : ℕ) → result ≡ Action.GivenUp n → n ≡ limit_of self.old.max }
    {
        let next = answer_to(self.max, self.state, self.deaths, event);
        self.state = next.state;
        self.deaths = next.deaths;
        next.action
    }

    /// Steps through the events, and writes down the action that each gives.
    pub fn run(&mut self, events: &[Event], actions: &mut [Action])
        requires { length events.now ≡ length actions.old }
        ensures { IsRun self.old events.now actions.new self.new }
    {
        for (i, event) in events.iter().enumerate() {
            actions[i] = self.step(*event);
        }
    }
}

#[cfg(test)]
mod tests;
