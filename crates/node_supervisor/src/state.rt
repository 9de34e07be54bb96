//! The states, and the table as a function of plain values.
ghost use Rattle.std.specs.Prelude.{◌≡◌, ◌<◌};
ghost use Rattle.node_supervisor.specs.Answers.{answer_of, death_of};
ghost use Rattle.node_supervisor.specs.Table.{wait_units, limit_of, IsWithin};

use crate::event::{Action, Event};

/// Where a supervisor stands.
#[derive(Clone, Copy, PartialEq, Eq, Debug)]
pub enum State {
    /// Nothing was asked for yet.
    Idle,
    /// A start was asked for.
    Starting,
    /// The child runs.
    Running,
    /// The child was broken, and a kill was asked for.
    Killing,
    /// The child died, and a wait was asked for.
    Resting,
    /// The end.
    Over,
}

// What an event leads to.
#[derive(Clone, Copy)]
pub(crate) struct Answer {
    pub(crate) action: Action,
    pub(crate) state: State,
    pub(crate) deaths: u32,
}

// The longest wait, in units.
const LONGEST_WAIT: u32 = 16;

// So many deaths in a row, and more, have the longest wait.
const LONG_FROM: u32 = 5;

// How many units the wait after so many deaths in a row has.
fn units_after(deaths: u32) -> u32
    requires { 0 < deaths }
    ensures { result ≡ wait_units deaths }
{
    if deaths < LONG_FROM {
        1 << (deaths - 1)
    } else {
        LONGEST_WAIT
    }
}

// One more death.
fn death(max: u32, deaths: u32) -> Answer
    requires { deaths < limit_of max }
    ensures { result ≡ death_of max deaths }
{
    let deaths = deaths + 1;
    if deaths >= max {
        let action = Action::GivenUp { deaths };
        return Answer {
            action,
            state: State::Over,
            deaths,
        };
    }
    let units = units_after(deaths);
    Answer {
        action: Action::Wait { units },
        state: State::Resting,
        deaths,
    }
}

// The line of the table.
pub(crate) fn answer_to(max: u32, state: State, deaths: u32, event: Event) -> Answer
    requires { IsWithin max state deaths }
    ensures { result ≡ answer_of max state deaths event }
{
    let (action, state) = match (state, event) {
        (State::Idle, Event::Begin) => (Action::Start, State::Starting),
        (State::Starting, Event::Started) => (Action::Read, State::Running),
        (State::Running, Event::Admitted) => {
            return Answer {
                action: Action::Read,
                state,
                deaths: 0,
            };
        }
        (State::Running, Event::Exited { code: Some(0) }) => (Action::Finished, State::Over),
        (State::Starting, Event::StartFailed)
        | (State::Running, Event::Exited { .. })
        | (State::Killing, Event::Exited { .. }) => return death(max, deaths),
        (State::Running, Event::Broken) => (Action::Kill, State::Killing),
        (State::Resting, Event::Waited) => (Action::Start, State::Starting),
        (State::Running, Event::Stop) => (Action::Kill, State::Over),
        (State::Over, Event::Stop) => (Action::Nothing, State::Over),
        (_, Event::Stop) => (Action::Finished, State::Over),
        _ => (Action::Nothing, state),
    };
    Answer {
        action,
        state,
        deaths,
    }
}
