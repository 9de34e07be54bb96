//! The table by its worked row, and line by line.
use super::*;

const DEAD: Event = Event::Exited { code: Some(1) };

const SIGNALLED: Event = Event::Exited { code: None };

const CLEAN: Event = Event::Exited { code: Some(0) };

#[test]
fn five_deaths_in_a_row_are_given_up(rt: HostRuntime) {
    let mut supervisor = Supervisor::new(5);
    assert_eq!(rt; supervisor.step(Event::Begin), Action::Start);
    for units in [1, 2, 4, 8] {
        assert_eq!(rt; supervisor.step(Event::Started), Action::Read);
        assert_eq!(rt; supervisor.step(DEAD), Action::Wait { units });
        assert_eq!(rt; supervisor.step(Event::Waited), Action::Start);
    }
    assert_eq!(rt; supervisor.step(Event::Started), Action::Read);
    assert_eq!(rt; supervisor.step(DEAD), Action::GivenUp { deaths: 5 });
    assert_eq!(rt; supervisor.step(Event::Begin), Action::Nothing);
}

#[test]
fn an_admitted_block_begins_the_count_again(rt: HostRuntime) {
    let mut supervisor = Supervisor::new(5);
    assert_eq!(rt; supervisor.step(Event::Begin), Action::Start);
    for (admits, units) in [(false, 1), (false, 2), (true, 1)] {
        assert_eq!(rt; supervisor.step(Event::Started), Action::Read);
        if admits {
            assert_eq!(rt; supervisor.step(Event::Admitted), Action::Read);
        }
        assert_eq!(rt; supervisor.step(DEAD), Action::Wait { units });
        assert_eq!(rt; supervisor.step(Event::Waited), Action::Start);
    }
}

#[test]
fn the_wait_grows_to_sixteen_and_the_smallest_maximum_is_one(rt: HostRuntime) {
    let mut supervisor = Supervisor::new(9);
    assert_eq!(rt; supervisor.step(Event::Begin), Action::Start);
    for units in [1, 2, 4, 8, 16, 16, 16, 16] {
        assert_eq!(rt; supervisor.step(Event::StartFailed), Action::Wait { units });
        assert_eq!(rt; supervisor.step(Event::Waited), Action::Start);
    }
    assert_eq!(rt;
        supervisor.step(Event::StartFailed),
        Action::GivenUp { deaths: 9 }
    );
    for max in [0, 1] {
        let mut supervisor = Supervisor::new(max);
        assert_eq!(rt; supervisor.step(Event::Begin), Action::Start);
        assert_eq!(rt;
            supervisor.step(Event::StartFailed),
            Action::GivenUp { deaths: 1 }
        );
    }
}

// The events that lead to each state, past one death where there can be one.
const TO_IDLE: &[Event] = &[];

const TO_STARTING: &[Event] = &[Event::Begin, Event::StartFailed, Event::Waited];

const TO_RUNNING: &[Event] = &[
    Event::Begin,
    Event::StartFailed,
    Event::Waited,
    Event::Started,
];

const TO_KILLING: &[Event] = &[
    Event::Begin,
    Event::StartFailed,
    Event::Waited,
    Event::Started,
    Event::Broken,
];

const TO_RESTING: &[Event] = &[Event::Begin, Event::StartFailed];

const TO_OVER: &[Event] = &[Event::Begin, Event::StartFailed, Event::Stop];

// The events of the table. Each line of `TABLE` has them in this order.
const EVENTS: [Event; 10] = [
    Event::Begin,
    Event::Started,
    Event::StartFailed,
    Event::Admitted,
    CLEAN,
    DEAD,
    SIGNALLED,
    Event::Broken,
    Event::Waited,
    Event::Stop,
];

// What an event leads to: an action, a new state and the deaths in a row.
type Cell = (Action, State, u32);

const NO_IDLE: Cell = (Action::Nothing, State::Idle, 0);

const NO_STARTING: Cell = (Action::Nothing, State::Starting, 1);

const NO_RUNNING: Cell = (Action::Nothing, State::Running, 1);

const NO_KILLING: Cell = (Action::Nothing, State::Killing, 1);

const NO_RESTING: Cell = (Action::Nothing, State::Resting, 1);

const NO_OVER: Cell = (Action::Nothing, State::Over, 1);

const SECOND_DEATH: Cell = (Action::Wait { units: 2 }, State::Resting, 2);

const TABLE: [(&[Event], [Cell; 10]); 6] = [
    (
        TO_IDLE,
        [
            (Action::Start, State::Starting, 0),
            NO_IDLE,
            NO_IDLE,
            NO_IDLE,
            NO_IDLE,
            NO_IDLE,
            NO_IDLE,
            NO_IDLE,
            NO_IDLE,
            (Action::Finished, State::Over, 0),
        ],
    ),
    (
        TO_STARTING,
        [
            NO_STARTING,
            (Action::Read, State::Running, 1),
            SECOND_DEATH,
            NO_STARTING,
            NO_STARTING,
            NO_STARTING,
            NO_STARTING,
            NO_STARTING,
            NO_STARTING,
            (Action::Finished, State::Over, 1),
        ],
    ),
    (
        TO_RUNNING,
        [
            NO_RUNNING,
            NO_RUNNING,
            NO_RUNNING,
            (Action::Read, State::Running, 0),
            (Action::Finished, State::Over, 1),
            SECOND_DEATH,
            SECOND_DEATH,
            (Action::Kill, State::Killing, 1),
            NO_RUNNING,
            (Action::Kill, State::Over, 1),
        ],
    ),
    (
        TO_KILLING,
        [
            NO_KILLING,
            NO_KILLING,
            NO_KILLING,
            NO_KILLING,
            SECOND_DEATH,
            SECOND_DEATH,
            SECOND_DEATH,
            NO_KILLING,
            NO_KILLING,
            (Action::Finished, State::Over, 1),
        ],
    ),
    (
        TO_RESTING,
        [
            NO_RESTING,
            NO_RESTING,
            NO_RESTING,
            NO_RESTING,
            NO_RESTING,
            NO_RESTING,
            NO_RESTING,
            NO_RESTING,
            (Action::Start, State::Starting, 1),
            (Action::Finished, State::Over, 1),
        ],
    ),
    (
        TO_OVER,
        [
            NO_OVER, NO_OVER, NO_OVER, NO_OVER, NO_OVER, NO_OVER, NO_OVER, NO_OVER, NO_OVER,
            NO_OVER,
        ],
    ),
];

// The supervisor after these events.
fn after(path: &[Event]) -> Supervisor {
    let mut supervisor = Supervisor::new(5);
    for event in path {
        supervisor.step(*event);
    }
    supervisor
}

#[test]
fn each_state_and_event_has_its_line(rt: HostRuntime) {
    for (path, cells) in TABLE {
        for (i, (wanted, state, deaths)) in cells.iter().enumerate() {
            let event = EVENTS[i];
            let mut supervisor = after(path);
            assert_eq!(rt; supervisor.step(event), *wanted, "{event:?} after {path:?}");
            assert_eq!(rt; supervisor.state, *state, "{event:?} after {path:?}");
            assert_eq!(rt; supervisor.deaths, *deaths, "{event:?} after {path:?}");
        }
    }
}

#[test]
fn a_run_writes_down_each_action(rt: HostRuntime) {
    let events = [
        Event::Begin,
        Event::Started,
        DEAD,
        Event::Waited,
        Event::Started,
        CLEAN,
    ];
    let mut actions = [Action::Nothing; 6];
    let mut supervisor = Supervisor::new(5);
    supervisor.run(&events, &mut actions);
    let wanted = [
        Action::Start,
        Action::Read,
        Action::Wait { units: 1 },
        Action::Start,
        Action::Read,
        Action::Finished,
    ];
    assert_eq!(rt; actions.as_slice(), wanted.as_slice());
}
