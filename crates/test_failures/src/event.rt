//! A struct with a tree in it, a name, and a string that may be null.
ghost use Rattle.jiter_walk.specs.Names.{named};
ghost use Rattle.jiter_walk.specs.Table.{Finals, table};
ghost use Rattle.test_failures.specs.Objects.{event, event_fields, event_key, event_slots, event_view, states};

use crate::tell::Tell;
use crate::unfit::Unfit;
use jiter::{Jiter, JsonValue};
use jiter_walk::{
    Named, Object, Value, WalkError, next_named, next_or_null, next_tree, read_object, skip,
};
use std::alloc::{AllocError, Global};
use test_support::told::text_of;

/// What a job may be.
#[derive(Clone, Copy)]
pub enum State {
    /// It has not ended.
    Open,
    /// It has ended.
    Closed,
}

impl Named for State {
    ghost names = { named states };

    fn of_name(name: &str) -> Option<State> {
        match name {
            "open" => Some(State::Open),
            "closed" => Some(State::Closed),
            _ => None,
        }
    }
}

/// A name, a tree, and a string that may be null.
#[derive(Drop)]
pub struct Event<'j> {
    state: State,
    data: JsonValue<'j>,
    note: Option<String>,
}

#[derive(Clone, Copy)]
enum EventKey {
    State,
    Data,
    Note,
}

// What is read so far.
#[derive(Default, Drop)]
struct EventFields<'j> {
    state: Option<State>,
    data: Option<JsonValue<'j>>,
    note: Option<Option<String>>,
}

impl<'j> Object<'j, Unfit> for EventFields<'j> {
    type Key = EventKey;

    type Whole = Event<'j>;

    ghost table = { table event_fields };

    ghost name = { event_key };

    ghost state = { event_slots };

    ghost view = { event_view };

    fn key(&self, text: &str) -> Option<EventKey> {
        match text {
            "state" => Some(EventKey::State),
            "data" => Some(EventKey::Data),
            "note" => Some(EventKey::Note),
            _ => None,
        }
    }

    fn member(
        &mut self,
        alloc: Global,
        key: &Option<EventKey>,
        _at: usize,
        jiter: &mut Jiter<'j>,
    ) -> Result<(), WalkError<Unfit>> {
        match key {
            Some(EventKey::State) => self.state = Some(next_named(alloc, jiter, Unfit::NoState)?),
            Some(EventKey::Data) => self.data = Some(next_tree(alloc, jiter)?),
            Some(EventKey::Note) => self.note = Some(next_or_null(alloc, jiter)?),
            None => skip(jiter)?,
        }
        Ok(())
    }

    fn finish(self, _alloc: Global) -> Result<Event<'j>, Unfit> {
        Ok(Event {
            state: self.state.ok_or(Unfit::Missing)?,
            data: self.data.ok_or(Unfit::Missing)?,
            note: self.note.unwrap_or(None),
        })
    }
}

impl<'j> Value<'j, Unfit> for Event<'j> {
    ghost View = { Finals event_fields };

    ghost view = { event_view };

    ghost meaning = { event };

    fn read(alloc: Global, jiter: &mut Jiter<'j>) -> Result<Event<'j>, WalkError<Unfit>> {
        read_object(alloc, jiter, EventFields::default())
    }
}

impl Tell for Event<'_> {
    fn tell(&self, line: &mut String) -> Result<(), AllocError> {
        line.push_str(match self.state {
            State::Open => "open ",
            State::Closed => "closed ",
        })?;
        let data = text_of(*line.allocator(), &self.data)?;
        line.push_str(data.as_str())?;
        line.push_str(" ")?;
        self.note.tell(line)
    }
}
