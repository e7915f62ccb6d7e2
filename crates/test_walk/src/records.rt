//! Structs with each kind of field: required, optional, with a default; once, the first or the last.
ghost use Rattle.jiter_walk.specs.Table.{Finals, table};
ghost use Rattle.test_walk.specs.Records.{part, part_fields, part_key, part_slots, part_table, part_view};
ghost use Rattle.test_walk.specs.Records.{fields, record_key, record_slots, record_view, whole};

use crate::state::State;
use crate::unfit::Unfit;
use jiter::Jiter;
use jiter_walk::{
    Object, Value, WalkError, fail_at, next_flag, next_integer_as, next_integer_in, next_named,
    next_or_null, next_source, next_text, read_list, read_object, skip,
};
use std::alloc::Global;

/// A part: a name, which is there once, and a size from 1 to 9. It has no other member.
#[derive(Debug, Drop)]
pub struct Part {
    /// The string of the member `name`.
    pub name: String,
    /// The integer of the member `size`, from 1 to 9.
    pub size: Option<u64>,
}

#[derive(Clone, Copy)]
enum PartKey {
    Name,
    Size,
}

#[derive(Default, Drop)]
struct PartMembers {
    name: Option<String>,
    size: Option<u64>,
}

impl<'j> Object<'j, Unfit> for PartMembers {
    type Key = PartKey;

    type Whole = Part;

    ghost table = { part_table };

    ghost name = { part_key };

    ghost state = { part_slots };

    ghost view = { part_view };

    fn key(&self, text: &str) -> Option<PartKey> {
        match text {
            "name" => Some(PartKey::Name),
            "size" => Some(PartKey::Size),
            _ => None,
        }
    }

    fn member(
        &mut self,
        alloc: Global,
        key: &Option<PartKey>,
        at: usize,
        jiter: &mut Jiter<'j>,
    ) -> Result<(), WalkError<Unfit>> {
        match key {
            Some(PartKey::Name) if self.name.is_some() => fail_at(jiter, Unfit::Repeated, at)?,
            Some(PartKey::Name) => self.name = Some(next_text(alloc, jiter)?),
            Some(PartKey::Size) => self.size = Some(next_integer_in(jiter, 1, 9, Unfit::Range)?),
            None => fail_at(jiter, Unfit::Unknown, at)?,
        }
        Ok(())
    }

    fn finish(self, _alloc: Global) -> Result<Part, Unfit> {
        Ok(Part {
            name: self.name.ok_or(Unfit::NoName)?,
            size: self.size,
        })
    }
}

impl<'j> Value<'j, Unfit> for Part {
    ghost View = { Finals part_fields };

    ghost view = { part_view };

    ghost meaning = { part };

    fn read(alloc: Global, jiter: &mut Jiter<'j>) -> Result<Part, WalkError<Unfit>> {
        read_object(alloc, jiter, PartMembers::default())
    }
}

/// A record. Of `id`, `note` and `open` the first member counts; members of other names are skipped.
#[derive(Debug, Drop)]
pub struct Record<'j> {
    /// The integer of the first member `id`.
    pub id: u8,
    /// The string of the first member `note`.
    pub note: Option<String>,
    /// The value of the first member `open`; `true` without one.
    pub open: bool,
    /// The part of the last member `main`, which may be `null`.
    pub main: Option<Option<Part>>,
    /// The parts of the last member `parts`; none without one.
    pub parts: Vec<Vec<Part>>,
    /// What the string of the last member `state` names.
    pub state: Option<State>,
    /// The source of the last member `raw`.
    pub raw: Option<&'j [u8]>,
}

#[derive(Clone, Copy)]
enum RecordKey {
    Id,
    Note,
    Open,
    Main,
    Parts,
    State,
    Raw,
}

#[derive(Default, Drop)]
struct RecordMembers<'j> {
    id: Option<u8>,
    note: Option<String>,
    open: Option<bool>,
    main: Option<Option<Part>>,
    parts: Option<Vec<Vec<Part>>>,
    state: Option<State>,
    raw: Option<&'j [u8]>,
}

impl<'j> Object<'j, Unfit> for RecordMembers<'j> {
    type Key = RecordKey;

    type Whole = Record<'j>;

    ghost table = { table fields };

    ghost name = { record_key };

    ghost state = { record_slots };

    ghost view = { record_view };

    fn key(&self, text: &str) -> Option<RecordKey> {
        match text {
            "id" => Some(RecordKey::Id),
            "note" => Some(RecordKey::Note),
            "open" => Some(RecordKey::Open),
            "main" => Some(RecordKey::Main),
            "parts" => Some(RecordKey::Parts),
            "state" => Some(RecordKey::State),
            "raw" => Some(RecordKey::Raw),
            _ => None,
        }
    }

    fn member(
        &mut self,
        alloc: Global,
        key: &Option<RecordKey>,
        _at: usize,
        jiter: &mut Jiter<'j>,
    ) -> Result<(), WalkError<Unfit>> {
        match key {
            Some(RecordKey::Id) if self.id.is_some() => skip(jiter)?,
            Some(RecordKey::Id) => self.id = Some(next_integer_as(jiter, Unfit::Range)?),
            Some(RecordKey::Note) if self.note.is_some() => skip(jiter)?,
            Some(RecordKey::Note) => self.note = Some(next_text(alloc, jiter)?),
            Some(RecordKey::Open) if self.open.is_some() => skip(jiter)?,
            Some(RecordKey::Open) => self.open = Some(next_flag(jiter)?),
            Some(RecordKey::Main) => self.main = Some(next_or_null(alloc, jiter)?),
            Some(RecordKey::Parts) => self.parts = Some(read_list(alloc, jiter)?),
            Some(RecordKey::State) => self.state = Some(next_named(alloc, jiter, Unfit::NoState)?),
            Some(RecordKey::Raw) => self.raw = Some(next_source(jiter)?),
            None => skip(jiter)?,
        }
        Ok(())
    }

    fn finish(self, alloc: Global) -> Result<Record<'j>, Unfit> {
        Ok(Record {
            id: self.id.ok_or(Unfit::NoId)?,
            note: self.note,
            open: self.open.unwrap_or(true),
            main: self.main,
            parts: self.parts.unwrap_or(Vec::new(alloc)),
            state: self.state,
            raw: self.raw,
        })
    }
}

impl<'j> Value<'j, Unfit> for Record<'j> {
    ghost View = { Finals fields };

    ghost view = { record_view };

    ghost meaning = { whole };

    fn read(alloc: Global, jiter: &mut Jiter<'j>) -> Result<Record<'j>, WalkError<Unfit>> {
        read_object(alloc, jiter, RecordMembers::default())
    }
}
