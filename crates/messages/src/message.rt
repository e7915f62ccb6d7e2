//! A message: an object with an object and lists inside it.
ghost use Rattle.std.specs.Prelude.{◌≤◌, IfErr, IfOk, Some, false, length};
ghost use Rattle.jiter.specs.Caller.{IsDocument, Node, value_of};
ghost use Rattle.jiter_walk.specs.Table.{Finals, Holds, object_in, table};
ghost use Rattle.jiter_walk.specs.Walk.{IsReadable, Returns, index_of};
ghost use Rattle.messages.specs.Message.{fields, message_slots, message_view, name, unfit_text, user, user_fields, user_slots, user_table, user_view};

use jiter::Jiter;
use jiter_walk::{
    Object, Value, WalkError, fail_at, next_integer_in, next_number_source, next_text, read_list,
    read_object, read_object_document, skip,
};
use std::alloc::Global;
use std::fmt;

/// Somebody who sends or gets a message: what the members `name` and `tags` hold.
#[derive(Debug, Drop)]
pub struct User {
    pub name: String,
    pub tags: Vec<String>,
}

/// A message: what the last member of each name holds. The id is below 2^32; a price is the source of its number.
#[derive(Debug, Drop)]
pub struct Message<'j> {
    pub id: u64,
    pub user: User,
    pub copies: Vec<User>,
    pub price: Option<&'j [u8]>,
}

/// Why a document isn't a message. `Repeated` is a second `name` of a user, `Unknown` another key of a user.
#[derive(Debug, Clone, Copy)]
pub enum Unfit {
    Id,
    NoId,
    NoUser,
    NoName,
    Repeated,
    Unknown,
}

impl fmt::Display for Unfit {
    ghost output = { λ unfit. Some (unfit_text unfit) };

    fn fmt<W: fmt::Write>(&self, f: &mut fmt::Formatter<W>) -> fmt::Result {
        f.write_str(match self {
            Self::Id => "no id below 4294967296",
            Self::NoId => "id is missing",
            Self::NoUser => "user is missing",
            Self::NoName => "name is missing",
            Self::Repeated => "duplicate key",
            Self::Unknown => "unknown key",
        })
    }
}

#[derive(Clone, Copy)]
enum Key {
    Id,
    User,
    Copies,
    Price,
    Name,
    Tags,
}

#[derive(Default, Drop)]
struct UserFields {
    name: Option<String>,
    tags: Option<Vec<String>>,
}

impl<'j> Object<'j, Unfit> for UserFields {
    type Key = Key;

    type Whole = User;

    ghost table = { user_table };

    ghost name = { name };

    ghost state = { user_slots };

    ghost view = { user_view };

    fn key(&self, text: &str) -> Option<Key> {
        match text {
            "name" => Some(Key::Name),
            "tags" => Some(Key::Tags),
            _ => None,
        }
    }

    fn member(
        &mut self,
        alloc: Global,
        key: &Option<Key>,
        at: usize,
        jiter: &mut Jiter<'j>,
    ) -> Result<(), WalkError<Unfit>> {
        match key {
            Some(Key::Name) if self.name.is_some() => fail_at(jiter, Unfit::Repeated, at)?,
            Some(Key::Name) => self.name = Some(next_text(alloc, jiter)?),
            Some(Key::Tags) => self.tags = Some(read_list(alloc, jiter)?),
            _ => fail_at(jiter, Unfit::Unknown, at)?,
        }
        Ok(())
    }

    fn finish(self, alloc: Global) -> Result<User, Unfit> {
        let name = self.name.ok_or(Unfit::NoName)?;
        let tags = self.tags.unwrap_or(Vec::new(alloc));
        Ok(User { name, tags })
    }
}

impl<'j> Value<'j, Unfit> for User {
    ghost View = { Finals user_fields };

    ghost view = { user_view };

    ghost meaning = { user };

    fn read(alloc: Global, jiter: &mut Jiter<'j>) -> Result<User, WalkError<Unfit>> {
        read_object(alloc, jiter, UserFields::default())
    }
}

#[derive(Default, Drop)]
struct MessageFields<'j> {
    id: Option<u64>,
    user: Option<User>,
    copies: Option<Vec<User>>,
    price: Option<&'j [u8]>,
}

impl<'j> Object<'j, Unfit> for MessageFields<'j> {
    type Key = Key;

    type Whole = Message<'j>;

    ghost table = { table fields };

    ghost name = { name };

    ghost state = { message_slots };

    ghost view = { message_view };

    fn key(&self, text: &str) -> Option<Key> {
        match text {
            "id" => Some(Key::Id),
            "user" => Some(Key::User),
            "copies" => Some(Key::Copies),
            "price" => Some(Key::Price),
            _ => None,
        }
    }

    fn member(
        &mut self,
        alloc: Global,
        key: &Option<Key>,
        _at: usize,
        jiter: &mut Jiter<'j>,
    ) -> Result<(), WalkError<Unfit>> {
        match key {
            Some(Key::Id) => { self.id = Some(next_integer_in(jiter, 0, 4294967295, Unfit::Id)?) }
            Some(Key::User) => self.user = Some(User::read(alloc, jiter)?),
            Some(Key::Copies) => self.copies = Some(read_list(alloc, jiter)?),
            Some(Key::Price) => self.price = Some(next_number_source(jiter)?),
            _ => skip(jiter)?,
        }
        Ok(())
    }

    fn finish(self, alloc: Global) -> Result<Message<'j>, Unfit> {
        Ok(Message {
            id: self.id.ok_or(Unfit::NoId)?,
            user: self.user.ok_or(Unfit::NoUser)?,
            copies: self.copies.unwrap_or(Vec::new(alloc)),
            price: self.price,
        })
    }
}

/// Reads a message. Its members of other names are skipped; a user has only `name`, once, and `tags`.
///
/// # Errors
///
/// - `Reader` for bytes, types and memory; `Custom` at an integer (`Id`), a key (`Repeated`, `Unknown`) or a brace (`No..`)
pub fn read_message<'j>(alloc: Global, bytes: &'j [u8]) -> Result<Message<'j>, WalkError<Unfit>>
    ensures document { (n : Node) → IsDocument false bytes.now n
        → Returns message_view result (object_in (table fields) bytes.now n) }
    ensures last { (n : Node) → IsDocument false bytes.now n
        → IfOk result (λ m. Holds fields (value_of bytes.now n) (message_view m)) }
    ensures readable { IfOk result (λ _. IsReadable bytes.now) }
    ensures index { IfErr result (λ e. index_of e ≤ length bytes.now) }
{
    read_object_document(alloc, bytes, MessageFields::default())
}
