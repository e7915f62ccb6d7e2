//! A struct with a struct and lists in it.
ghost use Rattle.jiter_walk.specs.Table.{Finals, table};
ghost use Rattle.test_failures.specs.Objects.{message, message_fields, message_key, message_slots, message_view};
ghost use Rattle.test_failures.specs.Objects.{user, user_fields, user_key, user_slots, user_table, user_view};

use crate::tell::{Tell, tell_bytes};
use crate::unfit::Unfit;
use jiter::Jiter;
use jiter_walk::{
    Object, Value, WalkError, fail_at, next_number_source, next_text, read_list, read_object, skip,
};
use std::alloc::{AllocError, Global};

/// A user of a message.
#[derive(Drop)]
pub struct User {
    name: String,
    tags: Vec<String>,
}

#[derive(Clone, Copy)]
enum UserKey {
    Name,
    Tags,
}

// What is read so far.
#[derive(Default, Drop)]
struct UserFields {
    name: Option<String>,
    tags: Option<Vec<String>>,
}

impl<'j> Object<'j, Unfit> for UserFields {
    type Key = UserKey;

    type Whole = User;

    ghost table = { user_table };

    ghost name = { user_key };

    ghost state = { user_slots };

    ghost view = { user_view };

    fn key(&self, text: &str) -> Option<UserKey> {
        match text {
            "name" => Some(UserKey::Name),
            "tags" => Some(UserKey::Tags),
            _ => None,
        }
    }

    fn member(
        &mut self,
        alloc: Global,
        key: &Option<UserKey>,
        at: usize,
        jiter: &mut Jiter<'j>,
    ) -> Result<(), WalkError<Unfit>> {
        match key {
            Some(UserKey::Name) if self.name.is_some() => fail_at(jiter, Unfit::Repeated, at)?,
            Some(UserKey::Name) => self.name = Some(next_text(alloc, jiter)?),
            Some(UserKey::Tags) => self.tags = Some(read_list(alloc, jiter)?),
            None => fail_at(jiter, Unfit::Unknown, at)?,
        }
        Ok(())
    }

    fn finish(self, alloc: Global) -> Result<User, Unfit> {
        Ok(User {
            name: self.name.ok_or(Unfit::Missing)?,
            tags: self.tags.unwrap_or(Vec::new(alloc)),
        })
    }
}

impl<'j> Value<'j, Unfit> for User {
    ghost View = { Finals user_fields };

    ghost view = { user_view };

    ghost meaning = { user };

    fn read(alloc: Global, jiter: &mut Jiter<'j>) -> Result<User, WalkError<Unfit>> {
        read_object(alloc, jiter, UserFields::default())
    }
}

impl Tell for User {
    fn tell(&self, line: &mut String) -> Result<(), AllocError> {
        self.name.tell(line)?;
        self.tags.tell(line)
    }
}

/// A struct and a list of structs, and a number as it is spelled.
#[derive(Drop)]
pub struct Message<'j> {
    user: User,
    copies: Vec<User>,
    price: Option<&'j [u8]>,
}

#[derive(Clone, Copy)]
enum MessageKey {
    User,
    Copies,
    Price,
}

// What is read so far.
#[derive(Default, Drop)]
struct MessageFields<'j> {
    user: Option<User>,
    copies: Option<Vec<User>>,
    price: Option<&'j [u8]>,
}

impl<'j> Object<'j, Unfit> for MessageFields<'j> {
    type Key = MessageKey;

    type Whole = Message<'j>;

    ghost table = { table message_fields };

    ghost name = { message_key };

    ghost state = { message_slots };

    ghost view = { message_view };

    fn key(&self, text: &str) -> Option<MessageKey> {
        match text {
            "user" => Some(MessageKey::User),
            "copies" => Some(MessageKey::Copies),
            "price" => Some(MessageKey::Price),
            _ => None,
        }
    }

    fn member(
        &mut self,
        alloc: Global,
        key: &Option<MessageKey>,
        _at: usize,
        jiter: &mut Jiter<'j>,
    ) -> Result<(), WalkError<Unfit>> {
        match key {
            Some(MessageKey::User) => self.user = Some(User::read(alloc, jiter)?),
            Some(MessageKey::Copies) => self.copies = Some(read_list(alloc, jiter)?),
            Some(MessageKey::Price) => self.price = Some(next_number_source(jiter)?),
            None => skip(jiter)?,
        }
        Ok(())
    }

    fn finish(self, alloc: Global) -> Result<Message<'j>, Unfit> {
        Ok(Message {
            user: self.user.ok_or(Unfit::Missing)?,
            copies: self.copies.unwrap_or(Vec::new(alloc)),
            price: self.price,
        })
    }
}

impl<'j> Value<'j, Unfit> for Message<'j> {
    ghost View = { Finals message_fields };

    ghost view = { message_view };

    ghost meaning = { message };

    fn read(alloc: Global, jiter: &mut Jiter<'j>) -> Result<Message<'j>, WalkError<Unfit>> {
        read_object(alloc, jiter, MessageFields::default())
    }
}

impl Tell for Message<'_> {
    fn tell(&self, line: &mut String) -> Result<(), AllocError> {
        self.user.tell(line)?;
        line.push_str(" ")?;
        self.copies.tell(line)?;
        line.push_str(" ")?;
        match self.price {
            Some(price) => tell_bytes(price, line),
            None => line.push_str("no price"),
        }
    }
}
