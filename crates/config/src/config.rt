//! A configuration, read from the members of a JSON object.
ghost use Rattle.std.specs.Prelude.{◌≤◌, IfErr, IfOk, Some, false, length};
ghost use Rattle.jiter.specs.Caller.{IsDocument, Node, value_of};
ghost use Rattle.jiter_walk.specs.Table.{Holds, object_in, table};
ghost use Rattle.jiter_walk.specs.Walk.{IsReadable, Returns, index_of};
ghost use Rattle.config.specs.Settings.{config_view, fields, name, settings_slots, unfit_text};

use crate::port::Port;
use jiter::Jiter;
use jiter_walk::{
    Object, WalkError, next_flag, next_integer_in, next_text, read_object_document, skip,
};
use std::alloc::Global;
use std::fmt;

/// The settings of a program.
#[derive(Debug, Drop)]
pub struct Config {
    /// The string of the last member `host`.
    pub host: String,
    /// The integer of the last member `port`, from 1 to 65535.
    pub port: Port,
    /// The value of the last member `debug`; `false` without one.
    pub debug: bool,
}

/// Why a document isn't a configuration.
#[derive(Debug, Clone, Copy)]
pub enum Unfit {
    /// The integer isn't a port.
    Port,
    /// There is no member `host`.
    NoHost,
    /// There is no member `port`.
    NoPort,
}

impl fmt::Display for Unfit {
    ghost output = { λ unfit. Some (unfit_text unfit) };

    fn fmt<W: fmt::Write>(&self, f: &mut fmt::Formatter<W>) -> fmt::Result {
        f.write_str(match self {
            Self::Port => "no port from 1 to 65535",
            Self::NoHost => "host is missing",
            Self::NoPort => "port is missing",
        })
    }
}

#[derive(Clone, Copy)]
enum Key {
    Host,
    Port,
    Debug,
}

// What is set so far.
#[derive(Default, Drop)]
struct Settings {
    host: Option<String>,
    port: Option<Port>,
    debug: Option<bool>,
}

impl<'j> Object<'j, Unfit> for Settings {
    type Key = Key;

    type Whole = Config;

    ghost table = { table fields };

    ghost name = { name };

    ghost state = { settings_slots };

    ghost view = { config_view };

    fn key(&self, text: &str) -> Option<Key> {
        match text {
            "host" => Some(Key::Host),
            "port" => Some(Key::Port),
            "debug" => Some(Key::Debug),
            _ => None,
        }
    }

    fn member(
        &mut self,
        alloc: Global,
        key: &Option<Key>,
        _at: usize,
        jiter: &mut Jiter<'j>,
    ) -> Result<(), WalkError<Unfit>> {
        match key {
            Some(Key::Host) => self.host = Some(next_text(alloc, jiter)?),
            Some(Key::Port) => {
                let number = next_integer_in(jiter, 1, 65535, Unfit::Port)? as u16;
                self.port = Some(Port { number });
            }
            Some(Key::Debug) => self.debug = Some(next_flag(jiter)?),
            None => skip(jiter)?,
        }
        Ok(())
    }

    fn finish(self, _alloc: Global) -> Result<Config, Unfit> {
        Ok(Config {
            host: self.host.ok_or(Unfit::NoHost)?,
            port: self.port.ok_or(Unfit::NoPort)?,
            debug: self.debug.unwrap_or(false),
        })
    }
}

/// Reads a configuration from a JSON object. The last member of a name counts; members of other names are skipped.
///
/// # Errors
///
/// - `Reader` for an error in the bytes, for a value of another type at its first byte, and if an allocation fails
/// - `Custom` with `Port` if a member `port` has an integer that isn't from 1 to 65535, even if a later `port` is right
/// - `Custom` with `NoHost` or `NoPort` if there is no `host` or no `port`, at the closing brace
///
/// In skipped values UTF-8 isn't checked.
pub fn read_config(alloc: Global, bytes: &[u8]) -> Result<Config, WalkError<Unfit>>
    ensures document { (n : Node) → IsDocument false bytes.now n
        → Returns config_view result (object_in (table fields) bytes.now n) }
    ensures last { (n : Node) → IsDocument false bytes.now n
        → IfOk result (λ c. Holds fields (value_of bytes.now n) (config_view c)) }
    ensures port { IfOk result (λ c. (1 ≤ c.port.number) × (c.port.number ≤ 65535)) }
    ensures readable { IfOk result (λ _. IsReadable bytes.now) }
    ensures index { IfErr result (λ e. index_of e ≤ length bytes.now) }
{
    read_object_document(alloc, bytes, Settings::default())
}
