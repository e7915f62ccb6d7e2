//! A struct of three scalars.
ghost use Rattle.jiter_walk.specs.Table.{Finals, table};
ghost use Rattle.test_failures.specs.Objects.{config, config_fields, config_key, config_slots, config_view};

use crate::tell::{Tell, tell_flag, tell_number};
use crate::unfit::Unfit;
use jiter::Jiter;
use jiter_walk::{
    Object, Value, WalkError, next_flag, next_integer_in, next_text, read_object, skip,
};
use std::alloc::{AllocError, Global};

/// Three scalars, with a default for the last one.
#[derive(Drop)]
pub struct Config {
    host: String,
    port: u64,
    debug: bool,
}

#[derive(Clone, Copy)]
enum ConfigKey {
    Host,
    Port,
    Debug,
}

// What is read so far.
#[derive(Default, Drop)]
struct ConfigFields {
    host: Option<String>,
    port: Option<u64>,
    debug: Option<bool>,
}

impl<'j> Object<'j, Unfit> for ConfigFields {
    type Key = ConfigKey;

    type Whole = Config;

    ghost table = { table config_fields };

    ghost name = { config_key };

    ghost state = { config_slots };

    ghost view = { config_view };

    fn key(&self, text: &str) -> Option<ConfigKey> {
        match text {
            "host" => Some(ConfigKey::Host),
            "port" => Some(ConfigKey::Port),
            "debug" => Some(ConfigKey::Debug),
            _ => None,
        }
    }

    fn member(
        &mut self,
        alloc: Global,
        key: &Option<ConfigKey>,
        _at: usize,
        jiter: &mut Jiter<'j>,
    ) -> Result<(), WalkError<Unfit>> {
        match key {
            Some(ConfigKey::Host) => self.host = Some(next_text(alloc, jiter)?),
            Some(ConfigKey::Port) => self.port = Some(next_integer_in(
                jiter,
                1,
                65535,
                Unfit::Range,
            )?),
            Some(ConfigKey::Debug) => self.debug = Some(next_flag(jiter)?),
            None => skip(jiter)?,
        }
        Ok(())
    }

    fn finish(self, _alloc: Global) -> Result<Config, Unfit> {
        Ok(Config {
            host: self.host.ok_or(Unfit::Missing)?,
            port: self.port.ok_or(Unfit::Missing)?,
            debug: self.debug.unwrap_or(false),
        })
    }
}

impl<'j> Value<'j, Unfit> for Config {
    ghost View = { Finals config_fields };

    ghost view = { config_view };

    ghost meaning = { config };

    fn read(alloc: Global, jiter: &mut Jiter<'j>) -> Result<Config, WalkError<Unfit>> {
        read_object(alloc, jiter, ConfigFields::default())
    }
}

impl Tell for Config {
    fn tell(&self, line: &mut String) -> Result<(), AllocError> {
        self.host.tell(line)?;
        line.push_str(" ")?;
        tell_number(self.port, line)?;
        line.push_str(" ")?;
        tell_flag(self.debug, line)
    }
}
