//! A struct whose fields are read without an allocation.
ghost use Rattle.jiter_walk.specs.Table.{Finals, table};
ghost use Rattle.test_failures.specs.Objects.{sample, sample_fields, sample_key, sample_slots, sample_view};

use crate::tell::{Tell, tell_bytes, tell_flag, tell_number};
use crate::unfit::Unfit;
use jiter::Jiter;
use jiter_walk::{
    Object, Value, WalkError, next_flag, next_integer_in, next_number_source, next_source,
    read_object, skip,
};
use std::alloc::{AllocError, Global};

/// What is read without an allocation.
#[derive(Drop)]
pub struct Sample<'j> {
    is_on: bool,
    count: u64,
    price: &'j [u8],
    source: &'j [u8],
}

#[derive(Clone, Copy)]
enum SampleKey {
    On,
    Count,
    Price,
    Source,
}

// What is read so far.
#[derive(Default, Drop)]
struct SampleFields<'j> {
    is_on: Option<bool>,
    count: Option<u64>,
    price: Option<&'j [u8]>,
    source: Option<&'j [u8]>,
}

impl<'j> Object<'j, Unfit> for SampleFields<'j> {
    type Key = SampleKey;

    type Whole = Sample<'j>;

    ghost table = { table sample_fields };

    ghost name = { sample_key };

    ghost state = { sample_slots };

    ghost view = { sample_view };

    fn key(&self, text: &str) -> Option<SampleKey> {
        match text {
            "on" => Some(SampleKey::On),
            "count" => Some(SampleKey::Count),
            "price" => Some(SampleKey::Price),
            "source" => Some(SampleKey::Source),
            _ => None,
        }
    }

    fn member(
        &mut self,
        _alloc: Global,
        key: &Option<SampleKey>,
        _at: usize,
        jiter: &mut Jiter<'j>,
    ) -> Result<(), WalkError<Unfit>> {
        match key {
            Some(SampleKey::On) => self.is_on = Some(next_flag(jiter)?),
            Some(SampleKey::Count) => self.count = Some(next_integer_in(
                jiter,
                0,
                1000,
                Unfit::Range,
            )?),
            Some(SampleKey::Price) => self.price = Some(next_number_source(jiter)?),
            Some(SampleKey::Source) => self.source = Some(next_source(jiter)?),
            None => skip(jiter)?,
        }
        Ok(())
    }

    fn finish(self, _alloc: Global) -> Result<Sample<'j>, Unfit> {
        Ok(Sample {
            is_on: self.is_on.ok_or(Unfit::Missing)?,
            count: self.count.ok_or(Unfit::Missing)?,
            price: self.price.ok_or(Unfit::Missing)?,
            source: self.source.ok_or(Unfit::Missing)?,
        })
    }
}

impl<'j> Value<'j, Unfit> for Sample<'j> {
    ghost View = { Finals sample_fields };

    ghost view = { sample_view };

    ghost meaning = { sample };

    fn read(alloc: Global, jiter: &mut Jiter<'j>) -> Result<Sample<'j>, WalkError<Unfit>> {
        read_object(alloc, jiter, SampleFields::default())
    }
}

impl Tell for Sample<'_> {
    fn tell(&self, line: &mut String) -> Result<(), AllocError> {
        tell_flag(self.is_on, line)?;
        line.push_str(" ")?;
        tell_number(self.count, line)?;
        line.push_str(" ")?;
        tell_bytes(self.price, line)?;
        line.push_str(" ")?;
        tell_bytes(self.source, line)
    }
}
