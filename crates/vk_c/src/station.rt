//! A station in the hands of another program.
ghost use Rattle.std.specs.Prelude.{◌≡◌, true, false, Option, Some, None, is_some};
ghost use Rattle.std.specs.Coded.{coded_option};
ghost use Rattle.std.specs.Option.{MatchOption};
ghost use Rattle.vk_host.specs.Values.{StationValue};
ghost use Rattle.vk_c.specs.Held.{owned, host_code, IsTold, told_code};

use crate::loose::Loose;
use std::alloc::Global;
use std::marker::Model;
use std::mem::replace;
use std::ptr::null_mut;
use vk_host::Host;

/// A station, or none.
#[repr(C)]
#[derive(Drop)]
pub struct Station {
    at: *mut u8,
    held: usize,
    pub ghost value: { Option StationValue } by { coded_option host_code },
    ghost told: { IsTold held value } by { told_code held value },
}

impl Model for Station {
    ghost also_owns = { λ s. owned s.at s.value };
}

impl Station {
    /// One that holds this.
    #[inline(always)]
    pub(crate) fn of(loose: Loose<Host, Global>) -> Station
        ensures { result.value ≡ Some loose.value }
    {
        let Loose { at, alloc: _ } = loose;
        let at = at as *mut u8;
        Station { at, held: 1 }
    }

    /// One that holds nothing.
    #[inline(always)]
    pub(crate) fn empty() -> Station
        ensures { result.value ≡ None }
    {
        Station {
            at: null_mut(),
            held: 0,
        }
    }

    #[inline(always)]
    fn into_loose(self, alloc: Global) -> Option<Loose<Host, Global>>
        ensures { MatchOption result (self.value ≡ None) (λ l. self.value ≡ Some l.value) }
    {
        let Station { at, held } = self;
        if held != 0 {
            let at = at as *mut Host;
            Some(Loose { at, alloc })
        } else {
            None
        }
    }

    #[inline(always)]
    pub(crate) fn take(&mut self, alloc: Global) -> Option<Box<Host>>
        ensures given { MatchOption result (self.old.value ≡ None) (λ b. self.old.value ≡ Some b.value) }
        ensures empty { self.new.value ≡ None }
    {
        match replace(self, Station::empty()).into_loose(alloc) {
            Some(loose) => Some(loose.into_box()),
            None => None,
        }
    }

    #[inline(always)]
    pub(crate) fn put(&mut self, host: Box<Host>)
        ensures { self.new.value ≡ Some host.value }
    {
        *self = Station::of(Loose::of(host));
    }
}
