// The links that are watched, and the moments of the sides of the others.
ghost use Rattle.std.specs.Prelude.{◌≡◌, ℕ, ◌+◌, ◌^◌, ◌≤◌, ◌==◌, ◌||◌, [], true, false, if◌then◌else◌, OnOk, IsOk};
ghost use Rattle.next_moments.specs.Earliest.{NoneIsDue};
ghost use Rattle.resting_links.specs.RestingValue.{HasPlaces, Wakes, Rests, Lengthens, IsFirstMoment, link_has_come};

use ev_types::NoMemory;
use next_moments::Moments;
use number_set::NumberSet;
use std::alloc::Global;
use std::marker::Model;

/// Which links are watched. Each side of a link that isn't may have a moment, in milliseconds, at which its link is to be watched again. It
/// takes some 80 bytes for each link that has a place.
///
/// Own.
#[derive(Drop)]
pub struct RestingLinks {
    watched: NumberSet,
    moments: Moments,
}

impl Model for RestingLinks {
    ghost use Rattle.resting_links.specs.RestingValue.{RestingValue};
    ghost use Rattle.std.specs.Coded.{codes};
    ghost use Rattle.number_set.specs.Code.{number_set_code};

    ghost Value = { RestingValue };

    ghost coded = { Prim.hlevel (codes, number_set_code) };

    ghost use Rattle.resting_links.specs.RestingView.{resting_of, KeepsMoments};

    ghost view = { resting_of };

    ghost invariant = { λ r. KeepsMoments (resting_of r) };
}

impl RestingLinks {
    /// No link has a place. Takes no memory; constant.
    ///
    /// Own.
    pub fn new(alloc: Global) -> RestingLinks
        ensures len { result.watched.len ≡ 0 }
        ensures members { (n : ℕ) → result.watched.has n ≡ false }
        ensures moments { result.moments ≡ [] }
    {
        RestingLinks {
            watched: NumberSet::new(alloc),
            moments: Moments::new(alloc),
        }
    }

    /// The links that are watched. Constant; takes no memory.
    ///
    /// Own.
    pub fn watched(&self) -> &NumberSet
        ensures { result.now ≡ self.now.watched }
    {
        &self.watched
    }

    /// Makes places for the first links, so many. A new one is not watched and its sides have no moment. Takes memory where there are
    /// fewer, and else none; linear in what is added.
    ///
    /// Own.
    pub fn lengthen(&mut self, links: usize) -> Result<(), NoMemory>
        requires { links ≤ 2 ^ 32 }
        ensures longer { Lengthens self.old self.new }
        ensures room { OnOk result (HasPlaces links self.new) }
        ensures already { HasPlaces links self.old → IsOk result }
    {
        self.watched.lengthen(links)?;
        self.moments.lengthen(2 * links)?;
        Ok(())
    }

    /// A link is watched. Takes no memory; logarithmic in the links where one of its sides had a moment, else constant.
    ///
    /// Own.
    pub fn watch(&mut self, link: usize)
        requires { HasPlaces (link + 1) self.old }
        ensures more { Wakes self.old self.new }
        ensures there { self.new.watched.has link ≡ true }
        ensures no_other { (n : ℕ) → self.new.watched.has n ≡ (if n == link then true else self.old.watched.has n) }
    {
        self.watched.insert(link);
        self.moments.set(2 * link, None);
        self.moments.set(2 * link + 1, None);
    }

    /// A link is watched no more. Its sides get these moments, of which none is for ever. Takes no memory; logarithmic in the links, and
    /// constant where no moment changes.
    ///
    /// Own.
    pub fn rest(&mut self, link: usize, near: Option<u64>, far: Option<u64>)
        requires { HasPlaces (link + 1) self.old }
        ensures { Rests link near far self.old self.new }
    {
        self.watched.remove(link);
        self.moments.set(2 * link, near);
        self.moments.set(2 * link + 1, far);
    }

    /// The links are watched of which a side has a moment that is at most this time. Takes no memory; costs what `watch` does for each of
    /// them.
    ///
    /// Own.
    pub fn wake(&mut self, time: u64)
        ensures more { Wakes self.old self.new }
        ensures none_due { NoneIsDue self.new.moments time }
        ensures due { (n : ℕ) → self.new.watched.has n ≡ (self.old.watched.has n || link_has_come self.old time n) }
    {
        while let Some(number) = self.moments.take_due(time) {
            self.watch(number / 2);
        }
    }

    /// The least moment of all sides. None where there is none. Constant; takes no memory.
    ///
    /// Own.
    pub fn first(&self) -> Option<u64>
        ensures { IsFirstMoment self.now result }
    {
        let (_, moment) = self.moments.first()?;
        Some(moment)
    }
}
