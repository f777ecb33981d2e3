//! The number of stripes that a session holds, and what it brings for calls outside.
ghost use Rattle.std.specs.Prelude.{◌≡◌, ◌+◌, ◌-◌, ◌<◌, ◌^◌, None};

use crate::loader::CacheLoader;
use crate::writer::CacheWriter;
use std::marker::Model;

/// The loader and the writer that a session brings for calls outside.
#[derive(Drop)]
pub struct Outside {
    /// The loader, if it brings one. Without one nothing is found.
    pub loader: Option<Box<dyn CacheLoader + Send + Drop>>,
    /// The writer, if it brings one.
    pub writer: Option<Box<dyn CacheWriter + Send + Drop>>,
}

/// The hands of a session: the number of stripes that it has taken and not given back, and what it brings for calls outside.
///
/// Hands are made of the loader and the writer, and give them back only if they hold no stripe. So new hands that are made while
/// a stripe is held don't have the session's loader or writer. A session keeps its hands private: otherwise a caller could hold a
/// stripe with one pair of hands, and ask the loader with another.
#[derive(Drop)]
pub struct Hands<T> {
    pub(crate) held: u32,
    pub(crate) outside: T,
}

impl<T> Model for Hands<T> {
    ghost use Rattle.jc_outside.specs.Hands.{HandsState};

    ghost Value = { HandsState T };

    ghost view = { λ h. record { held = h.held; outside = h.outside } };
}

impl<T> Hands<T> {
    /// Hands that hold no stripe, and have this for calls outside.
    pub fn new(outside: T) -> Self
        ensures { result ≡ record { held = 0; outside = outside } }
    {
        Hands { held: 0, outside }
    }

    /// A stripe was taken.
    ///
    /// Condition: fewer than `u32::MAX` are held.
    pub fn hold(&mut self)
        requires { self.old.held + 1 < 2 ^ 32 }
        ensures { self.new ≡ record self.old { held = self.old.held + 1 } }
    {
        self.held += 1;
    }

    /// A stripe was given back.
    ///
    /// Condition: at least one is held.
    pub fn let_go(&mut self)
        requires { 0 < self.old.held }
        ensures { self.new ≡ record self.old { held = self.old.held - 1 } }
    {
        self.held -= 1;
    }

    /// Ends the hands, and returns what they have for calls outside.
    ///
    /// Condition: they hold no stripe.
    pub fn into_outside(self) -> T
        requires { self.held ≡ 0 }
        ensures { result ≡ self.outside }
    {
        let Hands { held: _, outside } = self;
        outside
    }
}

impl Hands<Outside> {
    /// Takes the loader out, to lend it to an entry processor.
    ///
    /// Condition: they hold no stripe.
    pub fn take_loader(&mut self) -> Option<Box<dyn CacheLoader + Send + Drop>>
        requires { self.old.held ≡ 0 }
        ensures loader { result ≡ self.old.outside.loader }
        ensures left { self.new ≡ record self.old { outside = record self.old.outside { loader = None } } }
    {
        self.outside.loader.take()
    }

    /// Puts the loader back that was taken out.
    ///
    /// Conditions: they hold no stripe, and have no loader.
    pub fn put_loader(&mut self, loader: Option<Box<dyn CacheLoader + Send + Drop>>)
        requires held { self.old.held ≡ 0 }
        requires none { self.old.outside.loader ≡ None }
        ensures { self.new ≡ record self.old { outside = record self.old.outside { loader = loader } } }
    {
        self.outside.loader = loader;
    }
}
