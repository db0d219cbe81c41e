ghost use Rattle.std.specs.Prelude.{◌≡◌, [], false, true};
ghost use mathlib.Core.List.{IsPrefix};
ghost use Rattle.keep_ledger.specs.Ends.{failures_after};
ghost use Rattle.keep_chronicle.specs.Chronicle.{events_of};
ghost use Rattle.keep_pages.specs.Histories.{length_at, shown_at, IsHistory, IsLegal};
ghost use Rattle.keep_register.specs.Allowed.{MayFollow};
ghost use Rattle.keep_register.specs.Asked.{WasAsked, counted_after, is_in};
ghost use Rattle.keep_register.specs.Pages.{IsPage};

use crate::page_shown::shown_on;
use crate::rule::{Published, Shows};
use crate::{Keeper, Naming, Page, Register};
use keep_chronicle::Sight;
use keep_ledger::{Refusal, Request, Told};
use keep_view::View;
use left_right::reader::{Reader, Reading};
use std::marker::Model;
use std::sync::ledger::Share;

/// What an operator goes by at a desk. It knows the events that it was shown or told of since the desk was opened, and
/// how many of its own are in.
pub struct Pass<B: Naming> {
    /// None while it reads.
    reader: Option<Reader<Page, (), Published<B>>>,
    reading: Option<Reading<Page, (), Published<B>>>,
    sight: Sight,
    /// The number of the last event that it knows.
    at: u64,
    /// The token of the page that it read last. It is told for clauses alone.
    read: Sight,
    share: Share<B>,
}

impl<B: Naming> Model for Pass<B> {
    ghost use Rattle.std.specs.Prelude.{◌≡◌, IfSome, is_some};
    ghost use Rattle.keep_chronicle.specs.Chronicle.{events_of};
    ghost use Rattle.keep_pages.specs.Histories.{length_at, IsHistory};
    ghost use Rattle.keep_register.specs.Pages.{IsPage, events_on};
    ghost use Rattle.keep_register.specs.Known.{Known};

    ghost Value = { Known };

    ghost view = { λ p. record {
      seen = events_of p.sight.log;
      shown = is_some p.reading;
      read = events_of p.read.log;
      counted = p.share.amount;
    } };

    ghost invariant = { λ p. (p.sight.book ≡ B.book)
        × IsHistory B.hooks.vetoes B.opening (events_of p.sight.log)
        × (p.at ≡ length_at B.opening (events_of p.sight.log))
        × IfSome p.reading (λ r. IsPage B.book B.hooks.vetoes B.opening r.part.value
        × (events_on r.part.value ≡ events_of p.sight.log))
        × (p.share.parts ≡ 1) };
}

impl<B: Naming> Pass<B> {
    ghost use Rattle.keep_register.specs.Known.{fresh};

    /// A pass that has seen nothing yet.
    pub fn new(
        reader: Reader<Page, (), Published<B>>,
        sight: Sight,
        at: u64,
        share: Share<B>,
    ) -> Pass<B>
        requires book { sight.book ≡ B.book }
        requires seen { events_of sight.log ≡ [] }
        requires history { IsHistory B.hooks.vetoes B.opening [] }
        requires at { at ≡ length_at B.opening [] }
        requires share { (share.parts ≡ 1) × (share.amount ≡ 0) }
        ensures { result ≡ fresh }
    {
        let read = sight.again();
        Pass {
            reader: Some(reader),
            reading: None,
            sight,
            at,
            read,
            share,
        }
    }

    /// Ends its reading.
    pub fn leave(&mut self)
        ensures same { self.new ≡ record self.old { shown = false } }
        ensures legal { IsLegal B.hooks.vetoes B.opening self.new.seen }
    {
        if let Some(reading) = self.reading.take() {
            self.reader = Some(reading.leave());
        }
    }

    /// Takes the page that is published, and so has seen its events. Answers whether it reads one then: none can be entered
    /// where the end is gone from which pages are published. It takes no lock, and waits for nobody.
    pub fn enter(&mut self) -> bool
        ensures shown { self.new.shown ≡ result }
        ensures begins { IsPrefix self.old.seen self.new.seen }
        ensures legal { IsLegal B.hooks.vetoes B.opening self.new.seen }
        ensures counted { self.new.counted ≡ self.old.counted }
    {
        self.leave();
        let Some(reader) = self.reader.take() else {
            return false;
        };
        match reader.enter_as::<Shows<B>>() {
            Ok(reading) => self.read(reading),
            Err(reader) => {
                self.reader = Some(reader);
                false
            }
        }
    }

    /// Keeps the reading, if its page goes on where the pass has come: it always does.
    fn read(&mut self, reading: Reading<Page, (), Published<B>>) -> bool
        requires none { self.old.shown ≡ false }
        requires page { IsPage B.book B.hooks.vetoes B.opening reading.part.value }
        ensures shown { self.new.shown ≡ result }
        ensures begins { IsPrefix self.old.seen self.new.seen }
        ensures legal { IsLegal B.hooks.vetoes B.opening self.new.seen }
        ensures counted { self.new.counted ≡ self.old.counted }
    {
        let page = reading.get();
        if !page.goes_on(&self.sight, self.at) {
            self.reader = Some(reading.leave());
            return false;
        }
        self.sight = page.sight();
        self.at = page.length();
        self.read = page.sight();
        if let Some(before) = self.reading.replace(reading) {
            before.leave();
        }
        true
    }

    /// The page that it reads, as planners and readers are shown it.
    pub fn view(&self) -> View<'_>
        requires { self.now.shown ≡ true }
        ensures { result ≡ shown_at B.opening self.entry.now.seen }
    {
        match &self.reading {
            Some(reading) => shown_on::<B>(reading.get()),
            None => unreachable!(),
        }
    }

    /// What it has seen begins the list.
    pub fn precedes<K: Keeper>(&self, register: &mut Register<B, K>)
        ensures same { register.new ≡ register.old }
        ensures begins { IsPrefix self.now.seen register.old.events }
    {
        register.covers(&self.sight);
    }

    /// Is told of all events.
    pub fn learn<K: Keeper>(&mut self, register: &mut Register<B, K>)
        ensures seen { self.new.seen ≡ register.old.events }
        ensures same { register.new ≡ register.old }
        ensures begins { IsPrefix self.old.seen self.new.seen }
        ensures counted { self.new.counted ≡ self.old.counted }
        ensures legal { IsLegal B.hooks.vetoes B.opening self.new.seen }
    {
        self.leave();
        self.precedes(register);
        self.sight = register.sight();
        self.at = register.length();
    }

    /// Takes the page that is published, if all events of the list stand on it, and leaves it again. Answers whether they do.
    pub fn read_all<K: Keeper>(&mut self, register: &mut Register<B, K>) -> bool
        ensures all { result ≡ true → (self.new.seen ≡ register.old.events) × (self.new.read ≡ register.old.events) }
        ensures kept { result ≡ false → self.new.seen ≡ self.old.seen }
        ensures same { register.new ≡ register.old }
        ensures begins { IsPrefix self.old.seen self.new.seen }
        ensures legal { IsLegal B.hooks.vetoes B.opening self.new.seen }
        ensures counted { self.new.counted ≡ self.old.counted }
    {
        self.leave();
        let Some(reader) = self.reader.take() else {
            return false;
        };
        match reader.enter_as::<Shows<B>>() {
            Ok(reading) => self.look(reading, register),
            Err(reader) => {
                self.reader = Some(reader);
                false
            }
        }
    }

    /// Learns what stands on the page, if it is the whole list, and ends the reading.
    fn look<K: Keeper>(
        &mut self,
        reading: Reading<Page, (), Published<B>>,
        register: &mut Register<B, K>,
    ) -> bool
        requires none { self.old.shown ≡ false }
        requires page { IsPage B.book B.hooks.vetoes B.opening reading.part.value }
        ensures all { result ≡ true → (self.new.seen ≡ register.old.events) × (self.new.read ≡ register.old.events) }
        ensures kept { result ≡ false → self.new.seen ≡ self.old.seen }
        ensures same { register.new ≡ register.old }
        ensures begins { IsPrefix self.old.seen self.new.seen }
        ensures legal { IsLegal B.hooks.vetoes B.opening self.new.seen }
        ensures counted { self.new.counted ≡ self.old.counted }
    {
        let page = reading.get();
        if page.length() != register.length() {
            self.reader = Some(reading.leave());
            return false;
        }
        self.precedes(register);
        let all = page.sight();
        register.covers(&all);
        self.at = page.length();
        self.reader = Some(reading.leave());
        self.read = all.again();
        self.sight = all;
        true
    }

    /// Asks, and counts an event that is in.
    pub fn ask<K: Keeper>(
        &mut self,
        register: &mut Register<B, K>,
        request: Request,
    ) -> Result<Told, Refusal>
        requires { MayFollow B.allows register.old.events request }
        ensures asked { WasAsked B.hooks.vetoes B.opening request result register.old.events register.new.events }
        ensures failures { register.new.failures ≡ failures_after result register.old.failures }
        ensures legal { IsLegal B.hooks.vetoes B.opening register.new.events }
        ensures seen { self.new.seen ≡ self.old.seen }
        ensures counted { self.new.counted ≡ counted_after (is_in result) self.old.counted }
    {
        register.ask(&mut self.share, request)
    }

    /// Gives back its part of the counts. What it has seen is a beginning of all.
    pub fn close<K: Keeper>(self, register: &mut Register<B, K>) -> Share<B>
        ensures same { register.new ≡ register.old }
        ensures begins { IsPrefix self.seen register.old.events }
        ensures amount { result.amount ≡ self.counted }
        ensures parts { result.parts ≡ 1 }
    {
        let Pass {
            reader: _reader,
            reading,
            sight,
            at: _,
            read: _read,
            share,
        } = self;
        if let Some(reading) = reading {
            reading.leave();
        }
        register.covers(&sight);
        share
    }
}

impl<B: Naming> Drop for Pass<B> {
    fn drop(self) {
        let Pass {
            reader: _reader,
            reading,
            sight: _sight,
            at: _,
            read: _read,
            share: _share,
        } = self;
        if let Some(reading) = reading {
            reading.leave();
        }
    }
}
