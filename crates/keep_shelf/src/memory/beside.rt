//! The acts of a shelf in memory beside which a store keeps the same.
ghost use Rattle.std.specs.Prelude.{◌≡◌, IsTrue, OnOk, OnErr, is_some};
ghost use Rattle.std.specs.FinMap as map;
ghost use Rattle.keep_shelf.specs.Shelved.{called, failed, shifted};

use super::MemoryShelf;
use crate::key::Key;
use crate::shelf::Fault;
use keep_rope::Rope;

impl MemoryShelf {
    /// Puts the bytes under the key, and has them put by `store` where they are kept beside. Where that can't be done,
    /// all is as it was here.
    pub fn write_with<F: FnOnce() -> Result<(), Fault> + Drop>(
        &mut self,
        key: Key,
        bytes: &Rope,
        store: F,
    ) -> Result<(), Fault>
        requires { F.pre store }
        ensures stored { OnOk result (F.post store (Ok tt)) }
        ensures ok { OnOk result
            (self.new ≡ called self.old (map.insert self.old.content key bytes.now)) }
        ensures err { OnErr result (self.new ≡ failed self.old) }
    {
        match self.try_write(key, bytes, store) {
            Ok(()) => Ok(()),
            Err(Fault) => Err(self.fail()),
        }
    }

    /// Puts what is under one key under another one, and has `store` do the same where it is kept beside.
    pub fn shift_with<F: FnOnce() -> Result<(), Fault> + Drop>(
        &mut self,
        from: Key,
        to: Key,
        store: F,
    ) -> Result<(), Fault>
        requires filled { IsTrue (is_some (map.get self.old.content from)) }
        requires free { map.get self.old.content to ≡ None }
        requires callable { F.pre store }
        ensures stored { OnOk result (F.post store (Ok tt)) }
        ensures ok { OnOk result (self.new ≡ called self.old (shifted self.old.content from to)) }
        ensures err { OnErr result (self.new ≡ failed self.old) }
    {
        match self.try_shift(from, to, store) {
            Ok(()) => Ok(()),
            Err(Fault) => Err(self.fail()),
        }
    }

    /// Takes away what is under the key, and has `store` take it away where it is kept beside. Where nothing is under
    /// the key, `store` isn't asked.
    pub fn erase_with<F: FnOnce() -> Result<(), Fault> + Drop>(
        &mut self,
        key: Key,
        store: F,
    ) -> Result<(), Fault>
        requires { F.pre store }
        ensures stored { OnOk result
            (IsTrue (is_some (map.get self.old.content key)) → F.post store (Ok tt)) }
        ensures ok { OnOk result (self.new ≡ called self.old (map.remove self.old.content key)) }
        ensures err { OnErr result (self.new ≡ failed self.old) }
    {
        match self.try_erase(key, store) {
            Ok(()) => Ok(()),
            Err(Fault) => Err(self.fail()),
        }
    }

    fn try_write<F: FnOnce() -> Result<(), Fault> + Drop>(
        &mut self,
        key: Key,
        bytes: &Rope,
        store: F,
    ) -> Result<(), Fault>
        requires { F.pre store }
        ensures stored { OnOk result (F.post store (Ok tt)) }
        ensures ok { OnOk result
            (self.new ≡ called self.old (map.insert self.old.content key bytes.now)) }
        ensures err { OnErr result (self.new ≡ self.old) }
    {
        let was = self.content.write(key, bytes.clone()?)?;
        if let Err(fault) = store() {
            self.content.put_back(key, was);
            return Err(fault);
        }
        self.note();
        Ok(())
    }

    fn try_shift<F: FnOnce() -> Result<(), Fault> + Drop>(
        &mut self,
        from: Key,
        to: Key,
        store: F,
    ) -> Result<(), Fault>
        requires filled { IsTrue (is_some (map.get self.old.content from)) }
        requires free { map.get self.old.content to ≡ None }
        requires callable { F.pre store }
        ensures stored { OnOk result (F.post store (Ok tt)) }
        ensures ok { OnOk result (self.new ≡ called self.old (shifted self.old.content from to)) }
        ensures err { OnErr result (self.new ≡ self.old) }
    {
        let Some(bytes) = self.content.shared(from)? else {
            unreachable!()
        };
        self.content.write(to, bytes)?;
        if let Err(fault) = store() {
            self.content.put_back(to, None);
            return Err(fault);
        }
        self.content.erase(from);
        self.note();
        Ok(())
    }

    fn try_erase<F: FnOnce() -> Result<(), Fault> + Drop>(
        &mut self,
        key: Key,
        store: F,
    ) -> Result<(), Fault>
        requires { F.pre store }
        ensures stored { OnOk result
            (IsTrue (is_some (map.get self.old.content key)) → F.post store (Ok tt)) }
        ensures ok { OnOk result (self.new ≡ called self.old (map.remove self.old.content key)) }
        ensures err { OnErr result (self.new ≡ self.old) }
    {
        if self.content.get(key).is_some() {
            store()?;
        }
        self.content.erase(key);
        self.note();
        Ok(())
    }
}
