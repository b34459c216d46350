//! Where something lies that one thread at a time takes out.
ghost use Rattle.std.specs.Prelude.{◌≡◌, None, Some, false};
ghost use Rattle.std.specs.Option.{is_none};

use std::marker::Model;

/// Where something lies that one thread at a time takes out, works with, and puts back.
#[derive(Drop)]
pub struct Shelf<T> {
    item: Option<T>,
    /// Somebody wanted it while it was taken out.
    noted: bool,
}

impl<T> Model for Shelf<T> {
    ghost use Rattle.plan_threads.specs.Shelves.{ShelfView};

    ghost Value = { ShelfView T };

    ghost view = { λ s. record { item = s.item; noted = s.noted } };
}

impl<T: Drop> Shelf<T> {
    /// Nothing lies there yet.
    pub fn empty() -> Shelf<T>
        ensures { result ≡ record { item = None; noted = false } }
    {
        Shelf {
            item: None,
            noted: false,
        }
    }

    /// Takes out what lies there. Where nothing does, that is noted for whoever has it.
    pub fn take(&mut self) -> Option<T>
        ensures taken { result ≡ self.old.item }
        ensures left { self.new.item ≡ None }
        ensures noted { self.new.noted ≡ is_none self.old.item }
    {
        let item = self.item.take();
        self.noted = item.is_none();
        item
    }

    /// Puts it back, and says whether somebody wanted it meanwhile.
    pub fn put(&mut self, item: T) -> bool
        ensures kept { self.new.item ≡ Some item }
        ensures wanted { result ≡ self.old.noted }
        ensures noted { self.new.noted ≡ false }
    {
        let wanted = self.noted;
        self.item = Some(item);
        self.noted = false;
        wanted
    }
}
