//! A store, and what the tests do with it.
use crate::advices::words::{Name, advice, grant, id, item_name};
use advice_store::{Advice, AdviceStore, GrantFault, ItemName, StoreFault};
use std::alloc::{AllocError, Global};

/// The ticks after which items are due again.
const TICKS: u16 = 3;

/// A line of a test. Advices and grants are named by their numbers.
#[derive(Clone, Copy)]
pub(crate) enum Step {
    /// Storing an advice answers this.
    Store(u32, Option<StoreFault>),
    /// So many advices are stored, with numbers from the first on.
    StoreAll(u32, u32),
    /// So many places are reserved, and an advice is stored on one of them.
    StoreReserved(u32, u32),
    /// Storing a grant answers this.
    Lend(u64, Option<GrantFault>),
    /// Takes out what is held.
    Ack(Name),
    /// There is nothing to be taken out.
    NotHeld(Name),
    /// Marks an advice that is held as put.
    Put(u32),
    /// A tick at which these are due, in this order.
    Tick(&'static [Name]),
    /// Reserving so many places answers this.
    Reserve(u32, Option<StoreFault>),
    /// So many places are reserved, and then given back.
    GiveBack(u32),
    /// There is memory for so many calls.
    Room(usize),
    /// Noting an identity answers this.
    Note(u32, Option<StoreFault>),
    /// Whether the identity is known, and its advice held.
    Known(u32, bool, bool),
    /// Whether the advice is held and was put.
    WasPut(u32, bool),
    /// Whether the grant is held.
    Lent(u64, bool),
}

/// A store of a test.
#[derive(Drop)]
struct Desk {
    alloc: Global,
    store: AdviceStore,
}

fn are(names: &[ItemName], wanted: &[Name]) -> bool {
    if names.len() != wanted.len() {
        return false;
    }
    for place in 0..names.len() {
        if names[place] != item_name(wanted[place]) {
            return false;
        }
    }
    true
}

fn reserve_and_store(
    store: &mut AdviceStore,
    count: u32,
    advice: Advice,
) -> Result<(), StoreFault> {
    store.reserve(count)?;
    if count == 0 {
        return Ok(());
    }
    match store.store(advice, true) {
        Ok(()) => Ok(()),
        Err((fault, _)) => Err(fault),
    }
}

fn reserve_and_give_back(store: &mut AdviceStore, count: u32) -> Result<(), StoreFault> {
    store.reserve(count)?;
    store.unreserve(count);
    Ok(())
}

impl Desk {
    fn new(alloc: Global) -> Result<Desk, AllocError> {
        let store = AdviceStore::new(alloc, TICKS)?;
        Ok(Desk { alloc, store })
    }

    /// Whether storing an advice answers this; what comes back is the advice.
    fn stores(&mut self, number: u32, wanted: Option<StoreFault>) -> bool {
        let Ok(advice) = advice(self.alloc, number) else {
            return false;
        };
        match self.store.store(advice, false) {
            Ok(()) => wanted.is_none(),
            Err((fault, back)) => wanted == Some(fault) && back.id == id(number),
        }
    }

    /// Whether so many advices are stored, with numbers from the first on.
    fn stores_all(&mut self, first: u32, count: u32) -> bool {
        for i in 0..count {
            if !self.stores(first.wrapping_add(i), None) {
                return false;
            }
        }
        true
    }

    /// Whether so many places are reserved, and an advice is stored on one of them.
    fn stores_reserved(&mut self, count: u32, number: u32) -> bool {
        let Ok(advice) = advice(self.alloc, number) else {
            return false;
        };
        reserve_and_store(&mut self.store, count, advice).is_ok()
    }

    /// Whether storing a grant answers this.
    fn lends(&mut self, number: u64, wanted: Option<GrantFault>) -> bool {
        match grant(number) {
            Ok(grant) => self.store.store_grant(grant).err() == wanted,
            Err(_) => false,
        }
    }

    /// Takes an item out, and says whether it was held.
    fn acks(&mut self, name: Name) -> bool {
        match name {
            Name::Advice(number) => self.store.ack(&id(number)),
            Name::Grant(number) => self.store.ack_grant(number),
        }
    }

    /// Marks an advice as put, if it is held.
    fn puts(&mut self, number: u32) -> bool {
        let id = id(number);
        if !self.store.holds(&id) {
            return false;
        }
        self.store.mark_put(&id);
        true
    }

    /// Whether these are due at the next tick, in this order.
    fn is_due(&self, wanted: &[Name]) -> bool {
        match self.store.due() {
            Ok(due) => are(due.as_slice(), wanted),
            Err(_) => false,
        }
    }

    /// Whether the next tick has these, and looks at no more than these and one.
    fn ticks(&mut self, wanted: &[Name]) -> bool {
        let same = self.is_due(wanted);
        self.store.tick();
        same && self.store.visits() <= (wanted.len() as u64).saturating_add(1)
    }

    /// Whether reserving so many places answers this.
    fn reserves(&mut self, count: u32, wanted: Option<StoreFault>) -> bool {
        self.store.reserve(count).err() == wanted
    }

    /// Whether so many places are reserved, and then given back.
    fn gives_back(&mut self, count: u32) -> bool {
        reserve_and_give_back(&mut self.store, count).is_ok()
    }

    /// Whether there is memory for so many calls.
    fn has_room(&mut self, count: usize) -> bool {
        self.store.room(count).is_ok()
    }

    /// Whether noting an identity answers this.
    fn notes(&mut self, number: u32, wanted: Option<StoreFault>) -> bool {
        self.store.note(id(number)).err() == wanted
    }

    /// Whether this is so: the identity is known, and its advice held.
    fn is_known(&self, number: u32, known: bool, held: bool) -> bool {
        let id = id(number);
        self.store.known(&id) == known
            && self.store.holds(&id) == held
            && self.store.get(&id).is_some() == held
    }

    /// Whether the advice is held and was put.
    fn was_put(&self, number: u32) -> bool {
        match self.store.get(&id(number)) {
            Some(advice) => advice.put,
            None => false,
        }
    }

    /// Whether the grant is held, and is the one that was stored.
    fn is_lent(&self, number: u64) -> bool {
        match self.store.grant(number) {
            Some(held) => Ok(*held) == grant(number),
            None => false,
        }
    }
    /// Whether a step goes as it says.
    fn does(&mut self, step: Step) -> bool {
        match step {
            Step::Store(number, wanted) => self.stores(number, wanted),
            Step::StoreAll(first, count) => self.stores_all(first, count),
            Step::StoreReserved(count, number) => self.stores_reserved(count, number),
            Step::Lend(number, wanted) => self.lends(number, wanted),
            Step::Ack(name) => self.acks(name),
            Step::NotHeld(name) => !self.acks(name),
            Step::Put(number) => self.puts(number),
            Step::Tick(wanted) => self.ticks(wanted),
            Step::Reserve(count, wanted) => self.reserves(count, wanted),
            Step::GiveBack(count) => self.gives_back(count),
            Step::Room(count) => self.has_room(count),
            Step::Note(number, wanted) => self.notes(number, wanted),
            Step::Known(number, known, held) => self.is_known(number, known, held),
            Step::WasPut(number, put) => self.was_put(number) == put,
            Step::Lent(number, lent) => self.is_lent(number) == lent,
        }
    }
}

fn first_wrong_in(desk: &mut Desk, steps: &[Step]) -> Option<usize> {
    for place in 0..steps.len() {
        if !desk.does(steps[place]) {
            return Some(place);
        }
    }
    None
}

/// The first step that goes otherwise.
pub(crate) fn first_wrong(alloc: Global, steps: &[Step]) -> Result<Option<usize>, AllocError> {
    let mut desk = Desk::new(alloc)?;
    Ok(first_wrong_in(&mut desk, steps))
}
