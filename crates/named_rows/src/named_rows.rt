//! Rows that are found by their names.
ghost use Rattle.std.specs.Prelude.{◌≡◌, ◌==◌, ◌<◌, length, map, position, IfOk, IfSome};
ghost use Rattle.std.specs.Cmp.Lexicographic.{pointwise};
ghost use Rattle.named_rows.specs.Rows.{AreNamed};
ghost use Rattle.named_rows.specs.Reading.{named};
ghost use Rattle.named_rows.specs.Plain.{IsNamed};

use card_digits::Name;
use indexmap::IndexSet;
use net_rows::{Link, Node};
use std::marker::Model;
use table_fields::{Place, TableFault};

/// A row with a name.
pub trait Named {
    ghost use Rattle.std.specs.Prelude.{ℕ, List};

    // its name
    ghost name_of: { Self → List ℕ };

    // how many rows there may be
    ghost most: { ℕ };
}

impl Named for Node {
    ghost name_of = { λ n. n.name };

    ghost most = { 64 };
}

impl Named for Link {
    ghost name_of = { λ l. l.name };

    ghost most = { 256 };
}

/// How many marks there are.
const MARKS: usize = 1_024;

/// Rows in the order of the text, and their names, none twice. Where there are marks, each says where a name of its hash may stand.
#[derive(Drop)]
pub struct NamedRows<R: Named> {
    rows: Vec<R>,
    names: IndexSet<Name>,
    marks: Option<[u8; MARKS]>,
}

/// The place of a name's mark, by its last three bytes: names mostly end in numbers.
fn mark_of(name: &Name) -> usize
    ensures { result < 1_024 }
{
    let hash = match name.as_slice() {
        [.., third, second, last] => {
            usize::from(*third) * 100 + usize::from(*second) * 10 + usize::from(*last)
        }
        [second, last] => usize::from(*second) * 10 + usize::from(*last),
        [last] => usize::from(*last),
        [] => 0,
    };
    hash % MARKS
}

/// A mark for each name, or for one of those that share one.
fn marks_of(names: &[Name]) -> [u8; MARKS] {
    let mut marks = [0; MARKS];
    for (place, name) in names.iter().enumerate() {
        marks[mark_of(name)] = (place % 256) as u8;
    }
    marks
}

impl<R: Named> Model for NamedRows<R> {
    ghost use Rattle.std.specs.Prelude.{List};
    ghost use Rattle.named_rows.specs.Rows.{AreNamed};

    ghost Value = { List R };

    ghost view = { λ a. a.rows.items };

    ghost invariant = { λ a. AreNamed R.most R.name_of a.names.keys a.rows.items };
}

impl<R: Named> NamedRows<R> {
    /// Rows with their names.
    pub fn new(rows: Vec<R>, names: IndexSet<Name>) -> NamedRows<R>
        requires { AreNamed R.most R.name_of names.keys rows.items }
        ensures { result ≡ rows.items }
    {
        NamedRows {
            rows,
            names,
            marks: None,
        }
    }

    /// The same rows, with a mark for each name, for where many names are looked up.
    pub fn marked(self) -> NamedRows<R>
        ensures { result ≡ self }
    {
        let NamedRows {
            rows,
            names,
            marks: _,
        } = self;
        let marks = Some(marks_of(names.as_slice()));
        NamedRows { rows, names, marks }
    }

    /// The place of the row of that name, counted from 0.
    pub fn named(&self, name: &Name, at: Place) -> Result<usize, TableFault>
        ensures value { result ≡ named (map R.name_of self.now) at name.now }
        ensures within { IfOk result (λ i. i < length self.now) }
        ensures few { IfOk result (λ i. i < R.most) }
    {
        self.place_of(name).ok_or(TableFault::UnknownName(at))
    }

    /// The place of the row whose name the text is.
    pub fn find(&self, text: &str) -> Option<usize>
        ensures value { IfSome result (λ i. IsNamed (map R.name_of self.now) text.now i) }
        ensures within { IfSome result (λ i. i < length self.now) }
        ensures few { IfSome result (λ i. i < R.most) }
    {
        let name = Name::read(text.as_bytes())?;
        self.place_of(&name)
    }

    /// Where the name stands if its mark says so. Without marks there is no row at this place.
    fn place_marked(&self, name: &Name) -> usize {
        match &self.marks {
            Some(marks) => usize::from(marks[mark_of(name)]),
            None => self.names.len(),
        }
    }

    /// The place of the row of that name. The name whose place is marked is compared first.
    fn place_of(&self, name: &Name) -> Option<usize>
        ensures value { result ≡ position (pointwise ◌==◌ name.now) (map R.name_of self.now) }
        ensures within { IfSome result (λ i. i < length self.now) }
        ensures few { IfSome result (λ i. i < R.most) }
    {
        let place = self.place_marked(name);
        match self.names.as_slice().get(place) {
            Some(marked) if marked == name => Some(place),
            _ => self.names.get_index_of(name),
        }
    }

    /// The rows.
    pub fn as_slice(&self) -> &[R]
        ensures { result.now ≡ self.now }
    {
        &self.rows
    }

    /// The rows alone.
    pub fn into_rows(self) -> Vec<R>
        ensures { result.items ≡ self }
    {
        let NamedRows {
            rows,
            names: _,
            marks: _,
        } = self;
        rows
    }
}
