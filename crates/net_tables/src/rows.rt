//! The rows of a table, each read after those before it.
ghost use Rattle.std.specs.Prelude.{◌≡◌, [], IfOk, IfSome};
ghost use Rattle.std.specs.List.{AllByRecursion};
ghost use Rattle.toml.specs.View.{table_view};
ghost use Rattle.toml_parser.specs.Lexical.{skip_blank};
ghost use Rattle.card_digits.specs.Attempts.{Gives};
ghost use Rattle.table_fields.specs.Faults.{is_memory};
ghost use Rattle.table_fields.specs.Shapes.{tables_view};
ghost use Rattle.named_rows.specs.Each.{each};
ghost use Rattle.net_tables.specs.AllRows.{numbered, all_rows};
ghost use Rattle.net_tables.specs.InOrder.{AreNext};

use std::alloc::Global;
use table_fields::{Row, Table, TableFault, rows_at};
use toml_rows::{next_row, skip_blank};

/// How a table's rows are read.
pub(crate) trait RowReader {
    ghost use Rattle.std.specs.Prelude.{List, Result, [], ◌∷◌, ◌++◌, ◌<◌, length, IfOk, IfSome, IfNone};
    ghost use Rattle.card_digits.specs.Attempts.{Gives};
    ghost use Rattle.table_fields.specs.Faults.{is_memory};
    ghost use Rattle.table_fields.specs.Fields.{RowText, row_view};
    ghost use Rattle.table_fields.specs.declared.fault.TableFault.{TableFault};
    ghost use Rattle.net_tables.specs.Plain.{IsRowNext};

    type Read: Drop;

    /// What later rows may not repeat.
    type Taken: Drop;

    // what a row is after the rows before it
    ghost reads: { Self → List Self.Read → RowText → Result Self.Read TableFault };

    // what these rows have taken
    ghost knows: { Self → Self.Taken → List Self.Read → Type 0 };

    // what holds of each row
    ghost fits: { Self → Self.Read → Type 0 };

    /// A row, after the rows before it.
    fn read(
        &self,
        taken: &mut Self::Taken,
        done: &[Self::Read],
        row: &Row,
    ) -> Result<Self::Read, TableFault>
        requires { knows self.now taken.old done.now }
        ensures value { Gives is_memory (λ r. r) result (reads self.now done.now (row_view row.now)) }
        ensures taken { IfOk result (λ r. knows self.now taken.new (done.now ++ r ∷ [])) }
        ensures fits { IfOk result (fits self.now) };

    /// The row that comes next in a text, after the rows before it, and what follows it. None, and nothing is taken, where it isn't written
    /// in the form that this looks for, and where it has a fault or memory is refused: then it is for `read`. By itself no form is looked for.
    fn plain<'t>(
        &self,
        _taken: &mut Self::Taken,
        _done: &[Self::Read],
        _table: Table,
        _text: &'t str,
    ) -> Option<(Self::Read, &'t str)>
        requires { knows self.now _taken.old _done.now }
        ensures value { IfSome result (λ p. IsRowNext _table (reads self.now) _done.now p.0 _text.now p.1.now) }
        ensures shorter { IfSome result (λ p. length p.1.now < length _text.now) }
        ensures taken { IfSome result (λ p. knows self.now _taken.new (_done.now ++ p.0 ∷ [])) }
        ensures stays { IfNone result (knows self.now _taken.new _done.now) }
        ensures fits { IfSome result (λ p. fits self.now p.0) }
    {
        None
    }
}

fn each_row<R: RowReader>(
    alloc: Global,
    rows: &[&toml::Table],
    table: Table,
    reader: &R,
    taken: R::Taken,
) -> Result<(Vec<R::Read>, R::Taken), TableFault>
    requires { R.knows reader.now taken [] }
    ensures value { Gives is_memory (λ p. p.0.items) result (each (numbered table (R.reads reader.now)) [] (tables_view rows.now)) }
    ensures taken { IfOk result (λ p. R.knows reader.now p.1 p.0.items) }
    ensures fits { IfOk result (λ p. AllByRecursion (R.fits reader.now) p.0.items) }
{
    let mut taken = taken;
    let mut done = Vec::new(alloc);
    for (i, members) in rows.iter().enumerate() {
        let row = Row {
            members,
            table,
            number: i + 1,
        };
        let read = reader.read(&mut taken, &done, &row)?;
        done.push(read)?;
    }
    Ok((done, taken))
}

/// All rows of a table, in the order of the text, and what they have taken.
#[tactic(auto, using(card_digits::proofs::Attempts::fails_bind))]
pub(crate) fn read_rows<R: RowReader>(
    alloc: Global,
    root: &toml::Table,
    table: Table,
    reader: &R,
    taken: R::Taken,
) -> Result<(Vec<R::Read>, R::Taken), TableFault>
    requires { R.knows reader.now taken [] }
    ensures value { Gives is_memory (λ p. p.0.items) result (all_rows (table_view root.now) table (R.reads reader.now)) }
    ensures taken { IfOk result (λ p. R.knows reader.now p.1 p.0.items) }
    ensures fits { IfOk result (λ p. AllByRecursion (R.fits reader.now) p.0.items) }
{
    let rows = rows_at(alloc, root, table)?;
    each_row(alloc, &rows, table, reader, taken)
}

/// The rows of a table that come next in a text as long as they are plain, what they have taken, what follows them, and where in it white
/// space and comments end. None where memory was refused.
pub(crate) fn plain_rows<'a, R: RowReader>(
    alloc: Global,
    text: &'a str,
    table: Table,
    reader: &R,
    taken: R::Taken,
) -> Option<((Vec<R::Read>, R::Taken), &'a str, &'a str)>
    requires { R.knows reader.now taken [] }
    ensures value { IfSome result (λ p. AreNext table (R.reads reader.now) p.0.0.items text.now p.1.now) }
    ensures ahead { IfSome result (λ p. p.2.now ≡ skip_blank p.1.now) }
    ensures taken { IfSome result (λ p. R.knows reader.now p.0.1 p.0.0.items) }
    ensures fits { IfSome result (λ p. AllByRecursion (R.fits reader.now) p.0.0.items) }
{
    let mut taken = taken;
    let mut done = Vec::new(alloc);
    let mut rest = text;
    'rows: loop {
        let ahead = skip_blank(rest);
        let Some((read, after)) = reader.plain(&mut taken, &done, table, ahead) else {
            return Some(((done, taken), rest, ahead));
        };
        let Ok(()) = done.push(read) else {
            return None;
        };
        rest = after;
    }
}

/// The rows of a table that come next in a text, what they have taken, and what follows them. None where a row has a fault or memory was
/// refused. Plain rows are read where they stand. From the first row on that isn't plain the members of each row are made into a table, so
/// that at most one row is looked at twice. What is blank in front of it is gone over once.
pub(crate) fn next_rows<'a, R: RowReader>(
    alloc: Global,
    text: &'a str,
    table: Table,
    reader: &R,
    taken: R::Taken,
) -> Option<((Vec<R::Read>, R::Taken), &'a str)>
    requires { R.knows reader.now taken [] }
    ensures value { IfSome result (λ p. AreNext table (R.reads reader.now) p.0.0.items text.now p.1.now) }
    ensures taken { IfSome result (λ p. R.knows reader.now p.0.1 p.0.0.items) }
    ensures fits { IfSome result (λ p. AllByRecursion (R.fits reader.now) p.0.0.items) }
{
    let ((plain, taken), after_plain, after_blank) = plain_rows(alloc, text, table, reader, taken)?;
    let mut taken = taken;
    let mut done = plain;
    let mut rest = after_plain;
    let mut ahead = after_blank;
    'rows: loop {
        let Some((members, after)) = next_row(alloc, ahead, table.word()) else {
            return Some(((done, taken), rest));
        };
        let row = Row {
            members: &members,
            table,
            number: done.len() + 1,
        };
        let Ok(read) = reader.read(&mut taken, &done, &row) else {
            return None;
        };
        let Ok(()) = done.push(read) else {
            return None;
        };
        rest = after;
        ahead = skip_blank(after);
    }
}
