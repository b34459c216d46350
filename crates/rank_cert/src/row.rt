//! A row as a line of the text.
ghost use Rattle.std.specs.Prelude.{◌≡◌, ℕ, List, ◌==◌, ◌<◌, ◌≤◌, ◌++◌, ◌∷◌, true, false, length, take, drop, get_or, Some, All, IfSome, IfOk, IfErr, MatchOption, option_map};
ghost use Rattle.card_digits.specs.Cut.{IsCut};
ghost use Rattle.card_digits.specs.Lines.{lines};
ghost use Rattle.rank_rows.specs.Ranks.{like_rows, IsRow, EndsWith};
ghost use Rattle.card_digits.specs.Attempts.{Fails};
ghost use Rattle.rank_cert.specs.Reading.{row_of, number_of, rows_in, rows_with, is_memory};
ghost use Rattle.rank_cert.specs.Like.{IsNamed, IsRanked, IsLike, AreLike};

use crate::cert::Cert;
use crate::fault::CertFault;
use card_digits::{Name, Prefix, all_digits, decimal, same_bytes};
use rank_rows::{NEAR, Rank, rows_from};
use std::marker::Model;

/// A prefix, and how it is spelled between a name and a rank: in digits, and a space.
#[derive(Debug, Drop)]
pub(crate) struct Spelled<'a> {
    prefix: Prefix,
    text: &'a [u8],
}

impl<'a> Model for Spelled<'a> {
    ghost use Rattle.std.specs.Prelude.{ℕ, List};
    ghost use Rattle.rank_cert.specs.Like.{IsSpelled};

    ghost Value = { List ℕ };

    ghost view = { λ a. a.prefix };

    ghost invariant = { λ a. IsSpelled a.prefix a.text.now };
}

/// What stands before the first space, and what stands behind it. A field is a few bytes, so they are looked at one by one.
fn field(text: &[u8]) -> Option<(&[u8], &[u8])>
    ensures { MatchOption result (All (λ b. (b == 32) ≡ false) text.now) (λ p. IsCut 32 text.now p.0.now p.1.now) }
{
    let i = text.iter().position(|byte| *byte == b' ')?;
    Some((&text[..i], &text[i + 1..]))
}

/// What stands behind a word, where the text begins with it.
#[inline(always)]
fn behind_word<'a>(text: &'a [u8], word: &[u8]) -> Option<&'a [u8]>
    ensures { IfSome result (λ rest. text.now ≡ word.now ++ rest.now) }
{
    let len = word.len();
    if text.len() < len || !same_bytes(&text[..len], word) {
        return None;
    }
    Some(&text[len..])
}

/// What stands behind a name and a space, where the text begins with them.
#[inline(always)]
fn behind_name<'a>(text: &'a [u8], name: Name) -> Option<&'a [u8]>
    ensures { IfSome result (λ behind. IsNamed text.now name behind.now) }
{
    let behind = behind_word(text, name.as_slice())?;
    if behind.is_empty() || behind[0] != b' ' {
        return None;
    }
    Some(&behind[1..])
}

/// The most digits of a rank.
const MOST_DIGITS: usize = 5;

/// The rank that is all that stands before the first line feed, and what stands behind that.
#[inline(always)]
fn last_number(text: &[u8]) -> Option<(u16, &[u8])>
    ensures { IfSome result (λ p. IsRanked text.now p.0 p.1.now) }
{
    let mut number = 0u32;
    for i in 0..=MOST_DIGITS {
        let byte = *text.get(i)?;
        if byte == b'\n' && i > 0 {
            return Some((number as u16, &text[i + 1..]));
        }
        if !byte.is_ascii_digit() {
            return None;
        }
        number = number * 10 + (byte - b'0') as u32;
        if number > u16::MAX as u32 {
            return None;
        }
    }
    None
}

impl Spelled<'_> {
    /// The row of the first line, where that spells this prefix in this way, and what stands behind the line. Where its name is that of the
    /// row at a place, it is only compared.
    #[inline]
    fn like<'t>(&self, text: &'t [u8], rows: &[Rank], place: usize) -> Option<(Rank, &'t [u8])>
        ensures row { IfSome result (λ p. IsLike text.now p.0 p.1.now) }
        ensures prefix { IfSome result (λ p. p.0.prefix ≡ self.now) }
        ensures good { IfSome result (λ p. IsRow p.0) }
    {
        if let Some(row) = rows.get(place) {
            if let Some(behind) = behind_name(text, row.node) {
                return self.row_behind(row.node, behind);
            }
        }
        self.like_any(text)
    }

    /// The same for any name, which is read only where the digits behind it are those of the prefix.
    #[inline]
    fn like_any<'t>(&self, text: &'t [u8]) -> Option<(Rank, &'t [u8])>
        ensures row { IfSome result (λ p. IsLike text.now p.0 p.1.now) }
        ensures prefix { IfSome result (λ p. p.0.prefix ≡ self.now) }
        ensures good { IfSome result (λ p. IsRow p.0) }
    {
        let (name, behind) = field(text)?;
        let (rank, rest) = self.rank_behind(behind)?;
        let row = Rank {
            node: Name::read(name)?,
            prefix: self.prefix,
            rank,
        };
        Some((row, rest))
    }

    /// The same behind a name and a space.
    #[inline]
    fn row_behind<'t>(&self, node: Name, behind: &'t [u8]) -> Option<(Rank, &'t [u8])>
        ensures row { IfSome result (λ p. (text : List ℕ) → IsNamed text node behind.now → IsLike text p.0 p.1.now) }
        ensures prefix { IfSome result (λ p. p.0.prefix ≡ self.now) }
        ensures good { IfSome result (λ p. IsRow p.0) }
    {
        let (rank, rest) = self.rank_behind(behind)?;
        let row = Rank {
            node,
            prefix: self.prefix,
            rank,
        };
        Some((row, rest))
    }

    /// The rank of that row.
    #[inline(always)]
    fn rank_behind<'t>(&self, behind: &'t [u8]) -> Option<(u16, &'t [u8])>
        ensures { IfSome result (λ p. (text name : List ℕ) → IsNamed text name behind.now → IsLike text (record { node = name; prefix = self.now; rank = p.0 }) p.1.now) }
    {
        let (rank, rest) = last_number(behind_word(behind, self.text)?)?;
        Some((rank, rest))
    }

    /// The rank of the first line, where that has this name and spells this prefix in this way, and what stands behind the line.
    #[inline(always)]
    fn rank_of<'t>(&self, name: Name, text: &'t [u8]) -> Option<(u16, &'t [u8])>
        ensures { IfSome result (λ p. IsLike text.now (record { node = name; prefix = self.now; rank = p.0 }) p.1.now) }
    {
        let (rank, rest) = self.rank_behind(behind_name(text, name)?)?;
        Some((rank, rest))
    }
}

/// Reads the ranks of the lines that spell this prefix and have the names of these rows, one after the other, up to the first other line.
/// The first row's rank is there already. Gives how many ranks there are then, and what stands behind their lines.
#[inline(never)]
fn read_ranks<'a>(
    run: &[Rank],
    spelled: &Spelled,
    ranks: &mut [u16; NEAR],
    text: &'a [u8],
) -> (usize, &'a [u8])
    requires { 0 < length run.now }
    ensures some { 0 < result.0 }
    ensures most { result.0 ≤ 64 }
    ensures first { get_or ranks.new 0 0 ≡ get_or ranks.old 0 0 }
    ensures like { AreLike text.now (drop 1 (like_rows run.now spelled.now (take result.0 ranks.new))) result.1.now }
{
    let mut rest = text;
    let count = run.len().min(NEAR);
    for i in 1..count {
        let Some((rank, behind)) = spelled.rank_of(run[i].node, rest) else {
            return (i, rest);
        };
        ranks[i] = rank;
        rest = behind;
    }
    (count, rest)
}

/// Adds the row of a line together with those of the lines behind it, as many as have the names of the last prefix's rows, one after the
/// other, and spell the row's prefix: such rows are new where their prefix is, so no name is looked for. Gives what stands behind them.
#[inline(never)]
pub(crate) fn add_repeated<'a>(
    cert: &mut Cert,
    row: &Rank,
    spelled: &Spelled,
    text: &'a [u8],
) -> Result<Option<&'a [u8]>, CertFault>
    requires { spelled.now ≡ row.now.prefix }
    ensures on { IfOk result (λ o. MatchOption o (cert.new ≡ cert.old) (λ rest. rows_with cert.old (Some row.now) (lines text.now) ≡ rows_in cert.new (lines rest.now))) }
    ensures ends { IfOk result (λ o. IfSome o (λ _. EndsWith row.now.prefix cert.new)) }
    ensures shorter { IfOk result (λ o. IfSome o (λ rest. length rest.now ≤ length text.now)) }
    ensures fault { IfErr result (λ e. is_memory e ≡ true) }
{
    let Some(place) = cert.last_run() else {
        return Ok(None);
    };
    let run = rows_from(cert.rows(), place);
    if !begins_with_name(run, &row.node) {
        return Ok(None);
    }
    let mut ranks = [row.rank; NEAR];
    let (count, rest) = read_ranks(run, spelled, &mut ranks, text);
    if cert.repeat_front(place, row.prefix, &ranks[..count])? {
        Ok(Some(rest))
    } else {
        Ok(None)
    }
}

/// Whether the first row has the name.
fn begins_with_name(rows: &[Rank], name: &Name) -> bool
    ensures some { result ≡ true → 0 < length rows.now }
    ensures named { result ≡ true → (r : Rank) (rs : List Rank) → rows.now ≡ r ∷ rs → r.node ≡ name.now }
{
    match rows.first() {
        Some(row) => row.node == *name,
        None => false,
    }
}

/// Adds the row of the first line, where that spells this prefix, and gives what stands behind the line. Any other line is left. The
/// name that is expected is that of the row so many places before.
fn add_like<'a>(
    cert: &mut Cert,
    spelled: &Spelled,
    distance: usize,
    text: &'a [u8],
) -> Result<Option<&'a [u8]>, CertFault>
    requires { EndsWith spelled.now cert.old }
    ensures on { IfOk result (λ o. MatchOption o (cert.new ≡ cert.old) (λ rest. rows_in cert.old (lines text.now) ≡ rows_in cert.new (lines rest.now))) }
    ensures ends { IfOk result (λ _. EndsWith spelled.now cert.new) }
    ensures shorter { IfOk result (λ o. IfSome o (λ rest. length rest.now < length text.now)) }
    ensures fault { IfErr result (λ e. Fails is_memory e (rows_in cert.old (lines text.now))) }
{
    let rows = cert.rows();
    let place = rows.len().wrapping_sub(distance);
    let Some((row, rest)) = spelled.like(text, rows, place) else {
        return Ok(None);
    };
    if cert.add_to_last(row)? {
        Ok(Some(rest))
    } else {
        Err(CertFault::Twice(cert.rows().len() + 2))
    }
}

/// Adds the rows of the lines that spell the prefix of the line before them, as most do, and gives what stands behind them. Of
/// such a line the digits are only compared, and the name too where it is that of the row so many places before: most often each
/// prefix has the same names in the same order.
pub(crate) fn add_all_like<'a>(
    cert: &mut Cert,
    spelled: &Spelled,
    distance: usize,
    text: &'a [u8],
) -> Result<&'a [u8], CertFault>
    requires { EndsWith spelled.now cert.old }
    ensures on { IfOk result (λ rest. rows_in cert.old (lines text.now) ≡ rows_in cert.new (lines rest.now)) }
    ensures shorter { IfOk result (λ rest. length rest.now ≤ length text.now) }
    ensures fault { IfErr result (λ e. Fails is_memory e (rows_in cert.old (lines text.now))) }
{
    let mut rest = text;
    while let Some(behind) = add_like(cert, spelled, distance, rest)? {
        rest = behind;
    }
    Ok(rest)
}

/// The row that a line is, and how it spells its prefix.
pub(crate) fn row_of(line: &[u8]) -> Option<(Rank, Spelled)>
    ensures row { option_map (λ p. p.0) result ≡ row_of line.now }
    ensures good { IfSome result (λ p. IsRow p.0) }
    ensures prefix { IfSome result (λ p. p.1 ≡ p.0.prefix) }
{
    let (name, behind) = field(line)?;
    let node = Name::read(name)?;
    let (text, rank) = field(behind)?;
    let prefix = Prefix::read(text).ok()?;
    let row = ranked(node, prefix, rank)?;
    let spelled = Spelled {
        prefix,
        text: &behind[..text.len() + 1],
    };
    Some((row, spelled))
}

/// The row of a name and a prefix with the rank that a text is.
fn ranked(node: Name, prefix: Prefix, rank: &[u8]) -> Option<Rank>
    ensures row { result ≡ option_map (λ n. record { node = node; prefix = prefix; rank = n }) (number_of rank.now) }
    ensures good { IfSome result IsRow }
    ensures prefix { IfSome result (λ r. r.prefix ≡ prefix) }
{
    let rank = number_of(rank)?;
    Some(Rank { node, prefix, rank })
}

/// The number of one to five digits, where it is small enough.
fn number_of(text: &[u8]) -> Option<u16>
    ensures { result ≡ number_of text.now }
{
    if text.is_empty() || text.len() > MOST_DIGITS || !all_digits(text) {
        return None;
    }
    u16::try_from(decimal(text)).ok()
}
